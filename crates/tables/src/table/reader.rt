// How a table file is read.
ghost use Rattle.std.specs.Prelude.{◌≡◌, IfOk};
ghost use Rattle.tables.specs.Drawing.{table_meaning};
ghost use Rattle.tables.specs.Laid.{Laid};
ghost use Rattle.tables.specs.Records.{records_of};
ghost use Rattle.tables.specs.Rows.{first_refusal};
ghost use Rattle.tables.specs.Tables.{meaning_of, refusal_of};

use crate::draft::Draft;
use crate::fault::TableFault;
use crate::records::Records;
use crate::table::Table;

impl Table {
    // Reads a file: the table that its records draw, or its first refusal.
    pub fn read(bytes: &[u8]) -> Result<Table, TableFault>
        ensures refuses { refusal_of result ≡ first_refusal bytes.now }
        ensures laid { IfOk result (λ t. Laid 0 (records_of bytes.now) bytes.now) }
        ensures draws { IfOk result (λ t. meaning_of t ≡ table_meaning (records_of bytes.now)) }
    {
        if bytes.len() > 16384 {
            return Err(TableFault::Long);
        }
        let mut records = Records::new(bytes);
        let Some(first) = records.next()? else {
            return Err(TableFault::Head(0));
        };
        let mut draft = Draft::new(first, records.offset())?;
        while let Some(record) = records.next()? {
            draft.add(record, records.offset())?;
        }
        Ok(Table {
            procedure: draft.grouped(),
        })
    }
}
