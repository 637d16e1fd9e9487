// How a file is read, one record after another.
ghost use Rattle.std.specs.Prelude.{◌≡◌};
ghost use Rattle.tables.specs.Reading.{Opened, Answered};

use crate::fault::RecordFault;
use crate::record::Record;
use crate::records::Records;

impl<'a> Records<'a> {
    // Before the first record of a file.
    pub fn new(bytes: &'a [u8]) -> Records<'a>
        ensures { Opened bytes.now result }
    {
        Records {
            bytes,
            offset: 0,
            next: 0,
        }
    }

    // The next record, or nothing at the end of the file.
    // No `Iterator`: after a refusal the reader stays where it is and refuses again, so nothing bounds how many answers come.
    pub fn next(&mut self) -> Result<Option<Record<'a>>, RecordFault>
        ensures { Answered self.old result self.new }
    {
        let at = self.next;
        let left = &self.bytes[at..];
        if left.is_empty() {
            return Ok(None);
        }
        let [size_low, size_high, kind_low, kind_high, rest @ ..] = left else {
            return Err(RecordFault::Short(at));
        };
        let size = u16::from_le_bytes([*size_low, *size_high]) as usize;
        if rest.len() < size {
            return Err(RecordFault::Cut(at));
        }
        let kind = u16::from_le_bytes([*kind_low, *kind_high]);
        let record = Record::new(kind, &rest[..size]);
        self.offset = at;
        self.next = at + 4 + size;
        Ok(Some(record))
    }
}
