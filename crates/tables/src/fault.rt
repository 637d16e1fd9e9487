// Why a file of records, or a table, is refused.
ghost use Rattle.std.specs.Prelude.{◌≡◌};
ghost use Rattle.tables.specs.Faults.{of_record, of_table};
ghost use Rattle.tables.specs.declared.fault.TableFault.{TableFault};

use refusals::{Fault, Layer, Refusal};

#[derive(Clone, Copy, PartialEq, Eq, Debug)]
pub enum RecordFault {
    // One to three bytes remain at this offset.
    Short(usize),
    // The body of the record at this offset passes the end.
    Cut(usize),
}

// Long stands for the whole file; the others tell the offset of the record that is refused.
#[derive(Clone, Copy, PartialEq, Eq, Debug)]
pub enum TableFault {
    // The file has over 16,384 bytes.
    Long,
    // The bytes hold no whole record there.
    Record(RecordFault),
    // The first record is missing or no head, or this is a second head.
    Head(usize),
    // An unknown kind, or a length that is wrong for the kind.
    Form(usize),
    // The number of states, a state or an action is out of range.
    Range(usize),
    // The 513th step.
    Steps(usize),
}

impl From<RecordFault> for TableFault {
    ghost from_gives = { λ f r. r ≡ TableFault.Record f };

    fn from(whole: RecordFault) -> TableFault {
        TableFault::Record(whole)
    }
}

impl Fault for RecordFault {
    ghost told = { of_record };

    fn refusal(&self) -> Refusal {
        let (number, place) = match *self {
            RecordFault::Short(at) => (1, at),
            RecordFault::Cut(at) => (2, at),
        };
        Refusal {
            number,
            layer: Layer::Record,
            place: Some(place),
        }
    }
}

impl Fault for TableFault {
    ghost told = { of_table };

    fn refusal(&self) -> Refusal {
        let (number, place) = match *self {
            TableFault::Record(fault) => return fault.refusal(),
            TableFault::Head(at) => (3, at),
            TableFault::Form(at) => (4, at),
            TableFault::Range(at) => (5, at),
            TableFault::Steps(at) => (6, at),
            TableFault::Long => (7, 0),
        };
        Refusal {
            number,
            layer: Layer::Table,
            place: Some(place),
        }
    }
}
