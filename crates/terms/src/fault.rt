// Why a text is no term.
ghost use Rattle.terms.specs.Faults.{of_term};

use refusals::{Fault, Layer, Refusal};

#[derive(Clone, Copy, PartialEq, Eq, Debug)]
pub enum TermFault {
    // The text has over 512 bytes.
    Long,
    // The byte at this offset can't stand there.
    Misplaced(usize),
    // The text ends too early, at this length.
    Early(usize),
    // The 64th action, at this offset.
    Actions(usize),
    // The 33rd open bracket, at this offset.
    Brackets(usize),
}

impl Fault for TermFault {
    ghost told = { of_term };

    fn refusal(&self) -> Refusal {
        let (number, place) = match *self {
            TermFault::Long => (10, 0),
            TermFault::Misplaced(at) => (11, at),
            TermFault::Early(at) => (12, at),
            TermFault::Actions(at) => (13, at),
            TermFault::Brackets(at) => (14, at),
        };
        Refusal {
            number,
            layer: Layer::Term,
            place: Some(place),
        }
    }
}
