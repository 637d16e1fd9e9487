// Why a line, or a whole input, is refused.
ghost use Rattle.std.specs.Prelude.{◌≡◌};
ghost use Rattle.commands.specs.Faults.{of_console};
ghost use Rattle.commands.specs.declared.fault.ConsoleFault.{ConsoleFault};

use refusals::{Fault, Layer, Refusal};
use shelves::ShelfFault;
use terms::fault::TermFault;

#[derive(Clone, Copy, PartialEq, Eq, Debug)]
pub enum ConsoleFault {
    // The line is not of the form: the first byte that doesn't fit, or the line's length.
    Form(usize),
    // The input is too long.
    Long,
    // The term is refused.
    Term(TermFault),
    // The shelf refuses the call.
    Shelf(ShelfFault),
}

impl From<TermFault> for ConsoleFault {
    ghost from_gives = { λ f r. r ≡ ConsoleFault.Term f };

    fn from(whole: TermFault) -> ConsoleFault {
        ConsoleFault::Term(whole)
    }
}

impl From<ShelfFault> for ConsoleFault {
    ghost from_gives = { λ f r. r ≡ ConsoleFault.Shelf f };

    fn from(whole: ShelfFault) -> ConsoleFault {
        ConsoleFault::Shelf(whole)
    }
}

impl Fault for ConsoleFault {
    ghost told = { of_console };

    fn refusal(&self) -> Refusal {
        let (number, place) = match *self {
            ConsoleFault::Form(at) => (40, Some(at)),
            ConsoleFault::Long => (41, None),
            ConsoleFault::Term(fault) => return fault.refusal(),
            ConsoleFault::Shelf(fault) => return fault.refusal(),
        };
        Refusal {
            number,
            layer: Layer::Console,
            place,
        }
    }
}
