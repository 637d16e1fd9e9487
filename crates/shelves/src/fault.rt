// Why a call on a shelf is refused.
ghost use Rattle.std.specs.Prelude.{◌≡◌};
ghost use Rattle.shelves.specs.Faults.{of_shelf};
ghost use Rattle.shelves.specs.declared.fault.ShelfFault.TheVariants.{Room};

use comparison::{CompareFault, Report};
use refusals::{Fault, Layer, Refusal};

#[derive(Clone, Copy, PartialEq, Eq, Debug)]
pub enum ShelfFault {
    // The slot is above 7.
    Slot,
    // The slot is taken.
    Taken,
    // The slot is empty.
    Empty,
    // A procedure is pending.
    Pending,
    // The source lists over 512 steps in all.
    Steps,
    // Too few places for lines or for class numbers.
    Room,
    // The source differs from the procedure in force; what the comparison reports.
    Different(Report),
    // Nothing is pending.
    Nothing,
    // 65,535 claims were made.
    Claims,
    // The clearance isn't this shelf's or the slot's latest.
    Clearance,
}

impl Fault for ShelfFault {
    ghost told = { of_shelf };

    fn refusal(&self) -> Refusal {
        let number = match self {
            ShelfFault::Slot => 20,
            ShelfFault::Taken => 21,
            ShelfFault::Empty => 22,
            ShelfFault::Pending => 23,
            ShelfFault::Steps => 24,
            ShelfFault::Room => 25,
            ShelfFault::Different(_) => 26,
            ShelfFault::Nothing => 27,
            ShelfFault::Claims => 28,
            ShelfFault::Clearance => 29,
        };
        Refusal {
            number,
            layer: Layer::Shelf,
            place: None,
        }
    }
}

impl From<CompareFault> for ShelfFault {
    ghost from_gives = { λ _ r. r ≡ Room };

    fn from(fault: CompareFault) -> ShelfFault {
        let CompareFault::Room = fault;
        ShelfFault::Room
    }
}

impl From<ShelfFault> for Refusal {
    ghost from_gives = { λ f r. r ≡ of_shelf f };

    fn from(fault: ShelfFault) -> Refusal {
        fault.refusal()
    }
}
