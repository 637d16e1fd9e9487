// Why a comparison is refused.
ghost use Rattle.comparison.specs.Faults.{of_compare};

use refusals::{Fault, Layer, Refusal};

#[derive(Clone, Copy, PartialEq, Eq, Debug)]
pub enum CompareFault {
    // Too few places for lines or for class numbers.
    Room,
}

impl Fault for CompareFault {
    ghost told = { of_compare };

    fn refusal(&self) -> Refusal {
        let CompareFault::Room = *self;
        Refusal {
            number: 25,
            layer: Layer::Compare,
            place: None,
        }
    }
}
