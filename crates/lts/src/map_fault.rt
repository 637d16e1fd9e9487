// Why an action map is refused.
ghost use Rattle.lts.specs.Fault.{of_map};

use refusals::{Fault, Layer, Refusal};

#[derive(Clone, Copy, PartialEq, Eq, Debug)]
pub enum MapFault {
    // The entry at this place is no action.
    Entry(usize),
}

impl Fault for MapFault {
    ghost told = { of_map };

    fn refusal(&self) -> Refusal {
        let MapFault::Entry(place) = *self;
        Refusal {
            number: 15,
            layer: Layer::Map,
            place: Some(place),
        }
    }
}
