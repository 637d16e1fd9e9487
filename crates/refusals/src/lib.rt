// What every refusal of the product tells: its number, the layer that refused, and its place
// where it has one.

#![tactic(auto)]

ghost use Rattle.std.specs.Prelude.{◌≡◌, Some};
ghost use Rattle.refusals.specs.Texts.{layer_text, refusal_text};
ghost use Rattle.refusals.specs.declared.Refusal.{Refusal};

use std::fmt;

// The part of the product that refused.
#[derive(Clone, Copy, PartialEq, Eq, Debug)]
pub enum Layer {
    Record,
    Table,
    Term,
    Map,
    Shelf,
    Compare,
    Evaluation,
    Console,
}

// The number is the one that is published, by which people look a refusal up. In code a refusal is a fault, of an enum of its layer.
#[derive(Clone, Copy, PartialEq, Eq, Debug)]
pub struct Refusal {
    pub number: u8,
    pub layer: Layer,
    pub place: Option<usize>,
}

// A fault of one layer. What it tells is fixed by the layer's own definition, `told`, which promises over faults of any kind name; so it is
// no `From`.
pub trait Fault {
    ghost told: { Self → Refusal };

    fn refusal(&self) -> Refusal
        ensures { result ≡ told self.now };
}

// The layer's name in small letters.
impl fmt::Display for Layer {
    ghost output = { λ l. Some (layer_text l) };

    fn fmt<W: fmt::Write>(&self, f: &mut fmt::Formatter<W>) -> fmt::Result {
        match self {
            Layer::Record => write!(f, "record"),
            Layer::Table => write!(f, "table"),
            Layer::Term => write!(f, "term"),
            Layer::Map => write!(f, "map"),
            Layer::Shelf => write!(f, "shelf"),
            Layer::Compare => write!(f, "compare"),
            Layer::Evaluation => write!(f, "evaluation"),
            Layer::Console => write!(f, "console"),
        }
    }
}

// `refused 11 at 1`, or `refused 22` where the refusal has no place.
impl fmt::Display for Refusal {
    ghost output = { λ r. Some (refusal_text r) };

    fn fmt<W: fmt::Write>(&self, f: &mut fmt::Formatter<W>) -> fmt::Result {
        let number = self.number;
        match self.place {
            Some(place) => write!(f, "refused {number} at {place}"),
            None => write!(f, "refused {number}"),
        }
    }
}
