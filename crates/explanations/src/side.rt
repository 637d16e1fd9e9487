// Which of the two procedures.
ghost use Rattle.std.specs.Prelude.{Some};
ghost use Rattle.explanations.specs.Sides.{side_text};

use std::fmt;

#[derive(Clone, Copy)]
pub enum Side {
    Left,
    Right,
}

impl fmt::Display for Side {
    ghost output = { λ s. Some (side_text s) };

    fn fmt<W: fmt::Write>(&self, f: &mut fmt::Formatter<W>) -> fmt::Result {
        match self {
            Side::Left => write!(f, "left"),
            Side::Right => write!(f, "right"),
        }
    }
}
