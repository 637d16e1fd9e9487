// The lines of a formula, each behind its number.
ghost use Rattle.std.specs.Prelude.{◌≡◌, ◌++◌, Some, string_bytes, OnOk};
ghost use Rattle.listings.specs.Texts.{line_text, lines_text};

use drawings::ActionName;
use formulas::Line;
use std::alloc::AllocError;
use std::fmt;

// A line as it is written: its letter, and what it names.
#[derive(Clone, Copy)]
struct LineName(Line);

impl fmt::Display for LineName {
    ghost output = { λ x. Some (line_text x.0) };

    fn fmt<W: fmt::Write>(&self, f: &mut fmt::Formatter<W>) -> fmt::Result {
        match self.0 {
            Line::True => write!(f, "T"),
            Line::End => write!(f, "E"),
            Line::Not(i) => write!(f, "N {i}"),
            Line::Both(i, j) => write!(f, "A {i} {j}"),
            Line::Step(action, i) => {
                let action = ActionName(action);
                write!(f, "D {action} {i}")
            }
            Line::Unknown(_) => write!(f, "?"),
        }
    }
}

pub fn push_lines(out: &mut String, lines: &[Line]) -> Result<(), AllocError>
    ensures { OnOk result (string_bytes out.new ≡ string_bytes out.old ++ lines_text lines.now) }
{
    for (k, line) in lines.iter().enumerate() {
        let line = LineName(*line);
        write!(out, "{k}: {line}\n")?;
    }
    Ok(())
}
