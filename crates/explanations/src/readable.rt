// A formula in one line.
ghost use Rattle.std.specs.Prelude.{◌≡◌, ◌≤◌, ◌++◌, length, string_bytes, OnOk};
ghost use Rattle.drawings.specs.Texts.{action_text};
ghost use Rattle.explanations.specs.Formulas.{formula_text, room_behind, readable_text};
ghost use Rattle.explanations.specs.Parts.{shown};

use crate::formula::{FormulaLine, Parts};
use drawings::ActionName;
use std::alloc::AllocError;
use terms::letter::letter;

// The most bytes of a formula in one line.
const MOST_BYTES: usize = 400;

// How many bytes the name of an action has.
fn name_length(action: u8) -> usize
    requires { action ≤ 63 }
    ensures length { result ≡ length (action_text action) }
    ensures short { result ≤ 3 }
{
    match letter(action) {
        Some(_) => 1,
        None => 3,
    }
}

// The room that the text of a formula leaves, if it fits. Each call takes a byte at least, so there are no more calls
// than bytes of room.
fn room_behind(formula: FormulaLine<'_>, room: usize) -> Option<usize>
    ensures { result ≡ room_behind room (formula_text (shown formula.entry)) }
{
    match formula.parts() {
        Parts::True => room.checked_sub(1),
        Parts::End => room.checked_sub(1),
        Parts::Not(f) => {
            let room = room.checked_sub(1)?;
            room_behind(f, room)
        }
        Parts::Both(f, g) => {
            let room = room.checked_sub(5)?;
            let behind = room_behind(f, room)?;
            room_behind(g, behind)
        }
        Parts::Step(action, f) => {
            let room = room.checked_sub(2 + name_length(action))?;
            room_behind(f, room)
        }
    }
}

fn push_formula(out: &mut String, formula: FormulaLine<'_>) -> Result<(), AllocError>
    ensures { OnOk result (string_bytes out.new ≡ string_bytes out.old ++ formula_text (shown formula.entry)) }
{
    match formula.parts() {
        Parts::True => out.push_str("T"),
        Parts::End => out.push_str("E"),
        Parts::Not(f) => {
            out.push_str("!")?;
            push_formula(out, f)
        }
        Parts::Both(f, g) => {
            out.push_str("(")?;
            push_formula(out, f)?;
            out.push_str(" & ")?;
            push_formula(out, g)?;
            out.push_str(")")
        }
        Parts::Step(action, f) => {
            let action = ActionName(action);
            write!(out, "<{action}>")?;
            push_formula(out, f)
        }
    }
}

// The formula, or a line that says that it is too long.
pub fn push_readable(out: &mut String, formula: FormulaLine<'_>) -> Result<(), AllocError>
    ensures { OnOk result (string_bytes out.new ≡ string_bytes out.old ++ readable_text (shown formula.entry)) }
{
    match room_behind(formula, MOST_BYTES) {
        Some(_) => push_formula(out, formula)?,
        None => out.push_str("the formula is too long to print in one line")?,
    }
    out.push_str("\n")
}
