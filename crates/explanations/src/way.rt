// The steps that a formula asks for first, followed through a procedure.
ghost use Rattle.std.specs.Prelude.{◌≡◌, ◌*◌, ◌≤◌, ◌++◌, length, IfOk, string_bytes, OnOk};
ghost use Rattle.theory.specs.Formulas.{Holds};
ghost use Rattle.listings.specs.Offsets.{action_offset};
ghost use Rattle.explanations.specs.Givens.{word_way_text};
ghost use Rattle.explanations.specs.Parts.{Leads, shown};
ghost use Rattle.explanations.specs.Ways.{Marked, Way, offset_text, way_text, move_text, moves_text};

use crate::formula::{FormulaLine, Parts};
use drawings::ActionName;
use formulas::{evaluate, first_marked};
use inputs::Word;
use listings::action_offset;
use lts::System;
use std::alloc::{AllocError, Global};

// What a formula asks for first: an action, and the formula that has to hold behind it.
fn lead<'a>(formula: FormulaLine<'a>) -> Option<(u8, FormulaLine<'a>)>
    ensures { Leads formula.entry result }
{
    match formula.parts() {
        Parts::True => None,
        Parts::End => None,
        Parts::Not(_) => None,
        Parts::Both(f, g) => match lead(f) {
            Some(found) => Some(found),
            None => lead(g),
        },
        Parts::Step(action, f) => Some((action, f)),
    }
}

// The steps from the start on the way of a formula that holds there, by the marks of its lines.
fn follow<S: System>(
    heap: Global,
    source: &S,
    formula: FormulaLine<'_>,
    work: &[u8],
) -> Result<Vec<(u8, u8)>, AllocError>
    requires marked { Marked (S.meaning source.now) formula.lines.now work.now }
    requires holds { Holds (S.meaning source.now) 0 (shown formula) }
    ensures { IfOk result (λ steps. Way (S.meaning source.now) 0 (shown formula.entry) steps.items) }
{
    let n = source.states();
    let mut steps = Vec::new(heap);
    let mut s = 0;
    let mut rest = formula;
    while let Some((action, next)) = lead(rest) {
        let row = &work[next.line as usize * n..];
        let Some(target) = first_marked(source, s, action, row) else {
            unreachable!()
        };
        steps.push((action, target))?;
        s = target as usize;
        rest = next;
    }
    Ok(steps)
}

// The steps from the start on the way of a formula that holds there.
pub fn way<S: System>(
    heap: Global,
    source: &S,
    formula: FormulaLine<'_>,
) -> Result<Vec<(u8, u8)>, AllocError>
    requires few { length formula.lines.now ≤ 1024 }
    requires room { length formula.lines.now * (S.meaning source.now).count ≤ 130688 }
    requires holds { Holds (S.meaning source.now) 0 (shown formula) }
    ensures { IfOk result (λ steps. Way (S.meaning source.now) 0 (shown formula.entry) steps.items) }
{
    // The marks of all lines, up to 130,688. In a `Vec`: on the stack, equal procedures would need room for them too.
    let mut work = vec![in heap; 0; formula.lines.len() * source.states()]?;
    let Ok(_) = evaluate(
        source,
        formula.lines,
        formula.line as usize,
        0,
        work.as_mut_slice(),
    ) else {
        unreachable!()
    };
    follow(heap, source, formula, work.as_slice())
}

// Where the action of a step stands in the left text.
fn push_offset(out: &mut String, text: &[u8], action: u8, target: u8) -> Result<(), AllocError>
    ensures { OnOk result (string_bytes out.new ≡ string_bytes out.old ++ offset_text action (action_offset text.now target)) }
{
    match action_offset(text, target as usize) {
        Some(at) => {
            let action = ActionName(action);
            write!(out, "{action} at offset {at} of the left text\n")
        }
        None => Ok(()),
    }
}

// Where the actions of the steps stand in the left text.
fn push_offsets(out: &mut String, text: &[u8], steps: &[(u8, u8)]) -> Result<(), AllocError>
    ensures { OnOk result (string_bytes out.new ≡ string_bytes out.old ++ way_text text.now steps.now) }
{
    for (action, target) in steps {
        push_offset(out, text, *action, *target)?;
    }
    Ok(())
}

// A step out of state s.
fn push_move(out: &mut String, s: u8, action: u8, target: u8) -> Result<(), AllocError>
    ensures { OnOk result (string_bytes out.new ≡ string_bytes out.old ++ move_text s (action, target)) }
{
    let action = ActionName(action);
    write!(out, "{action} from state {s} to state {target}\n")
}

// The states that the steps lead through from the start.
fn push_moves(out: &mut String, steps: &[(u8, u8)]) -> Result<(), AllocError>
    ensures { OnOk result (string_bytes out.new ≡ string_bytes out.old ++ moves_text 0 steps.now) }
{
    let mut s = 0;
    for (action, target) in steps {
        push_move(out, s, *action, *target)?;
        s = *target;
    }
    Ok(())
}

// The steps of what the left word names.
pub fn push_way(out: &mut String, left: Word<'_>, steps: &[(u8, u8)]) -> Result<(), AllocError>
    ensures { OnOk result (string_bytes out.new ≡ string_bytes out.old ++ word_way_text left.entry steps.now) }
{
    match left {
        Word::Term(text) => push_offsets(out, text, steps),
        Word::File(_) => push_moves(out, steps),
    }
}
