// What is told of two procedures that differ.
ghost use Rattle.std.specs.Prelude.{◌≡◌, ℕ, ◌*◌, ◌≤◌, List, ◌++◌, length, string_bytes, OnOk};
ghost use Rattle.theory.specs.Formulas.{Holds};
ghost use Rattle.explanations.specs.Givens.{word_difference_text, word_outcome_text};
ghost use Rattle.explanations.specs.Explanations.{Followed, Tellable};
ghost use Rattle.explanations.specs.Parts.{shown};
ghost use Rattle.explanations.specs.Ways.{Way};

use crate::formula::FormulaLine;
use crate::readable::push_readable;
use crate::way::{push_way, way};
use comparison::Verdict;
use formulas::Line;
use inputs::Word;
use listings::push_lines;
use lts::System;
use std::alloc::AllocError;

// The lines, what this line shows, its formula, and the steps that it asks for first.
fn push_difference<S: System>(
    out: &mut String,
    left: Word<'_>,
    source: &S,
    formula: FormulaLine<'_>,
    depth: u16,
) -> Result<(), AllocError>
    requires few { length formula.lines.now ≤ 1024 }
    requires room { length formula.lines.now * (S.meaning source.now).count ≤ 130688 }
    requires holds { Holds (S.meaning source.now) 0 (shown formula) }
    ensures { OnOk result (((steps : List (ℕ × ℕ)) × Way (S.meaning source.now) 0 (shown formula.entry) steps × (string_bytes out.new ≡ string_bytes out.old ++ word_difference_text left.entry formula.entry.lines.now formula.entry.line depth steps))) }
{
    push_lines(out, formula.lines)?;
    let line = formula.line;
    write!(
        out,
        "line {line} holds at the left start and fails at the right one, depth {depth}\n"
    )?;
    push_readable(out, formula)?;
    let heap = *out.allocator();
    let steps = way(heap, source, formula)?;
    push_way(out, left, steps.as_slice())
}

// What is told behind the summary: nothing of procedures that are the same.
pub fn push_outcome<S: System>(
    out: &mut String,
    left: Word<'_>,
    source: &S,
    verdict: Verdict,
    lines: &[Line],
) -> Result<(), AllocError>
    requires { Tellable (S.meaning source.now) verdict lines.now }
    ensures { OnOk result (((steps : List (ℕ × ℕ)) × Followed (S.meaning source.now) verdict lines.now steps × (string_bytes out.new ≡ string_bytes out.old ++ word_outcome_text left.entry verdict lines.now steps))) }
{
    match verdict {
        Verdict::Same => Ok(()),
        Verdict::Different {
            lines: count,
            line,
            depth,
        } => {
            let formula = FormulaLine::new(&lines[0..count as usize], line);
            push_difference(out, left, source, formula, depth)
        }
    }
}
