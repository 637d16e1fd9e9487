// Which evaluations are refused, row by row.
ghost use Rattle.std.specs.Prelude.{◌≡◌};
ghost use Rattle.std.specs.Result.{result_err};
ghost use Rattle.formulas.specs.Lines.{fits};
ghost use Rattle.formulas.specs.Faults.{misfit_from, first_fault};

use crate::MOST_LINES;
use crate::fault::EvaluationFault;
use crate::line::Line;
use lts::System;

// The last action.
const LAST_ACTION: u8 = 63;

// Line k may be this one: a known letter, earlier lines, an action.
fn fits_at(k: usize, line: Line) -> bool
    ensures { result ≡ fits k line }
{
    match line {
        Line::True | Line::End => true,
        Line::Not(i) => (i as usize) < k,
        Line::Both(i, j) => (i as usize) < k && (j as usize) < k,
        Line::Step(action, i) => action <= LAST_ACTION && (i as usize) < k,
        Line::Unknown(_) => false,
    }
}

// The first line that does not fit where it stands.
fn first_misfit(lines: &[Line]) -> Option<usize>
    ensures { result ≡ misfit_from 0 lines.now }
{
    lines
        .iter()
        .enumerate()
        .position(|(k, line)| !fits_at(k, *line))
}

// Lets the evaluation of line i at state s of the source pass, or tells the first row that refuses it.
pub(crate) fn admitted<S: System>(
    source: &S,
    lines: &[Line],
    i: usize,
    s: usize,
    room: usize,
) -> Result<(), EvaluationFault>
    ensures { result_err result ≡ first_fault lines.now i s (S.meaning source.now).count room }
{
    let n = source.states();
    if lines.is_empty() || lines.len() > MOST_LINES {
        return Err(EvaluationFault::Count);
    }
    if let Some(k) = first_misfit(lines) {
        return Err(EvaluationFault::Line(k));
    }
    if i >= lines.len() || s >= n {
        return Err(EvaluationFault::Absent);
    }
    if room < lines.len() * n {
        return Err(EvaluationFault::Room);
    }
    Ok(())
}
