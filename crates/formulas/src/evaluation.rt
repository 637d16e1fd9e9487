// The evaluation of a formula over a source.
ghost use Rattle.std.specs.Prelude.{◌≡◌, ◌+◌, ◌*◌, ◌<◌, ◌≤◌, length, drop, Decides};
ghost use Rattle.theory.specs.Formulas.{Holds};
ghost use Rattle.formulas.specs.Lines.{formula};
ghost use Rattle.formulas.specs.Evaluation.{Enters, RowsMarked, Ready, Evaluated};

use crate::admission::admitted;
use crate::fault::EvaluationFault;
use crate::line::Line;
use crate::marked::first_marked;
use lts::System;

// Whether some step of state s by the action leads to a state that the row marks.
fn steps_into<S: System>(source: &S, s: usize, action: u8, row: &[u8]) -> bool
    ensures { Decides result (Enters ((S.meaning source.now).steps s) action row.now) }
{
    first_marked(source, s, action, row).is_some()
}

// Whether line k holds at state s, where the lines before it are marked.
// The marks are bytes, 1 or 0, and no truth values: the working buffer comes from C as bytes.
fn holds<S: System>(source: &S, lines: &[Line], k: usize, s: usize, work: &[u8]) -> bool
    requires ready { Ready (S.meaning source.now) lines.now k work.now }
    requires state { s < (S.meaning source.now).count }
    ensures { Decides result (Holds (S.meaning source.now) s (formula lines.now k)) }
{
    let n = source.states();
    match lines[k] {
        Line::True => true,
        Line::End => source.is_end(s),
        Line::Not(i) => work[i as usize * n + s] == 0,
        Line::Both(i, j) => work[i as usize * n + s] == 1 && work[j as usize * n + s] == 1,
        Line::Step(action, i) => steps_into(source, s, action, &work[i as usize * n..]),
        Line::Unknown(_) => unreachable!(),
    }
}

// Marks line k at every state, where the lines before it are marked.
fn mark_line<S: System>(source: &S, lines: &[Line], k: usize, work: &mut [u8])
    requires { Ready (S.meaning source.now) lines.now k work.old }
    ensures marked { RowsMarked (S.meaning source.now) lines.now (k + 1) work.new }
    ensures kept { drop (length lines.now * (S.meaning source.now).count) work.new ≡ drop (length lines.now * (S.meaning source.now).count) work.old }
{
    let n = source.states();
    // By index, since each mark is read off earlier ones of the same buffer.
    for s in 0..n {
        work[k * n + s] = u8::from(holds(source, lines, k, s, work));
    }
}

// Whether the line holds at the state of the source. The working buffer then marks every line at every state.
pub fn evaluate<S: System>(
    source: &S,
    lines: &[Line],
    line: usize,
    state: usize,
    work: &mut [u8],
) -> Result<bool, EvaluationFault>
    ensures { Evaluated (S.meaning source.now) lines.now line state work.old result work.new }
{
    admitted(source, lines, line, state, work.len())?;
    // By index, since a line's number says where its marks stand.
    for k in 0..lines.len() {
        mark_line(source, lines, k, work);
    }
    Ok(work[line * source.states() + state] == 1)
}
