// The comparison of two procedures.
ghost use Rattle.comparison.specs.Compared.{Compared};

use crate::buffers::{judged, put_front};
use crate::fault::CompareFault;
use crate::outcome::compared;
use crate::report::Report;
use crate::script::Script;
use formulas::Line;
use lts::{Pair, Source, System};

// Both procedures side by side.
fn compare_pair<'a, 'b, const M: usize, const N: usize, L: Source<M>, R: Source<N>>(
    system: &Pair<'a, 'b, L, R, M, N>,
    lines: &mut [Line],
    classes: &mut [u16],
) -> Result<Report, CompareFault>
    ensures { Compared (L.System.meaning system.now.left.now) (R.System.meaning system.now.right.now) lines.old classes.old result lines.new classes.new }
{
    let n = system.states();
    if lines.len() < 4 * n - 3 || classes.len() < n {
        return Err(CompareFault::Room);
    }
    let mut script = Script::new();
    let start = system.left.states();
    let most = L::MOST.states + R::MOST.states;
    let found = compared(system, start, most, &mut script);
    put_front(&found.classes.class, n, classes);
    let verdict = judged(found.starts, &script, lines);
    Ok(Report {
        verdict,
        classes: found.classes.count as u16,
        rounds: found.rounds as u16,
    })
}

// Two buffers and no struct of both: each is the caller's own, and is named in the promise by itself.
// The joined states are the left source's, then the right's. The class of each is left in `classes`; where the
// starts differ, lines that tell them apart are left in `lines`.
pub fn compare<const M: usize, const N: usize, L: Source<M>, R: Source<N>>(
    left: &L,
    right: &R,
    lines: &mut [Line],
    classes: &mut [u16],
) -> Result<Report, CompareFault>
    ensures { Compared (L.System.meaning left.now) (R.System.meaning right.now) lines.old classes.old result lines.new classes.new }
{
    compare_pair(&Pair::new(left, right), lines, classes)
}
