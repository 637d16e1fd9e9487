// The copy of a source that a slot keeps.
ghost use Rattle.std.specs.Prelude.{◌≡◌, ◌+◌, ◌<◌, ◌≤◌, length};
ghost use Rattle.lts.specs.Copying.{before, total, Copied};
ghost use Rattle.lts.specs.Filling.{Filled};

use crate::laid::Run;
use crate::procedure::Procedure;
use crate::source::Source;
use crate::steps::Steps;
use crate::system::System;

// The number of steps that a source lists in all. A sum by a chain would need a clause on its closure.
fn step_total<S: System>(source: &S) -> usize
    ensures { result ≡ total (S.meaning source.now) }
{
    let mut all = 0;
    for s in 0..source.states() {
        all += source.step_count(s);
    }
    all
}

// The states and ends of a source, with no steps.
fn bare<const N: usize, S: Source<N>>(source: &S) -> Procedure
    ensures { Filled (S.meaning source.now) 0 0 result }
{
    let states = source.states();
    let mut ends = [false; 128];
    // By index: no state is asked that the source doesn't have.
    for s in 0..states {
        ends[s] = source.is_end(s);
    }
    Procedure {
        states,
        ends,
        runs: [Run { from: 0, count: 0 }; 128],
        steps: [(0, 0); 512],
    }
}

// Puts the steps of state s behind those of the states below it, and answers where the next state's begin.
fn copy_steps<const N: usize, S: Source<N>>(
    source: &S,
    s: usize,
    from: usize,
    to: &mut Procedure,
) -> usize
    requires state { s < (S.meaning source.now).count }
    requires room { from + length ((S.meaning source.now).steps s) ≤ 512 }
    requires behind { from ≡ before (S.meaning source.now) s }
    requires filled { Filled (S.meaning source.now) s 0 to.old }
    ensures behind { result ≡ before (S.meaning source.now) (s + 1) }
    ensures filled { Filled (S.meaning source.now) (s + 1) 0 to.new }
{
    let mut end = from;
    for step in Steps::of(source, s) {
        to.steps[end] = step;
        end += 1;
    }
    to.runs[s] = Run {
        from: from as u16,
        count: (end - from) as u16,
    };
    end
}

// A procedure with the meaning of the source, unless it lists more than 512 steps. It stays a call of its own: a function clears the
// room of its locals, and so would the caller.
#[inline(never)]
pub fn copied<const N: usize, S: Source<N>>(source: &S) -> Option<Procedure>
    ensures { Copied (S.meaning source.now) result }
{
    if step_total(source) > 512 {
        return None;
    }
    let mut copy = bare(source);
    let mut used = 0;
    for s in 0..source.states() {
        used = copy_steps(source, s, used, &mut copy);
    }
    Some(copy)
}
