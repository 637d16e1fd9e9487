// All rounds, up to the first that changes nothing.
ghost use Rattle.std.specs.Prelude.{◌≡◌, ◌<◌, ◌≤◌, []};
ghost use Rattle.comparison.specs.Marks.{written};
ghost use Rattle.comparison.specs.Outcomes.{Compares};

use crate::draft::Draft;
use crate::ends::by_ends;
use crate::layout::Layout;
use crate::partition::Partition;
use crate::reach::Reach;
use crate::round::Round;
use crate::script::Script;
use crate::starts::{Apart, watch};
use lts::{Flat, System};

#[derive(Clone, Copy)]
pub struct Outcome {
    pub classes: Partition,
    pub rounds: usize,
    // The first round that told the starts apart.
    pub starts: Option<Apart>,
}

// Round after round, up to the first that changes nothing.
fn refine_all<S: System + Copy>(
    system: S,
    right: usize,
    most: usize,
    here: &mut Reach,
    script: &mut Script,
) -> Outcome
    requires few { (S.meaning system).count ≤ most }
    requires inside { right < (S.meaning system).count }
    requires empty { written script.old ≡ [] }
    ensures { Compares (S.meaning system) right (written script.new) result }
{
    let mut classes = by_ends(&system, script);
    let mut draft = Draft::new();
    let mut starts = None;
    for k in 0..most {
        starts = watch(starts, &classes, k, right);
        let round = Round {
            system: &system,
            k,
            before: &classes,
        };
        let next = round.refined(&mut draft, here, script);
        if next.count == classes.count {
            return Outcome {
                classes,
                rounds: k,
                starts,
            };
        }
        classes = next;
    }
    unreachable!()
}

// The right start is state `right`; there are at most `most` states, and so fewer rounds. Where the steps
// have room in a layout, the rounds go over that.
pub fn compared<S: System + Copy>(
    system: &S,
    right: usize,
    most: usize,
    script: &mut Script,
) -> Outcome
    requires few { (S.meaning system.now).count ≤ most }
    requires inside { right < (S.meaning system.now).count }
    requires empty { written script.old ≡ [] }
    ensures { Compares (S.meaning system.now) right (written script.new) result }
{
    let mut here = Reach::new();
    let mut layout = Layout::bare(system);
    match layout.lay_all(system, &mut here) {
        Some(()) => {
            let flat = Flat { of: &layout.laid };
            refine_all(flat, right, most, &mut here, script)
        }
        None => refine_all(*system, right, most, &mut here, script),
    }
}
