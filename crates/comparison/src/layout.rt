// Both procedures laid out flat, each step once, so that the rounds ask their sources no more.
ghost use Rattle.std.specs.Prelude.{◌≡◌, ◌+◌, ◌<◌, ◌≤◌, length, IfSome};
ghost use Rattle.comparison.specs.Layouts.{pushed, LaidOut};

use crate::reach::Reach;
use lts::{Laid, Run, Steps, System};

const PLACES: usize = 2048;

// What is laid out so far, each state's steps behind those of the states below it, in an array with their number: the core allocates
// nothing.
#[derive(Drop)]
pub struct Layout {
    pub laid: Laid<256, 2048>,
    // How many places hold a step.
    pub used: usize,
}

impl Layout {
    // So many states, none laid out yet.
    pub fn bare<S: System>(system: &S) -> Layout
        ensures { LaidOut (S.meaning system.now) 0 result }
    {
        Layout {
            laid: Laid {
                states: system.states(),
                ends: [false; 256],
                runs: [Run { from: 0, count: 0 }; 256],
                steps: [(0, 0); 2048],
            },
            used: 0,
        }
    }

    // One step more, where there is room.
    fn push(&mut self, action: u8, target: u8) -> Option<()>
        requires size { length self.old.laid.steps ≡ 2048 }
        requires room { self.old.used ≤ 2048 }
        ensures room { IfSome result (λ _. self.old.used < 2048) }
        ensures pushed { IfSome result (λ _. self.new ≡ pushed self.old (action, target)) }
    {
        // An `if` in place of `get_mut`, behind which no proof knows what the steps become.
        if self.used == PLACES {
            return None;
        }
        self.laid.steps[self.used] = (action, target);
        self.used += 1;
        Some(())
    }

    // Lays out state s behind the states below it, where there is room.
    fn lay<S: System>(&mut self, system: &S, s: usize, seen: &mut Reach) -> Option<()>
        requires state { s < (S.meaning system.now).count }
        requires laid { LaidOut (S.meaning system.now) s self.old }
        ensures { IfSome result (λ _. LaidOut (S.meaning system.now) (s + 1) self.new) }
    {
        let from = self.used;
        seen.clear();
        for (action, target) in Steps::of(system, s) {
            if seen.put(action, target as u16) {
                self.push(action, target)?;
            }
        }
        self.laid.ends[s] = system.is_end(s);
        self.laid.runs[s] = Run {
            from: from as u16,
            count: (self.used - from) as u16,
        };
        Some(())
    }

    // Lays out all states, where there is room.
    pub fn lay_all<S: System>(&mut self, system: &S, seen: &mut Reach) -> Option<()>
        requires { LaidOut (S.meaning system.now) 0 self.old }
        ensures { IfSome result (λ _. LaidOut (S.meaning system.now) (S.meaning system.now).count self.new) }
    {
        for s in 0..system.states() {
            self.lay(system, s, seen)?;
        }
        Some(())
    }
}
