// A list of calls run on a new shelf.
ghost use Rattle.std.specs.Prelude.{◌≡◌, min, map};
ghost use Rattle.accounts.specs.Calls.{claim, submit};
ghost use Rattle.shelves.specs.Moves.{account_of};
ghost use Rattle.shelves.specs.Runs.{call_of, fault_outcome, depth_of, Performed, Ran};

use crate::call::{Answer, Outcome, ShelfCall};
use crate::clearance::Clearance;
use crate::fault::ShelfFault;
use crate::shelf::Shelf;
use comparison::{MOST_CLASSES, MOST_LINES, Verdict};
use formulas::Line;
use lts::Source;
use refusals::Refusal;

// How many steps the formula of a verdict nests.
fn depth(verdict: Verdict) -> u16
    ensures { result ≡ depth_of verdict }
{
    match verdict {
        Verdict::Same => 0,
        Verdict::Different { depth, .. } => depth,
    }
}

// What a submission answered that is not the same.
fn unlike(fault: ShelfFault) -> Answer
    ensures { result ≡ fault_outcome fault }
{
    match fault {
        ShelfFault::Different(report) => Ok(Outcome::Different {
            depth: depth(report.verdict),
        }),
        other => Err(Refusal::from(other)),
    }
}

impl Shelf {
    // A submission with so many places.
    fn submit_within<const N: usize, S: Source<N>>(
        &mut self,
        slot: usize,
        source: &S,
        lines: usize,
        classes: usize,
    ) -> Answer
        ensures { Performed (account_of self.old) (submit slot (S.meaning source.now) (min lines 1021) (min classes 256)) result (account_of self.new) }
    {
        let mut line_places = [Line::True; MOST_LINES];
        let mut class_places = [0; MOST_CLASSES];
        let lines = &mut line_places[0..lines.min(MOST_LINES)];
        let classes = &mut class_places[0..classes.min(MOST_CLASSES)];
        match self.submit(slot, source, lines, classes) {
            Ok(_) => Ok(Outcome::Same),
            Err(fault) => unlike(fault),
        }
    }

    fn claim_numbers(&mut self, slot: usize) -> Answer
        ensures { Performed (account_of self.old) (claim slot) result (account_of self.new) }
    {
        let clearance = self.claim(slot)?;
        Ok(Outcome::Cleared {
            clearance: clearance.numbers(),
        })
    }

    // One call of a list.
    fn perform<const N: usize, S: Source<N>>(&mut self, call: &ShelfCall<S>) -> Answer
        ensures { Performed (account_of self.old) (call_of S.System.meaning call.now) result (account_of self.new) }
    {
        match call {
            ShelfCall::File { slot, source } => {
                self.file(*slot, source)?;
                Ok(Outcome::Accepted)
            }
            ShelfCall::Submit {
                slot,
                source,
                lines,
                classes,
            } => self.submit_within(*slot, source, *lines, *classes),
            ShelfCall::Claim { slot } => self.claim_numbers(*slot),
            ShelfCall::Release { clearance } => {
                self.release(&mut Clearance::with(*clearance))?;
                Ok(Outcome::Accepted)
            }
            ShelfCall::Withdraw { clearance } => {
                self.withdraw(&mut Clearance::with(*clearance))?;
                Ok(Outcome::Accepted)
            }
        }
    }
}

// Runs the calls in their order on a new shelf with this number, and leaves the answer of each in its place; nothing where there
// are fewer places than calls.
pub fn run<const N: usize, S: Source<N>>(
    number: u16,
    calls: &[ShelfCall<S>],
    answers: &mut [Answer],
) -> Option<Shelf>
    ensures { Ran number (map (call_of S.System.meaning) calls.now) answers.old result answers.new }
{
    if answers.len() < calls.len() {
        return None;
    }
    let mut shelf = Shelf::new(number);
    // By index: no proof knows afterwards what is written through `iter_mut` beside the calls.
    for (k, call) in calls.iter().enumerate() {
        answers[k] = shelf.perform(call);
    }
    Some(shelf)
}
