// The calls on the shelf that a line makes.
ghost use Rattle.std.specs.Prelude.{ℕ, ◌≤◌, List, length};
ghost use Rattle.commands.specs.Form as form;
ghost use Rattle.commands.specs.Texts.{outcome_text};
ghost use Rattle.commands.specs.declared.verb.Verb.TheVariants.{File, Submit, Release, Withdraw};
ghost use Rattle.shelves.specs.Moves.{account_of};
ghost use Rattle.console.specs.Answers.{Did};
ghost use Rattle.console.specs.States.{state};

use commands::{ConsoleFault, Outcome};
use comparison::{MOST_CLASSES, MOST_LINES, Verdict};
use formulas::Line;
use lts::{ActionMap, Mapped};
use shelves::{Shelf, ShelfFault};
use terms::Term;

// Files the term of a text, as the map has it.
pub(crate) fn file(
    shelf: &mut Shelf,
    map: &ActionMap,
    slot: u8,
    text: &[u8],
) -> Result<Outcome, ConsoleFault>
    ensures did { Did (state (account_of shelf.old) map.now.entries) (form.file slot text.now) File slot result (account_of shelf.new) }
    ensures short { length (outcome_text result) ≤ 18 }
{
    let term = Term::read(text)?;
    shelf.file(slot as usize, &Mapped { map, source: &term })?;
    Ok(Outcome::Accepted)
}

// Submits the term of a text, as the map has it.
pub(crate) fn submit(
    shelf: &mut Shelf,
    map: &ActionMap,
    slot: u8,
    text: &[u8],
) -> Result<Outcome, ConsoleFault>
    ensures did { Did (state (account_of shelf.old) map.now.entries) (form.submit slot text.now) Submit slot result (account_of shelf.new) }
    ensures short { length (outcome_text result) ≤ 18 }
{
    let term = Term::read(text)?;
    let mut lines = [Line::True; MOST_LINES];
    let mut classes = [0; MOST_CLASSES];
    let source = Mapped { map, source: &term };
    match shelf.submit(slot as usize, &source, &mut lines, &mut classes) {
        Ok(report) => Ok(Outcome::Same {
            classes: report.classes,
            rounds: report.rounds,
        }),
        Err(ShelfFault::Different(report)) => match report.verdict {
            Verdict::Different { depth, .. } => Ok(Outcome::Different { depth }),
            Verdict::Same => unreachable!(),
        },
        Err(refused) => Err(ConsoleFault::Shelf(refused)),
    }
}

// `release` and `withdraw` differ in one call. A function over that call would have to say what the call does to a shelf,
// which is longer than their two contracts.

// Claims the pending procedure of a slot and releases it.
pub(crate) fn release(shelf: &mut Shelf, slot: u8) -> Result<Outcome, ConsoleFault>
    ensures did { (entries : List ℕ) → Did (state (account_of shelf.old) entries) (form.release slot) Release slot result (account_of shelf.new) }
    ensures short { length (outcome_text result) ≤ 18 }
{
    let mut clearance = shelf.claim(slot as usize)?;
    shelf.release(&mut clearance)?;
    Ok(Outcome::Accepted)
}

// Claims the pending procedure of a slot and withdraws it.
pub(crate) fn withdraw(shelf: &mut Shelf, slot: u8) -> Result<Outcome, ConsoleFault>
    ensures did { (entries : List ℕ) → Did (state (account_of shelf.old) entries) (form.withdraw slot) Withdraw slot result (account_of shelf.new) }
    ensures short { length (outcome_text result) ≤ 18 }
{
    let mut clearance = shelf.claim(slot as usize)?;
    shelf.withdraw(&mut clearance)?;
    Ok(Outcome::Accepted)
}
