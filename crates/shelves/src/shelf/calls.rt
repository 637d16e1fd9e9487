// The calls on a shelf.
ghost use Rattle.std.specs.Prelude.{◌≡◌, false, length, IfOk};
ghost use Rattle.accounts.specs.Account.{new};
ghost use Rattle.accounts.specs.Calls.{file, submit, claim};
ghost use Rattle.lts.specs.Layout.{Sound, stored};
ghost use Rattle.shelves.specs.Moves.{account_of, Moved, answer, claim_answer, submit_answer, Filing, Admitted, Weighing, Submitted, Placed, Found, Claiming, Cleared, Settles, Spent, release_by, withdraw_by, used_up};

use crate::call::Numbers;
use crate::clearance::Clearance;
use crate::fault::ShelfFault;
use crate::row::Row;
use crate::shelf::Shelf;
use crate::slots::Slots;
use comparison::{Report, Verdict, compare};
use formulas::Line;
use lts::{Procedure, Source, Stored, copied};

// Compares a procedure with a source.
fn weigh<const N: usize, S: Source<N>>(
    force: &Procedure,
    source: &S,
    lines: &mut [Line],
    classes: &mut [u16],
) -> Result<Report, ShelfFault>
    requires { Sound force.now }
    ensures { Weighing (stored force.now) (S.meaning source.now) lines.old classes.old result lines.new classes.new }
{
    let view = Stored { of: force };
    Ok(compare(&view, source, lines, classes)?)
}

impl Shelf {
    // A shelf with empty slots and no claim.
    pub fn new(number: u16) -> Shelf
        ensures { account_of result ≡ new number }
    {
        Shelf {
            number,
            slots: Slots { rows: [None; 8] },
            claims: 0,
        }
    }

    // What is in a slot.
    fn place(&self, slot: usize) -> Result<Option<Row>, ShelfFault>
        ensures { Placed self.now.slots.rows slot result }
    {
        self.slots.rows.get(slot).copied().ok_or(ShelfFault::Slot)
    }

    // The row of a slot that is taken.
    fn taken(&self, slot: usize) -> Result<Row, ShelfFault>
        ensures { Found (account_of self.now) self.now.slots.rows slot result }
    {
        self.place(slot)?.ok_or(ShelfFault::Empty)
    }

    // The row that filing a source makes, or why it can't be filed.
    fn filing<const N: usize, S: Source<N>>(
        &self,
        slot: usize,
        source: &S,
    ) -> Result<Row, ShelfFault>
        ensures { Filing (account_of self.now) slot (S.meaning source.now) result }
    {
        if self.place(slot)?.is_some() {
            return Err(ShelfFault::Taken);
        }
        let procedure = copied(source).ok_or(ShelfFault::Steps)?;
        Ok(Row {
            baseline: procedure,
            force: procedure,
            pending: None,
            latest: None,
        })
    }

    // Copies a source into an empty slot, as its baseline and in force.
    pub fn file<const N: usize, S: Source<N>>(
        &mut self,
        slot: usize,
        source: &S,
    ) -> Result<(), ShelfFault>
        ensures { Moved (account_of self.old) (file slot (S.meaning source.now)) (answer result) (account_of self.new) }
    {
        let row = self.filing(slot, source)?;
        self.slots.put(slot, row);
        Ok(())
    }

    // The row of an open slot and a copy of the source, or why they can't be compared.
    fn admitted<const N: usize, S: Source<N>>(
        &self,
        slot: usize,
        source: &S,
    ) -> Result<(Row, Procedure), ShelfFault>
        ensures { Admitted (account_of self.now) self.now.slots.rows slot (S.meaning source.now) result }
    {
        let row = self.taken(slot)?;
        if row.pending.is_some() {
            return Err(ShelfFault::Pending);
        }
        let procedure = copied(source).ok_or(ShelfFault::Steps)?;
        Ok((row, procedure))
    }

    // Compares the procedure in force with a source; where they are the same, the source is pending.
    pub fn submit<const N: usize, S: Source<N>>(
        &mut self,
        slot: usize,
        source: &S,
        lines: &mut [Line],
        classes: &mut [u16],
    ) -> Result<Report, ShelfFault>
        ensures moved { Moved (account_of self.old) (submit slot (S.meaning source.now) (length lines.old) (length classes.old)) (submit_answer result lines.new) (account_of self.new) }
        ensures submitted { Submitted (account_of self.old) slot (S.meaning source.now) lines.old classes.old result lines.new classes.new }
    {
        let (row, procedure) = self.admitted(slot, source)?;
        let report = weigh(&row.force, source, lines, classes)?;
        match report.verdict {
            Verdict::Different { .. } => Err(ShelfFault::Different(report)),
            Verdict::Same => {
                let submitted = Row {
                    pending: Some(procedure),
                    ..row
                };
                self.slots.put(slot, submitted);
                Ok(report)
            }
        }
    }

    // The row that a claim makes, or why there is nothing to claim.
    fn claiming(&self, slot: usize) -> Result<Row, ShelfFault>
        ensures { Claiming (account_of self.now) self.now.slots.rows slot result }
    {
        let row = self.taken(slot)?;
        if row.pending.is_none() {
            return Err(ShelfFault::Nothing);
        }
        let claim = self.claims.checked_add(1).ok_or(ShelfFault::Claims)?;
        Ok(Row {
            latest: Some(claim),
            ..row
        })
    }

    // Hands out a clearance for the pending procedure.
    pub fn claim(&mut self, slot: usize) -> Result<Clearance, ShelfFault>
        ensures moved { Moved (account_of self.old) (claim slot) (claim_answer result) (account_of self.new) }
        ensures unspent { IfOk result (λ c. c.spent ≡ false) }
    {
        let row = self.claiming(slot)?;
        self.claims += 1;
        self.slots.put(slot, row);
        Ok(Clearance::with(Numbers {
            shelf: self.number,
            slot: slot as u8,
            claim: self.claims,
        }))
    }

    // The row that a clearance is for, and its pending procedure; nothing where the clearance isn't the slot's latest.
    fn cleared(&self, clearance: &Clearance) -> Option<(Row, Procedure)>
        ensures { Cleared self.now clearance.now result }
    {
        let Numbers { shelf, slot, claim } = clearance.numbers;
        if shelf != self.number {
            return None;
        }
        let row = self.taken(usize::from(slot)).ok()?;
        let latest = row.latest?;
        let procedure = row.pending?;
        if latest != claim {
            return None;
        }
        Some((row, procedure))
    }

    // Spends a clearance. Its row is made anew, without what was pending and its claim.
    fn spend<F: FnOnce(Row, Procedure) -> Row>(
        &mut self,
        clearance: &mut Clearance,
        settle: F,
    ) -> Result<(), ShelfFault>
        requires callable { F.IsAlwaysCallable settle }
        requires settles { Settles (F.post settle) }
        ensures moved { Spent (F.post settle) self.old clearance.old result self.new }
        ensures spent { clearance.new ≡ used_up clearance.old }
    {
        clearance.spent = true;
        let (row, procedure) = self.cleared(clearance).ok_or(ShelfFault::Clearance)?;
        let settled = Row {
            pending: None,
            latest: None,
            ..settle(row, procedure)
        };
        self.slots.put(usize::from(clearance.numbers.slot), settled);
        Ok(())
    }

    // Moves the pending procedure of a clearance into force.
    pub fn release(&mut self, clearance: &mut Clearance) -> Result<(), ShelfFault>
        requires { clearance.old.spent ≡ false }
        ensures moved { Moved (account_of self.old) (release_by clearance.old) (answer result) (account_of self.new) }
        ensures spent { clearance.new ≡ used_up clearance.old }
    {
        self.spend(
            clearance,
            |row, procedure| Row {
                force: procedure,
                ..row
            },
        )
    }

    // Drops the pending procedure of a clearance.
    pub fn withdraw(&mut self, clearance: &mut Clearance) -> Result<(), ShelfFault>
        requires { clearance.old.spent ≡ false }
        ensures moved { Moved (account_of self.old) (withdraw_by clearance.old) (answer result) (account_of self.new) }
        ensures spent { clearance.new ≡ used_up clearance.old }
    {
        self.spend(clearance, |row, _| row)
    }
}
