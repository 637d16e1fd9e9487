// The shelf as a customer's program uses it.

#![tactic(auto)]

use comparison::Report;
use formulas::Line;
use lts::Source;
use shelves::{Shelf, ShelfFault};

#[cfg(test)]
mod tests;

// Submits a source, and releases it at once where it is the same.
pub fn update<const N: usize, S: Source<N>>(
    shelf: &mut Shelf,
    slot: usize,
    source: &S,
    lines: &mut [Line],
    classes: &mut [u16],
) -> Result<Report, ShelfFault> {
    let report = shelf.submit(slot, source, lines, classes)?;
    let mut clearance = shelf.claim(slot)?;
    shelf.release(&mut clearance)?;
    Ok(report)
}

// Claims the pending procedure of a slot and drops it.
pub fn discard(shelf: &mut Shelf, slot: usize) -> Result<(), ShelfFault> {
    let mut clearance = shelf.claim(slot)?;
    shelf.withdraw(&mut clearance)
}
