// A shelf with a number and eight slots.
ghost use Rattle.std.specs.Prelude.{◌≡◌, length};
ghost use Rattle.shelves.specs.Standing.{AllKept, Reached};

use crate::slots::Slots;

mod calls;

#[derive(Drop)]
pub struct Shelf {
    number: u16,
    slots: Slots,
    claims: u16,
    ghost room: { length slots.rows ≡ 8 },
    ghost kept: { ∥ AllKept slots.rows ∥₁ },
    ghost reached: { ∥ Reached number slots.rows claims ∥₁ },
}
