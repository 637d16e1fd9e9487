// What a round goes by.
ghost use Rattle.std.specs.Prelude.{ℕ, ◌<◌, slice_index};

use crate::partition::Partition;
use lts::System;

// The round behind round k, which has these classes: each is below 256, so that the table has cells for it.
#[derive(Drop)]
pub struct Round<'a, S: System> {
    pub system: &'a S,
    pub k: usize,
    pub before: &'a Partition,
    ghost low: { (u : ℕ) → u < (S.meaning system.now).count → slice_index before.now.class u < 256 },
}
