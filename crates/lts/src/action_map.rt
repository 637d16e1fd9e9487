// What each action is replaced by.
ghost use Rattle.std.specs.Prelude.{ℕ, ◌<◌, ◌≤◌, slice_index};

pub mod calls;

#[derive(Clone, Copy)]
pub struct ActionMap {
    entries: [u8; 64],
    ghost actions: { (i : ℕ) → i < 64 → slice_index entries i ≤ 63 },
}
