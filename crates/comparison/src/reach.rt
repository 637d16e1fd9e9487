// The pairs of an action and a class that one state's steps reach.
ghost use Rattle.std.specs.Prelude.{◌≡◌, ℕ, ◌≤◌, length, slice_index};

mod calls;

// A pair is held where its cell has the stamp: a new stamp clears the table.
#[derive(Drop)]
pub struct Reach {
    cells: [u16; 16384],
    stamp: u16,
    ghost size: { length cells ≡ 16384 },
    ghost low: { (i : ℕ) → slice_index cells i ≤ stamp },
}
