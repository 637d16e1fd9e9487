// The lines that a comparison writes for itself.
ghost use Rattle.std.specs.Prelude.{◌≡◌, ◌≤◌, length};

use formulas::Line;

mod calls;

// An array with a count: the core allocates nothing.
#[derive(Drop)]
pub struct Script {
    pub lines: [Line; 1024],
    pub used: usize,
    ghost size: { length lines ≡ 1024 },
    ghost room: { used ≤ 1024 },
}
