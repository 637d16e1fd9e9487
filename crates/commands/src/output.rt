// The output of a line: at most 32 bytes.
ghost use Rattle.std.specs.Prelude.{◌≡◌, ◌≤◌, length};

mod writing;

// What is written past 32 bytes is cut off. An array with a count: the core allocates nothing.
#[derive(Clone, Copy)]
pub struct Output {
    bytes: [u8; 32],
    used: u8,
    ghost room: { length bytes ≡ 32 },
    ghost fits: { used ≤ 32 },
}
