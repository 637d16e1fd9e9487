// Steps laid out flat, at any size.

// Where the steps of a state begin, and how many they are.
#[derive(Clone, Copy)]
pub struct Run {
    pub from: u16,
    pub count: u16,
}

// A plain value: the states with their end marks, and the steps of all of them in one array, each its action and target.
#[derive(Clone, Copy)]
pub struct Laid<const STATES: usize, const STEPS: usize> {
    pub states: usize,
    pub ends: [bool; STATES],
    pub runs: [Run; STATES],
    pub steps: [(u8, u8); STEPS],
}
