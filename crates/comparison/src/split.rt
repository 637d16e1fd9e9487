// How one class becomes two.

// The states of class `from` that have a step by the action into class `into` of the round before, or, where
// `side` is false, those that have none, leave for a new class.
// `side` is a `bool`, since it is what the table answers for those that leave.
#[derive(Clone, Copy)]
pub struct Split {
    pub from: u16,
    pub action: u8,
    pub into: u16,
    pub side: bool,
}
