// One line of a formula. A line names earlier lines by their numbers.

#[derive(Clone, Copy, PartialEq, Eq, Debug)]
pub enum Line {
    // Holds everywhere.
    True,
    // Holds at ends.
    End,
    // Holds where the line does not.
    Not(u16),
    // Holds where both lines do.
    Both(u16, u16),
    // Some step by the action leads to a state where the line holds.
    Step(u8, u16),
    // A letter that no line has.
    Unknown(u8),
}
