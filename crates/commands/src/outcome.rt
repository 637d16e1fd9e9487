// How a command that was carried out came out. A list of calls has another: it hands out clearances, and tells no classes and rounds.

#[derive(Clone, Copy)]
pub enum Outcome {
    // A filing, a release or a withdrawal.
    Accepted,
    // A submission that is the same: so many classes and rounds.
    Same { classes: u16, rounds: u16 },
    // A submission that differs: the depth of the formula.
    Different { depth: u16 },
}
