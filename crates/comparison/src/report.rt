// What a comparison answers.

// The two answers by their names: where a difference were an option, its absence would not say "same".
#[derive(Clone, Copy, PartialEq, Eq, Debug)]
pub enum Verdict {
    Same,
    // So many lines were written; this one holds at the left start and fails at the right one, and nests
    // so many steps.
    Different { lines: u16, line: u16, depth: u16 },
}

#[derive(Clone, Copy, PartialEq, Eq, Debug)]
pub struct Report {
    pub verdict: Verdict,
    // How many classes the states of both procedures have.
    pub classes: u16,
    // How many rounds it takes until no class is split any more.
    pub rounds: u16,
}
