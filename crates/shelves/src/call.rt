// A call on a shelf as an entry of a list, and what it answered.
use refusals::Refusal;

// The numbers of a clearance. The k-th clearance that a shelf hands out has claim number k.
#[derive(Clone, Copy, PartialEq, Eq, Debug)]
pub struct Numbers {
    pub shelf: u16,
    pub slot: u8,
    pub claim: u16,
}

// A call with its arguments. A clearance is named by its numbers.
#[derive(Drop)]
pub enum ShelfCall<S> {
    File {
        slot: usize,
        source: S,
    },
    // With so many places for lines and for class numbers.
    Submit {
        slot: usize,
        source: S,
        lines: usize,
        classes: usize,
    },
    Claim {
        slot: usize,
    },
    Release {
        clearance: Numbers,
    },
    Withdraw {
        clearance: Numbers,
    },
}

// What a call led to that was not refused.
#[derive(Clone, Copy, PartialEq, Eq, Debug)]
pub enum Outcome {
    // A filing, a release or a withdrawal.
    Accepted,
    // A submission that is the same as what is in force.
    Same,
    // One that differs, and how many steps the least formula nests that shows it.
    Different { depth: u16 },
    // A claim, and the numbers of the clearance that it handed out.
    Cleared { clearance: Numbers },
}

// What a call of a list answers.
pub type Answer = Result<Outcome, Refusal>;
