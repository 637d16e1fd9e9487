// What a filled slot holds.
use lts::Procedure;

#[derive(Clone, Copy)]
pub struct Row {
    // The procedure first filed.
    pub baseline: Procedure,
    // The procedure in force.
    pub force: Procedure,
    // A procedure that was called the same as the one in force, and waits for its release.
    pub pending: Option<Procedure>,
    // The number of the latest claim, until its release or withdrawal.
    pub latest: Option<u16>,
}
