// One node of a term's table.

#[derive(Clone, Copy)]
pub enum Node {
    // An action and its place among the actions written, from 1.
    Action(u8, u8),
    Choice(u8, u8),
    Sequence(u8, u8),
}
