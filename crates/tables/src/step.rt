// One step as a file draws it.

#[derive(Clone, Copy)]
pub struct Step {
    pub from: u8,
    pub action: u8,
    pub to: u8,
}
