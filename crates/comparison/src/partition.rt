// The classes of one round. Arrays with a count: the core allocates nothing.

#[derive(Clone, Copy)]
pub struct Partition {
    // The class of each state.
    pub class: [u16; 256],
    // For each class, the number of a line that holds just there.
    pub marks: [u16; 256],
    // How many classes there are.
    pub count: usize,
}
