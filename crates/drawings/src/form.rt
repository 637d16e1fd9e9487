// How a procedure is written out. The set is closed, and a word of the command line picks one, so each piece matches on it.

#[derive(Clone, Copy)]
pub enum Form {
    // A line for each state.
    Table,
    // A Graphviz digraph.
    Dot,
    // The Aldebaran form of LTS tools.
    Aut,
}
