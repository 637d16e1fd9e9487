// What a procedure is given as.

// The bytes are the caller's.
#[derive(Clone, Copy)]
pub enum Input<'a> {
    // The text of a term.
    Term(&'a [u8]),
    // The bytes of a table file.
    Table(&'a [u8]),
}
