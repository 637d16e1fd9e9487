// A file read record by record.
ghost use Rattle.std.specs.Prelude.{◌≡◌, ◌≤◌, length};

mod calls;

#[derive(Drop)]
pub struct Records<'a> {
    bytes: &'a [u8],
    // Where the record last read begins, and where the next one does.
    offset: usize,
    next: usize,
    ghost inside: { next ≤ length bytes.now },
}

impl Records<'_> {
    // The offset of the length of the record last read; 0 before the first.
    pub fn offset(&self) -> usize
        ensures { result ≡ self.now.offset }
    {
        self.offset
    }
}
