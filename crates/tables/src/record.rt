// One record of a file.
ghost use Rattle.std.specs.Prelude.{◌≡◌};
ghost use Rattle.tables.specs.Kinds.{sort};
ghost use Rattle.tables.specs.Lent.{kind_of, body_of};

// Its body is a part of the caller's bytes.
#[derive(Clone, Copy)]
pub enum Record<'a> {
    Head(&'a [u8]),
    End(&'a [u8]),
    Step(&'a [u8]),
    Remark(&'a [u8]),
    // A kind that has no meaning, by its number.
    Unknown(u16, &'a [u8]),
}

impl<'a> Record<'a> {
    // The record of a kind, by the number that the file has. Elsewhere a kind is its case.
    pub(crate) fn new(kind: u16, body: &'a [u8]) -> Record<'a>
        ensures kind { kind_of result ≡ sort kind }
        ensures body { body_of result ≡ body.now }
    {
        match kind {
            1 => Record::Head(body),
            2 => Record::End(body),
            3 => Record::Step(body),
            4 => Record::Remark(body),
            _ => Record::Unknown(kind, body),
        }
    }
}
