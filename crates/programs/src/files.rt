// The files that words name.
ghost use Rattle.std.specs.Prelude.{◌≡◌, IfSome};
ghost use Rattle.inputs.specs.Words.{word_of};
ghost use Rattle.programs.specs.Files.{Brought, fetched_word, fetched_file, file_of};

use inputs::{Given, Word};
use std::io::Read;
use std::{fs, io};

// One byte more than a table file may have, so that a longer one is seen to be too long.
const ENOUGH: u64 = 16385;

// What a word names, held until it is given.
#[derive(Drop)]
pub enum Fetched<'a> {
    // The text of a term.
    Term(&'a [u8]),
    // A table file, by its path.
    File { path: &'a str, bytes: Vec<u8> },
}

impl<'a> Fetched<'a> {
    pub fn given(&self) -> Given<'_>
        ensures word { word_of result ≡ fetched_word self.now }
        ensures file { file_of result ≡ fetched_file self.now }
    {
        match self {
            Fetched::Term(text) => Given::Term(text),
            Fetched::File { path, bytes } => Given::File {
                path,
                bytes: bytes.as_slice(),
            },
        }
    }
}

// The bytes of a file, as many as tell whether it is a table.
fn read_file(rt: &HostRuntime, path: &str) -> io::Result<Vec<u8>> {
    let mut bytes = Vec::new(rt.alloc());
    fs::open(rt, path)?.take(ENOUGH).read_to_end(&mut bytes)?;
    Ok(bytes)
}

// What a word names, or nothing where its file can't be read.
pub fn fetch<'a>(rt: &HostRuntime, text: &'a [u8]) -> Option<Fetched<'a>>
    ensures { IfSome result (Brought text.now) }
{
    match Word::new(text)? {
        Word::Term(text) => Some(Fetched::Term(text)),
        Word::File(path) => {
            let bytes = read_file(rt, path).ok()?;
            Some(Fetched::File { path, bytes })
        }
    }
}
