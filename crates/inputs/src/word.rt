// A word that names a procedure.
ghost use Rattle.std.specs.Prelude.{◌≡◌};
ghost use Rattle.inputs.specs.Words.{Names, input_of, word_of};

use crate::input::Input;
use std::str::from_utf8;

#[derive(Clone, Copy)]
pub enum Word<'a> {
    // The text of a term.
    Term(&'a [u8]),
    // A table file, by its path.
    File(&'a str),
}

impl<'a> Word<'a> {
    // '@' stands before a path, anything else is the text of a term. A path that is no UTF-8 names no file.
    pub fn new(text: &'a [u8]) -> Option<Word<'a>>
        ensures { Names text.now result }
    {
        match text {
            [b'@', path @ ..] => from_utf8(path).ok().map(Word::File),
            _ => Some(Word::Term(text)),
        }
    }
}

// What a word names; of a file also the bytes.
#[derive(Clone, Copy)]
pub enum Given<'a> {
    // The text of a term.
    Term(&'a [u8]),
    // A table file, by its path.
    File { path: &'a str, bytes: &'a [u8] },
}

impl<'a> Given<'a> {
    pub fn input(self) -> Input<'a>
        ensures { result ≡ input_of self.entry }
    {
        match self {
            Given::Term(text) => Input::Term(text),
            Given::File { bytes, .. } => Input::Table(bytes),
        }
    }

    pub fn word(self) -> Word<'a>
        ensures { result ≡ word_of self.entry }
    {
        match self {
            Given::Term(text) => Word::Term(text),
            Given::File { path, .. } => Word::File(path),
        }
    }
}
