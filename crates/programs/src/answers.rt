// Answers on standard output, with an empty line between two.
ghost use Rattle.std.specs.Prelude.{◌≡◌, true, false, is_ok, IfOk};

use std::io;
use std::io::{BufWriter, Stdout, Write};

// Says on standard error that the file of a word can't be read.
fn warn(rt: &HostRuntime, word: &[u8]) -> io::Result<()> {
    let mut err = rt.stderr();
    err.write_all(b"cannot read ")?;
    if let [_, path @ ..] = word {
        err.write_all(path)?;
    }
    err.write_all(b"\n")
}

#[derive(Drop)]
pub struct Answers {
    out: BufWriter<Stdout>,
    // Whether something was told, and whether some file was not read: each can be without the other.
    told: bool,
    missed: bool,
}

impl Answers {
    pub fn new(rt: &HostRuntime) -> io::Result<Answers>
        ensures told { IfOk result (λ a. a.told ≡ false) }
        ensures missed { IfOk result (λ a. a.missed ≡ false) }
    {
        Ok(Answers {
            out: BufWriter::new(rt.alloc(), rt.stdout())?,
            told: false,
            missed: false,
        })
    }

    // An answer behind those before.
    pub fn tell(&mut self, answer: &str) -> io::Result<()>
        ensures told { is_ok result ≡ true → self.new.told ≡ true }
        ensures missed { self.new.missed ≡ self.old.missed }
    {
        if self.told {
            self.out.write_all(b"\n")?;
        }
        self.told = true;
        self.out.write_all(answer.as_bytes())
    }

    // The file of a word, which begins with '@', can't be read.
    pub fn miss(&mut self, rt: &HostRuntime, word: &[u8])
        ensures told { self.new.told ≡ self.old.told }
        ensures missed { self.new.missed ≡ true }
    {
        self.missed = true;
        let _ = warn(rt, word);
    }

    // An error where some file was not read.
    pub fn finish(&mut self) -> io::Result<()>
        ensures { self.old.missed ≡ true → is_ok result ≡ false }
    {
        self.out.flush()?;
        if self.missed {
            return Err(io::Error::other("a file can't be read"));
        }
        Ok(())
    }
}
