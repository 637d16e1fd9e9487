// How an output is written.
ghost use Rattle.std.specs.Prelude.{◌≡◌, [], ◌∷◌, ◌++◌, codes, decimal};
ghost use Rattle.refusals.specs.Texts.{refusal_text};
ghost use Rattle.commands.specs.Faults.{of_console};
ghost use Rattle.commands.specs.Letters.{letter_of};
ghost use Rattle.commands.specs.Outputs.{written, Adds, Holds};
ghost use Rattle.commands.specs.Texts.{success_text, outcome_text, reply_text};

use crate::fault::ConsoleFault;
use crate::outcome::Outcome;
use crate::output::Output;
use crate::verb::Verb;
use refusals::{Fault, Refusal};

const ROOM: u8 = 32;

const BASE: usize = 10;

// `write!` may answer an error, and none of its clauses rules that out where the writer never fails, so the pieces are written
// by calls of their own.
impl Output {
    fn new() -> Output
        ensures { written result ≡ [] }
    {
        Output {
            bytes: [0; 32],
            used: 0,
        }
    }

    // What was written.
    pub fn bytes(&self) -> &[u8]
        ensures { result.now ≡ written self.now }
    {
        &self.bytes[0..self.used as usize]
    }

    fn push(&mut self, byte: u8)
        ensures { Adds self.old (byte ∷ []) self.new }
    {
        if self.used < ROOM {
            self.bytes[self.used as usize] = byte;
            self.used += 1;
        }
    }

    fn text(&mut self, text: &[u8])
        ensures { Adds self.old text.now self.new }
    {
        for byte in text {
            self.push(*byte);
        }
    }

    // A number in decimal.
    fn number(&mut self, number: usize)
        ensures { Adds self.old (decimal number) self.new }
    {
        if number < BASE {
            self.push(b'0' + number as u8);
        } else {
            self.number(number / BASE);
            self.push(b'0' + (number % BASE) as u8);
        }
    }

    // `refused 11 at 1`, or `refused 22` where the refusal has no place.
    fn refusal(&mut self, refusal: &Refusal)
        ensures { Adds self.old (refusal_text refusal.now) self.new }
    {
        self.text(b"refused ");
        self.number(refusal.number as usize);
        if let Some(place) = refusal.place {
            self.text(b" at ");
            self.number(place);
        }
    }

    // `ok`, `same 3 1`, `different 2`, or the refusal.
    fn outcome(&mut self, outcome: &Result<Outcome, ConsoleFault>)
        ensures { Adds self.old (outcome_text outcome.now) self.new }
    {
        match outcome {
            Ok(outcome) => self.success(*outcome),
            Err(fault) => self.refusal(&fault.refusal()),
        }
    }

    fn success(&mut self, outcome: Outcome)
        ensures { Adds self.old (success_text outcome) self.new }
    {
        match outcome {
            Outcome::Accepted => self.text(b"ok"),
            Outcome::Same { classes, rounds } => {
                self.text(b"same ");
                self.number(classes as usize);
                self.push(b' ');
                self.number(rounds as usize);
            }
            Outcome::Different { depth } => {
                self.text(b"different ");
                self.number(depth as usize);
            }
        }
    }

    // The whole line of a command on a slot.
    pub fn reply(verb: Verb, slot: u8, outcome: &Result<Outcome, ConsoleFault>) -> Output
        ensures { Holds result (reply_text verb slot outcome.now ++ 10 ∷ []) }
    {
        let mut out = Output::new();
        out.push(verb.into());
        out.push(b' ');
        out.number(slot as usize);
        out.push(b' ');
        out.outcome(outcome);
        out.push(b'\n');
        out
    }

    // The whole line for a map that was changed.
    pub fn renamed() -> Output
        ensures { Holds result (codes "M ok" ++ 10 ∷ []) }
    {
        let mut out = Output::new();
        out.push(Verb::Rename.into());
        out.text(b" ok\n");
        out
    }

    // The whole line of a refusal that has no letter and no slot.
    pub fn refused(fault: &ConsoleFault) -> Output
        ensures { Holds result (refusal_text (of_console fault.now) ++ 10 ∷ []) }
    {
        let mut out = Output::new();
        out.refusal(&fault.refusal());
        out.push(b'\n');
        out
    }
}
