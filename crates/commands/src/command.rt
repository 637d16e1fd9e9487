// One line taken apart.
ghost use Rattle.std.specs.Prelude.{◌≡◌, ◌<◌, length, MatchResult, slice_index};
ghost use Rattle.terms.specs.Grammar.{Letter};
ghost use Rattle.commands.specs.Form.{Digit, Space};
ghost use Rattle.commands.specs.Letters.{Lettered, Slotted, Texted, Alone, letter_of};
ghost use Rattle.commands.specs.Reading.{Read, Misfits, Stands, Found, Ended, SlotAt, TextAt, ActionsAt};

use crate::fault::ConsoleFault;
use crate::verb::Verb;

// What a line asks for. The text of a term is a part of the line.
#[derive(Clone, Copy)]
pub enum Command<'a> {
    File { slot: u8, text: &'a [u8] },
    Submit { slot: u8, text: &'a [u8] },
    Release { slot: u8 },
    Withdraw { slot: u8 },
    // Action `from` of later terms stands for `to`.
    Rename { from: u8, to: u8 },
}

// What a reader of one byte makes of the byte at a place.
fn found<T, F: FnOnce(u8) -> Option<T>>(line: &[u8], at: usize, read: F) -> Result<T, ConsoleFault>
    requires { F.IsAlwaysCallable read }
    ensures { Found (F.post read) line.now at result }
{
    line.get(at)
        .copied()
        .and_then(read)
        .ok_or(ConsoleFault::Form(at))
}

// The letter that a line begins with.
fn verb(line: &[u8]) -> Result<Verb, ConsoleFault>
    ensures { MatchResult result (λ v. (0 < length line.now) × (slice_index line.now 0 ≡ letter_of v)) (Misfits line.now) }
{
    found(line, 0, letter)
}

// The verb of a letter.
fn letter(byte: u8) -> Option<Verb>
    ensures { Stands Lettered byte result }
{
    Verb::try_from(byte).ok()
}

fn space(byte: u8) -> Option<()>
    ensures { Stands Space byte result }
{
    (byte == b' ').then_some(())
}

// The number of a digit.
fn digit(byte: u8) -> Option<u8>
    ensures { Stands Digit byte result }
{
    match byte {
        b'0'..=b'9' => Some(byte - b'0'),
        _ => None,
    }
}

// The action of a character.
fn action(byte: u8) -> Option<u8>
    ensures { Stands Letter byte result }
{
    terms::letter::action(char::from(byte))
}

// The line's end, at a place that it reaches.
fn end(line: &[u8], at: usize) -> Result<(), ConsoleFault>
    ensures { Ended line.now at result }
{
    if line.len() > at {
        return Err(ConsoleFault::Form(at));
    }
    Ok(())
}

// The slot behind a letter.
fn slot(line: &[u8]) -> Result<u8, ConsoleFault>
    requires { Slotted (slice_index line.now 0) }
    ensures { MatchResult result (SlotAt line.now) (Misfits line.now) }
{
    found(line, 1, space)?;
    found(line, 2, digit)
}

// The slot and the text behind a letter.
fn slot_and_text(line: &[u8]) -> Result<(u8, &[u8]), ConsoleFault>
    requires { Texted (slice_index line.now 0) }
    ensures { MatchResult result (λ v. SlotAt line.now v.0 × TextAt line.now v.1.now) (Misfits line.now) }
{
    let slot = slot(line)?;
    found(line, 3, space)?;
    Ok((slot, &line[4..]))
}

// The slot behind a letter, and nothing more.
fn slot_alone(line: &[u8]) -> Result<u8, ConsoleFault>
    requires { Alone (slice_index line.now 0) }
    ensures { MatchResult result (λ s. SlotAt line.now s × (length line.now ≡ 3)) (Misfits line.now) }
{
    let slot = slot(line)?;
    end(line, 3)?;
    Ok(slot)
}

// The two actions behind `M`, and nothing more.
fn two_actions(line: &[u8]) -> Result<(u8, u8), ConsoleFault>
    requires { slice_index line.now 0 ≡ letter_of Verb.Rename }
    ensures { MatchResult result (λ v. ActionsAt line.now v.0 v.1) (Misfits line.now) }
{
    found(line, 1, space)?;
    let from = found(line, 2, action)?;
    let to = found(line, 3, action)?;
    end(line, 4)?;
    Ok((from, to))
}

impl<'a> Command<'a> {
    // The command that a line is, or the first byte that doesn't fit.
    pub fn read(line: &'a [u8]) -> Result<Command<'a>, ConsoleFault>
        ensures { Read line.now result }
    {
        match verb(line)? {
            Verb::File => slot_and_text(line).map(|(slot, text)| Command::File { slot, text }),
            Verb::Submit => slot_and_text(line).map(|(slot, text)| Command::Submit { slot, text }),
            Verb::Release => slot_alone(line).map(|slot| Command::Release { slot }),
            Verb::Withdraw => slot_alone(line).map(|slot| Command::Withdraw { slot }),
            Verb::Rename => two_actions(line).map(|(from, to)| Command::Rename { from, to }),
        }
    }
}
