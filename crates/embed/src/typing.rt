// A whole input typed into a new console.
ghost use Rattle.std.specs.Prelude.{◌≡◌, ◌+◌, ◌≤◌, ◌++◌, length, take, drop};
ghost use Rattle.embed.specs.Consoles.{Ran, TooLong, Answered};

use commands::{ConsoleFault, Output, admit};
use console::Console;
use lines::split_line;

// The most bytes that a line prints.
const ROOM: usize = 32;

// How many bytes of the input were read, and how many were written.
#[repr(C)]
#[derive(Clone, Copy)]
pub struct Session {
    pub read: u64,
    pub written: u64,
}

// Writes bytes from a place on.
fn put(places: &mut [u8], at: usize, bytes: &[u8])
    requires { at + length bytes.now ≤ length places.old }
    ensures { places.new ≡ take at places.old ++ (bytes.now ++ drop (at + length bytes.now) places.old) }
{
    places[at..at + bytes.len()].copy_from_slice(bytes);
}

// Types the lines of an input into a new console, as long as there are places for what the next one prints.
fn typed(input: &[u8], places: &mut [u8]) -> Session
    ensures { Ran input.now places.old result places.new }
{
    let mut console = Console::new();
    let mut rest = input;
    let mut written = 0;
    // No `for` over the lines: it stops where the next one may find no room.
    while !rest.is_empty() && places.len() - written >= ROOM {
        let (line, later) = split_line(rest);
        let answer = console.answer(line);
        let bytes = answer.bytes();
        put(places, written, bytes);
        written += bytes.len();
        rest = later;
    }
    Session {
        read: (input.len() - rest.len()) as u64,
        written: written as u64,
    }
}

// The one line of an input that is too long.
fn too_long(input: &[u8], places: &mut [u8]) -> Session
    ensures { TooLong input.now places.old result places.new }
{
    if places.len() < ROOM {
        return Session {
            read: 0,
            written: 0,
        };
    }
    let answer = Output::refused(&ConsoleFault::Long);
    let bytes = answer.bytes();
    put(places, 0, bytes);
    Session {
        read: input.len() as u64,
        written: bytes.len() as u64,
    }
}

// Answers the lines of an input.
#[unsafe(no_mangle)]
pub extern "C" fn nabrotzu_console(input: &[u8], output: &mut [u8], answer: &mut Session)
    ensures { Answered input.now output.old answer.new output.new }
{
    *answer = match admit(input) {
        Ok(()) => typed(input, output),
        Err(_) => too_long(input, output),
    };
}
