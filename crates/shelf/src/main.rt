// The console: reads lines from standard input, and prints what each is answered.

#![tactic(auto)]

use commands::{Output, admit};
use console::Console;
use lines::Lines;
use std::io;
use std::io::{BufWriter, Read, Write};

// One byte more than an input may have, so that a longer one is noticed.
const READ: u64 = 32769;

// Answers each line.
fn run(rt: &HostRuntime, input: &[u8]) -> io::Result<()> {
    let mut out = BufWriter::new(rt.alloc(), rt.stdout())?;
    if let Err(fault) = admit(input) {
        out.write_all(Output::refused(&fault).bytes())?;
        return out.flush();
    }
    let mut console = Console::new();
    for line in Lines::new(input) {
        out.write_all(console.answer(line).bytes())?;
    }
    out.flush()
}

fn main(rt: HostRuntime) -> io::Result<()> {
    let mut input = Vec::new(rt.alloc());
    rt.stdin().take(READ).read_to_end(&mut input)?;
    run(&rt, input.as_slice())
}
