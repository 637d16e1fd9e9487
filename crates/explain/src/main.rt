// Tells how two procedures compare.

#![tactic(auto)]

use explanations::explain_given;
use lines::{Lines, split_at_byte};
use programs::{Answers, fetch};
use std::io::Read;
use std::{env, io};

// Explains what two words name, if the files can be read.
fn explain_pair(
    rt: &HostRuntime,
    answers: &mut Answers,
    left: &[u8],
    right: &[u8],
) -> io::Result<()> {
    let p = fetch(rt, left);
    let q = fetch(rt, right);
    if p.is_none() {
        answers.miss(rt, left);
    }
    if q.is_none() {
        answers.miss(rt, right);
    }
    if let (Some(p), Some(q)) = (p, q) {
        let answer = explain_given(rt.alloc(), p.given(), q.given())?;
        answers.tell(answer.as_str())?;
    }
    Ok(())
}

// Explains the pair on each line of standard input. The words of a pair have one space between; without it the right
// one is empty.
fn explain_lines(rt: &HostRuntime, answers: &mut Answers) -> io::Result<()> {
    let mut text = Vec::new(rt.alloc());
    rt.stdin().read_to_end(&mut text)?;
    for line in Lines::new(text.as_slice()) {
        let (left, right) = split_at_byte(line, b' ');
        explain_pair(rt, answers, left, right)?;
    }
    Ok(())
}

// Explains the pair of the two words, or the pairs of standard input where there is no word.
fn main(rt: HostRuntime) -> io::Result<()> {
    let mut answers = Answers::new(&rt)?;
    let mut words = env::args(&rt)?.skip(1);
    match words.next() {
        Some(left) => {
            let right = match words.next() {
                Some(right) => right,
                None => String::new(rt.alloc()),
            };
            explain_pair(&rt, &mut answers, left.as_bytes(), right.as_bytes())?;
        }
        None => explain_lines(&rt, &mut answers)?,
    }
    answers.finish()
}
