// Prints the graph of each procedure that is named: as a table, as a Graphviz digraph, or in the Aldebaran form.

#![tactic(auto)]

use drawings::{Form, draw_input};
use lines::Lines;
use programs::{Answers, fetch};
use std::io::Read;
use std::{env, io};

// Draws what a word names.
fn draw_word(rt: &HostRuntime, answers: &mut Answers, form: Form, word: &[u8]) -> io::Result<()> {
    match fetch(rt, word) {
        Some(fetched) => {
            let drawing = draw_input(rt.alloc(), form, fetched.given().input())?;
            answers.tell(drawing.as_str())
        }
        None => {
            answers.miss(rt, word);
            Ok(())
        }
    }
}

// Draws what each line of standard input names.
fn draw_lines(rt: &HostRuntime, answers: &mut Answers, form: Form) -> io::Result<()> {
    let mut text = Vec::new(rt.alloc());
    rt.stdin().read_to_end(&mut text)?;
    for line in Lines::new(text.as_slice()) {
        draw_word(rt, answers, form, line)?;
    }
    Ok(())
}

// Draws what each word names, or each line where no word does; an option is for the words behind it.
fn main(rt: HostRuntime) -> io::Result<()> {
    let mut answers = Answers::new(&rt)?;
    let mut form = Form::Table;
    let mut named = false;
    for word in env::args(&rt)?.skip(1) {
        match word.as_str() {
            "--dot" => form = Form::Dot,
            "--aut" => form = Form::Aut,
            word => {
                draw_word(&rt, &mut answers, form, word.as_bytes())?;
                named = true;
            }
        }
    }
    if !named {
        draw_lines(&rt, &mut answers, form)?;
    }
    answers.finish()
}
