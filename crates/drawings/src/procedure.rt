// Writes a procedure out.
ghost use Rattle.std.specs.Prelude.{◌≡◌, ◌+◌, ◌≤◌, not, ◌++◌, IfOk, Some, string_bytes, OnOk};
ghost use Rattle.drawings.specs.Texts.{action_text, head_text, state_text, step_text, steps_text, foot_text, last_text, row_text, transitions_of, transitions, drawing};

use crate::form::Form;
use lts::{Steps, System};
use std::alloc::{AllocError, Global};
use std::fmt;

// An action as it is written: its character, or its number behind `#`.
#[derive(Clone, Copy)]
pub struct ActionName(pub u8);

impl fmt::Display for ActionName {
    ghost output = { λ x. Some (action_text x.0) };

    fn fmt<W: fmt::Write>(&self, f: &mut fmt::Formatter<W>) -> fmt::Result {
        let action = self.0;
        match terms::letter::letter(action) {
            Some(letter) => write!(f, "{letter}"),
            None => write!(f, "#{action}"),
        }
    }
}

fn push_head(
    out: &mut String,
    form: Form,
    transitions: usize,
    states: usize,
) -> Result<(), AllocError>
    ensures { OnOk result (string_bytes out.new ≡ string_bytes out.old ++ head_text form transitions states) }
{
    match form {
        Form::Table => Ok(()),
        Form::Dot => write!(
            out,
            "digraph procedure {{\n  rankdir=LR;\n  node [shape=circle];\n  start [shape=point];\n  start -> 0;\n"
        ),
        Form::Aut => write!(out, "des (0, {transitions}, {states})\n"),
    }
}

// The start of state s; silent where it lists no step.
fn push_state(
    out: &mut String,
    form: Form,
    s: usize,
    end: bool,
    silent: bool,
) -> Result<(), AllocError>
    ensures { OnOk result (string_bytes out.new ≡ string_bytes out.old ++ state_text form s end silent) }
{
    match form {
        Form::Table if end => write!(out, "state {s}: end"),
        Form::Table if silent => write!(out, "state {s}: deadlock"),
        Form::Table => write!(out, "state {s}"),
        Form::Dot if end => write!(out, "  {s} [shape=doublecircle];\n"),
        Form::Dot => write!(out, "  {s};\n"),
        Form::Aut if end => write!(out, "({s}, \"end\", {s})\n"),
        Form::Aut => Ok(()),
    }
}

// A step out of state s; fresh where nothing is told of s yet.
fn push_step(
    out: &mut String,
    form: Form,
    s: usize,
    fresh: bool,
    action: u8,
    target: u8,
) -> Result<(), AllocError>
    ensures { OnOk result (string_bytes out.new ≡ string_bytes out.old ++ step_text form s fresh (action, target)) }
{
    let action = ActionName(action);
    match form {
        Form::Table if fresh => write!(out, ": {action} -> {target}"),
        Form::Table => write!(out, ", {action} -> {target}"),
        Form::Dot => write!(out, "  {s} -> {target} [label=\"{action}\"];\n"),
        Form::Aut => write!(out, "({s}, \"{action}\", {target})\n"),
    }
}

fn push_foot(out: &mut String, form: Form) -> Result<(), AllocError>
    ensures { OnOk result (string_bytes out.new ≡ string_bytes out.old ++ foot_text form) }
{
    match form {
        Form::Table => out.push_str("\n"),
        Form::Dot | Form::Aut => Ok(()),
    }
}

fn push_last(out: &mut String, form: Form) -> Result<(), AllocError>
    ensures { OnOk result (string_bytes out.new ≡ string_bytes out.old ++ last_text form) }
{
    match form {
        Form::Dot => out.push_str("}\n"),
        Form::Table | Form::Aut => Ok(()),
    }
}

// The steps out of state s, in their order.
fn push_steps<S: System>(
    out: &mut String,
    form: Form,
    source: &S,
    s: usize,
    end: bool,
) -> Result<(), AllocError>
    ensures { OnOk result (string_bytes out.new ≡ string_bytes out.old ++ steps_text form s (not end) ((S.meaning source.now).steps s)) }
{
    for (k, (action, target)) in Steps::of(source, s).enumerate() {
        let fresh = (k == 0) & !end;
        push_step(out, form, s, fresh, action, target)?;
    }
    Ok(())
}

// All that is told of state s.
fn push_row<S: System>(out: &mut String, form: Form, source: &S, s: usize) -> Result<(), AllocError>
    ensures { OnOk result (string_bytes out.new ≡ string_bytes out.old ++ row_text form (S.meaning source.now) s) }
{
    let end = source.is_end(s);
    let silent = source.step_count(s) == 0;
    push_state(out, form, s, end, silent)?;
    push_steps(out, form, source, s, end)?;
    push_foot(out, form)
}

// How many transitions out of state s the Aldebaran form has.
fn row_transitions<S: System>(source: &S, s: usize) -> usize
    ensures { (result ≡ transitions_of (S.meaning source.now) s) × (result ≤ 4097) }
{
    let steps = source.step_count(s);
    if source.is_end(s) { steps + 1 } else { steps }
}

// How many transitions the Aldebaran form has.
fn transition_count<S: System>(source: &S) -> usize
    ensures { result ≡ transitions (S.meaning source.now) }
{
    (0..source.states())
        .map(
            |s: usize| -> usize
                ensures { result ≡ transitions_of (S.meaning source.entry.now) s }
            { row_transitions(source, s) },
        )
        .sum()
}

// The whole procedure in a form, behind what is written.
pub fn push_drawing<S: System>(out: &mut String, form: Form, source: &S) -> Result<(), AllocError>
    ensures { OnOk result (string_bytes out.new ≡ string_bytes out.old ++ drawing form (S.meaning source.now)) }
{
    push_head(out, form, transition_count(source), source.states())?;
    for s in 0..source.states() {
        push_row(out, form, source, s)?;
    }
    push_last(out, form)
}

// The whole procedure in a form.
pub fn draw<S: System>(heap: Global, form: Form, source: &S) -> Result<String, AllocError>
    ensures { IfOk result (λ t. string_bytes t ≡ drawing form (S.meaning source.now)) }
{
    let mut out = String::new(heap);
    push_drawing(&mut out, form, source)?;
    Ok(out)
}
