// What is told of two procedures whatever the verdict: both procedures, the verdict, the classes.
ghost use Rattle.std.specs.Prelude.{◌≡◌, ◌+◌, ◌≤◌, ◌++◌, length, Some, string_bytes, OnOk};
ghost use Rattle.inputs.specs.Words.{word_of, word_text};
ghost use Rattle.explanations.specs.Explanations.{procedure_text, verdict_word, verdict_text, summary_text};

use crate::side::Side;
use crate::version::Version;
use comparison::{Report, Verdict};
use drawings::{Form, push_drawing};
use inputs::Given;
use listings::push_classes;
use lts::System;
use std::alloc::AllocError;
use std::fmt;
use std::str::from_utf8;

// A verdict as it is written.
#[derive(Clone, Copy)]
struct VerdictName(Verdict);

impl fmt::Display for VerdictName {
    ghost output = { λ x. Some (verdict_word x.0) };

    fn fmt<W: fmt::Write>(&self, f: &mut fmt::Formatter<W>) -> fmt::Result {
        match self.0 {
            Verdict::Same => write!(f, "same"),
            Verdict::Different { .. } => write!(f, "different"),
        }
    }
}

// The word of a version, and the table of what it names.
fn push_procedure<S: System>(
    out: &mut String,
    side: Side,
    version: &Version<'_, S>,
) -> Result<(), AllocError>
    ensures { OnOk result (string_bytes out.new ≡ string_bytes out.old ++ procedure_text side (word_text (word_of version.now.given)) (S.meaning version.now.procedure)) }
{
    match version.given {
        Given::Term(text) => {
            let Ok(text) = from_utf8(text) else {
                unreachable!()
            };
            write!(out, "{side} {text}\n")?;
        }
        Given::File { path, .. } => write!(out, "{side} @{path}\n")?,
    }
    push_drawing(out, Form::Table, &version.procedure)
}

fn push_verdict(out: &mut String, report: Report) -> Result<(), AllocError>
    ensures { OnOk result (string_bytes out.new ≡ string_bytes out.old ++ verdict_text report) }
{
    let verdict = VerdictName(report.verdict);
    let classes = report.classes;
    let rounds = report.rounds;
    write!(out, "{verdict}, {classes} classes, {rounds} rounds\n")
}

// Both words with their tables, the verdict, and the classes of all states.
pub fn push_summary<S: System>(
    out: &mut String,
    left: &Version<'_, S>,
    right: &Version<'_, S>,
    report: Report,
    classes: &[u16],
) -> Result<(), AllocError>
    requires { (S.meaning left.now.procedure).count + (S.meaning right.now.procedure).count ≤ length classes.now }
    ensures { OnOk result (string_bytes out.new ≡ string_bytes out.old ++ summary_text (word_text (word_of left.now.given)) (word_text (word_of right.now.given)) (S.meaning left.now.procedure) (S.meaning right.now.procedure) report classes.now) }
{
    push_procedure(out, Side::Left, left)?;
    push_procedure(out, Side::Right, right)?;
    push_verdict(out, report)?;
    let n = left.procedure.states();
    let all = n + right.procedure.states();
    push_classes(out, n, &classes[0..all], report.classes)
}
