// Two versions told.
ghost use Rattle.std.specs.Prelude.{◌≡◌, ◌+◌, ◌*◌, ◌-◌, ◌≤◌, ◌++◌, IfOk, OnOk, string_bytes};
ghost use Rattle.inputs.specs.Words.{word_of};
ghost use Rattle.explanations.specs.Refused.{refused_line, Answered};
ghost use Rattle.explanations.specs.Contrasts.{Contrasted};

use crate::difference::push_outcome;
use crate::side::Side;
use crate::summary::push_summary;
use crate::version::Version;
use comparison::compare;
use formulas::Line;
use lts::Source;
use refusals::Fault;
use std::alloc::{AllocError, Global};

// The line of a version that is refused; nothing of one that was read.
fn push_refusal<V, F: Fault>(
    out: &mut String,
    side: Side,
    version: &Result<V, F>,
) -> Result<(), AllocError>
    ensures { OnOk result (string_bytes out.new ≡ string_bytes out.old ++ refused_line F.told side version.now) }
{
    match version {
        Ok(_) => Ok(()),
        Err(fault) => {
            let refusal = fault.refusal();
            write!(out, "{side} {refusal}\n")
        }
    }
}

// The comparison of two versions, in buffers of so many lines and class numbers.
fn compared<const N: usize, S: Source<N>, const LINES: usize, const CLASSES: usize>(
    heap: Global,
    left: &Version<'_, S>,
    right: &Version<'_, S>,
) -> Result<String, AllocError>
    requires few { LINES ≤ 1021 }
    requires lines { 4 * (N + N) - 3 ≤ LINES }
    requires classes { CLASSES ≡ N + N }
    ensures { IfOk result (λ t. Contrasted LINES CLASSES (word_of left.now.given) (word_of right.now.given) (S.meaning left.now.procedure) (S.meaning right.now.procedure) (string_bytes t)) }
{
    let p = &left.procedure;
    let q = &right.procedure;
    let mut lines = [Line::True; LINES];
    let mut classes = [0; CLASSES];
    let Ok(report) = compare(p, q, &mut lines, &mut classes) else {
        unreachable!()
    };
    let mut out = String::new(heap);
    push_summary(&mut out, left, right, report, &classes)?;
    push_outcome(&mut out, left.given.word(), p, report.verdict, &lines)?;
    Ok(out)
}

// What is told of two versions: each refusal, or else how the procedures compare.
pub fn told<
    const N: usize,
    S: Source<N> + Drop,
    F: Fault + Drop,
    const LINES: usize,
    const CLASSES: usize,
>(
    heap: Global,
    left: Result<Version<'_, S>, F>,
    right: Result<Version<'_, S>, F>,
) -> Result<String, AllocError>
    requires few { LINES ≤ 1021 }
    requires lines { 4 * (N + N) - 3 ≤ LINES }
    requires classes { CLASSES ≡ N + N }
    ensures { IfOk result (λ t. Answered F.told (λ v w. Contrasted LINES CLASSES (word_of v.given) (word_of w.given) (S.meaning v.procedure) (S.meaning w.procedure) (string_bytes t)) left.entry right.entry (string_bytes t)) }
{
    match (&left, &right) {
        (Ok(left), Ok(right)) => compared::<N, S, LINES, CLASSES>(heap, left, right),
        _ => {
            let mut out = String::new(heap);
            push_refusal(&mut out, Side::Left, &left)?;
            push_refusal(&mut out, Side::Right, &right)?;
            Ok(out)
        }
    }
}
