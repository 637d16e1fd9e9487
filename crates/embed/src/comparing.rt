// Two inputs compared.
ghost use Rattle.std.specs.Prelude.{◌≡◌, ◌*◌, ◌≤◌, ◌++◌, length, take, drop};
ghost use Rattle.inputs.specs.Inputs.{meaning_of};
ghost use Rattle.embed.specs.Comparisons.{refused_by, compared_as, line_count, room, Compares, Read, either, Answered};
ghost use Rattle.embed.specs.Numbers.{input_of, numbers_of};

use crate::numbers::{given, layer_number, place_numbers, write_lines};
use comparison::{MOST_LINES, Report, Verdict, compare};
use formulas::Line;
use inputs::{Input, Parsed};
use refusals::{Fault, Refusal};

// What a comparison answers. Where `number` is not 0 it was refused. It crosses to C, so it is all numbers, and 0 is what is
// not told.
#[repr(C)]
#[derive(Clone, Copy)]
pub struct Comparison {
    pub number: u8,
    pub layer: u8,
    // Of a refused input 1 for the left one and 2 for the right one.
    pub side: u8,
    pub placed: u8,
    pub same: u8,
    pub place: u64,
    pub classes: u16,
    pub rounds: u16,
    pub lines: u16,
    pub line: u16,
    pub depth: u16,
}

fn refused_by(side: u8, refusal: Refusal) -> Comparison
    ensures { result ≡ refused_by side refusal }
{
    let (placed, place) = place_numbers(refusal.place);
    Comparison {
        number: refusal.number,
        layer: layer_number(refusal.layer),
        side,
        placed,
        same: 0,
        place,
        classes: 0,
        rounds: 0,
        lines: 0,
        line: 0,
        depth: 0,
    }
}

fn told(report: Report) -> Comparison
    ensures { result ≡ compared_as report.classes report.rounds report.verdict }
{
    let (same, lines, line, depth) = match report.verdict {
        Verdict::Same => (1, 0, 0, 0),
        Verdict::Different { lines, line, depth } => (0, lines, line, depth),
    };
    Comparison {
        number: 0,
        layer: 0,
        side: 0,
        placed: 0,
        same,
        place: 0,
        classes: report.classes,
        rounds: report.rounds,
        lines,
        line,
        depth,
    }
}

// Leaves the lines that a verdict names as numbers.
fn write_verdict(verdict: Verdict, lines: &[Line], numbers: &mut [u16])
    requires few { line_count verdict ≤ length lines.now }
    requires room { 3 * length lines.now ≤ length numbers.old }
    ensures { numbers.new ≡ numbers_of (take (line_count verdict) lines.now) ++ drop (3 * line_count verdict) numbers.old }
{
    if let Verdict::Different { lines: count, .. } = verdict {
        write_lines(&lines[0..count as usize], numbers);
    }
}

// Compares two procedures over lines of its own, and leaves those that the report names as numbers. Numbers and classes are
// places that C lends, each by itself.
fn compare_into(
    left: &Parsed,
    right: &Parsed,
    own: &mut [Line],
    numbers: &mut [u16],
    classes: &mut [u16],
) -> Comparison
    requires { own.old ≡ room numbers.old }
    ensures { Compares (meaning_of left.now) (meaning_of right.now) numbers.old classes.old result numbers.new classes.new }
{
    match compare(left, right, own, classes) {
        Err(fault) => refused_by(0, fault.refusal()),
        Ok(report) => {
            write_verdict(report.verdict, own, numbers);
            told(report)
        }
    }
}

fn compare_parsed(
    left: &Parsed,
    right: &Parsed,
    numbers: &mut [u16],
    classes: &mut [u16],
) -> Comparison
    ensures { Compares (meaning_of left.now) (meaning_of right.now) numbers.old classes.old result numbers.new classes.new }
{
    let mut own = [Line::True; MOST_LINES];
    let room = (numbers.len() / 3).min(MOST_LINES);
    compare_into(left, right, &mut own[0..room], numbers, classes)
}

// Reads the input on a side; its refusal is already what C is answered.
fn read_side(side: u8, input: Input<'_>) -> Result<Parsed, Comparison>
    ensures { Read side input.entry result }
{
    Parsed::read(input).map_err(|fault| refused_by(side, fault.refusal()))
}

// Reads both inputs and compares them.
fn compare_inputs(
    left: Input<'_>,
    right: Input<'_>,
    numbers: &mut [u16],
    classes: &mut [u16],
) -> Result<Comparison, Comparison>
    ensures { Answered left.entry right.entry numbers.old classes.old (either result) numbers.new classes.new }
{
    let left = read_side(1, left)?;
    let right = read_side(2, right)?;
    Ok(compare_parsed(&left, &right, numbers, classes))
}

// Reads both inputs and compares them. A line takes three numbers: its letter, and the two numbers behind it.
#[unsafe(no_mangle)]
pub extern "C" fn nabrotzu_compare(
    left_kind: u8,
    left: &[u8],
    right_kind: u8,
    right: &[u8],
    lines: &mut [u16],
    classes: &mut [u16],
    answer: &mut Comparison,
)
    ensures { Answered (input_of left_kind left.entry) (input_of right_kind right.entry) lines.old classes.old answer.new lines.new classes.new }
{
    let (left, right) = (given(left_kind, left), given(right_kind, right));
    *answer = match compare_inputs(left, right, lines, classes) {
        Ok(told) | Err(told) => told,
    };
}
