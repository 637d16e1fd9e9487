// A formula evaluated over an input.
ghost use Rattle.std.specs.Prelude.{◌≡◌};
ghost use Rattle.inputs.specs.Inputs.{meaning_of};
ghost use Rattle.embed.specs.Evaluations.{refused, told, Evaluates, Answered};
ghost use Rattle.embed.specs.Numbers.{input_of};

use crate::numbers::{given, layer_number, place_numbers, read_lines};
use formulas::{EvaluationFault, Line, MOST_LINES, evaluate};
use inputs::Parsed;
use refusals::{Fault, Refusal};

// What an evaluation answers. Where `number` is not 0 it was refused. It crosses to C, so it is all numbers, and 0 is what is
// not told.
#[repr(C)]
#[derive(Clone, Copy)]
pub struct Evaluation {
    pub number: u8,
    pub layer: u8,
    pub placed: u8,
    pub holds: u8,
    pub place: u64,
}

fn refused(refusal: Refusal) -> Evaluation
    ensures { result ≡ refused refusal }
{
    let (placed, place) = place_numbers(refusal.place);
    Evaluation {
        number: refusal.number,
        layer: layer_number(refusal.layer),
        placed,
        holds: 0,
        place,
    }
}

fn told(res: Result<bool, EvaluationFault>) -> Evaluation
    ensures { result ≡ told res }
{
    match res {
        Err(fault) => refused(fault.refusal()),
        Ok(holds) => Evaluation {
            number: 0,
            layer: 0,
            placed: 0,
            holds: u8::from(holds),
            place: 0,
        },
    }
}

// Evaluates lines that are given as numbers.
fn evaluate_numbers(
    source: &Parsed,
    numbers: &[u16],
    line: usize,
    state: usize,
    work: &mut [u8],
) -> Evaluation
    ensures { Evaluates (meaning_of source.now) numbers.now line state work.old result work.new }
{
    let count = numbers.len() / 3;
    if count > MOST_LINES {
        return told(Err(EvaluationFault::Count));
    }
    let mut lines = [Line::True; MOST_LINES];
    read_lines(numbers, &mut lines);
    told(evaluate(source, &lines[0..count], line, state, work))
}

// Reads the input, and says whether the line holds at the state. Three numbers make a line.
#[unsafe(no_mangle)]
pub extern "C" fn nabrotzu_evaluate(
    kind: u8,
    input: &[u8],
    lines: &[u16],
    line: usize,
    state: usize,
    work: &mut [u8],
    answer: &mut Evaluation,
)
    ensures { Answered (input_of kind input.entry) lines.now line state work.old answer.new work.new }
{
    *answer = match Parsed::read(given(kind, input)) {
        Err(fault) => refused(fault.refusal()),
        Ok(source) => evaluate_numbers(&source, lines, line, state, work),
    };
}
