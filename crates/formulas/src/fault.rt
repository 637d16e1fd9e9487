// Why an evaluation is refused.
ghost use Rattle.formulas.specs.Faults.{of_evaluation};

use refusals::{Fault, Layer, Refusal};

#[derive(Clone, Copy, PartialEq, Eq, Debug)]
pub enum EvaluationFault {
    // No line, or over 1,024.
    Count,
    // This line, the first such, has an unknown letter, names no earlier line, or no action.
    Line(usize),
    // No such line or no such state.
    Absent,
    // The working buffer has fewer places than lines times states.
    Room,
}

impl Fault for EvaluationFault {
    ghost told = { of_evaluation };

    fn refusal(&self) -> Refusal {
        let (number, place) = match *self {
            EvaluationFault::Room => (30, None),
            EvaluationFault::Count => (31, None),
            EvaluationFault::Line(k) => (32, Some(k)),
            EvaluationFault::Absent => (33, None),
        };
        Refusal {
            number,
            layer: Layer::Evaluation,
            place,
        }
    }
}
