// Why an input is refused.
ghost use Rattle.std.specs.Prelude.{◌≡◌};
ghost use Rattle.inputs.specs.Faults.{of_input};
ghost use Rattle.inputs.specs.declared.fault.InputFault.{InputFault};

use refusals::{Fault, Refusal};
use tables::TableFault;
use terms::fault::TermFault;

// The reader's fault, whole.
#[derive(Clone, Copy, PartialEq, Eq, Debug)]
pub enum InputFault {
    Term(TermFault),
    Table(TableFault),
}

impl From<TermFault> for InputFault {
    ghost from_gives = { λ f r. r ≡ InputFault.Term f };

    fn from(whole: TermFault) -> InputFault {
        InputFault::Term(whole)
    }
}

impl From<TableFault> for InputFault {
    ghost from_gives = { λ f r. r ≡ InputFault.Table f };

    fn from(whole: TableFault) -> InputFault {
        InputFault::Table(whole)
    }
}

impl Fault for InputFault {
    ghost told = { of_input };

    fn refusal(&self) -> Refusal {
        match self {
            InputFault::Term(fault) => fault.refusal(),
            InputFault::Table(fault) => fault.refusal(),
        }
    }
}
