// A table file that was read: the procedure that it draws.
ghost use Rattle.lts.specs.Layout.{Sound};

mod reader;
mod source;

use lts::Procedure;

#[derive(Drop)]
pub struct Table {
    procedure: Procedure,
    ghost sound: { Sound procedure },
}
