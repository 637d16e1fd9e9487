// A term as it was read: its nodes, and its states laid out.
ghost use Rattle.std.specs.Prelude.{◌<◌, ◌≤◌};
ghost use Rattle.terms.specs.Lists.{Drawn};
ghost use Rattle.terms.specs.Syntax.{size, Numbered, Numbered-prop};
ghost use Rattle.terms.specs.Table.{at};

pub mod reader;
mod source;

use crate::nodes::Nodes;
use lts::Laid;

#[derive(Clone, Copy)]
pub struct Term {
    nodes: Nodes,
    root: u8,
    laid: Laid<64, 63>,
    ghost rooted: { root < nodes.used },
    ghost small: { size (at nodes root) ≤ 63 },
    ghost order: { Numbered 0 (at nodes root) } by { Numbered-prop 0 (at nodes root) },
    ghost drawn: { Drawn (at nodes root) laid },
}
