// The parts of a term that stand in a table.
ghost use Rattle.std.specs.Prelude.{◌≡◌, ◌<◌};

use crate::node::Node;
use crate::nodes::Nodes;

// A node, with what stands below it.
#[derive(Clone, Copy)]
pub struct Subterm<'a> {
    nodes: &'a Nodes,
    node: u8,
    ghost stands: { node < nodes.now.used },
}

// An action with its place, or a connective with its two sides.
#[derive(Clone, Copy)]
pub enum Parts<'a> {
    Action(u8, u8),
    Choice(Subterm<'a>, Subterm<'a>),
    Sequence(Subterm<'a>, Subterm<'a>),
}

impl Nodes {
    pub fn subterm(&self, node: u8) -> Subterm<'_>
        requires { node < self.now.used }
        ensures nodes { result.nodes.now ≡ self.now }
        ensures node { result.node ≡ node }
    {
        Subterm { nodes: self, node }
    }
}

impl<'a> Subterm<'a> {
    ghost use Rattle.terms.specs.Table.{Says};

    pub fn parts(self) -> Parts<'a>
        ensures { Says self.entry result }
    {
        let nodes = self.nodes;
        match nodes.table[self.node as usize] {
            Node::Action(a, i) => Parts::Action(a, i),
            Node::Choice(x, y) => Parts::Choice(nodes.subterm(x), nodes.subterm(y)),
            Node::Sequence(x, y) => Parts::Sequence(nodes.subterm(x), nodes.subterm(y)),
        }
    }
}
