// A term's table of nodes: each stands behind its children.
ghost use Rattle.std.specs.Prelude.{◌≡◌, ℕ, ◌<◌, ◌≤◌, length, slice_index_or};
ghost use Rattle.std.specs.Coded.{Π_prop, →_prop};
ghost use Rattle.terms.specs.Nodes.{Lower, Lower-prop};
ghost use Rattle.terms.specs.declared.node.Node.TheVariants.{Action};

mod subterm;

use crate::node::Node;
pub use subterm::{Parts, Subterm};

// The core allocates nothing: so the table is an array, of which so many places are used.
#[derive(Clone, Copy)]
pub struct Nodes {
    table: [Node; 125],
    used: u8,
    ghost room: { length table ≡ 125 },
    ghost fits: { used ≤ 125 },
    ghost falls: { (k : ℕ) → k < used → Lower k (slice_index_or table k (Action 0 0)) } by { Π_prop (λ k. →_prop (Lower-prop k (slice_index_or table k (Action 0 0)))) },
}

impl Nodes {
    ghost use Rattle.std.specs.Prelude.{◌≡◌, ◌+◌, ◌<◌, ◌≤◌, [], take};
    ghost use Rattle.terms.specs.Assembly.{plus, times};
    ghost use Rattle.terms.specs.Nodes.{grow, make, Lower};
    ghost use Rattle.terms.specs.Names.{Below, known, one};
    ghost use Rattle.terms.specs.Table.{at, Joined};

    pub fn new() -> Nodes
        ensures { result.used ≡ 0 }
    {
        Nodes {
            table: [Node::Action(0, 0); 125],
            used: 0,
        }
    }

    // One node more; its number.
    pub fn push(&mut self, node: Node) -> u8
        requires room { self.old.used < 125 }
        requires behind { Lower self.old.used node }
        ensures { Joined self.old (make (grow [] (take self.old.used self.old.table)) node) 1 result self.new }
    {
        let number = self.used;
        self.table[number as usize] = node;
        self.used = number + 1;
        number
    }

    // The product so far with an operand more.
    pub fn multiply(&mut self, product: Option<u8>, operand: u8) -> u8
        requires left { Below self.old.used product }
        requires right { operand < self.old.used }
        requires room { self.old.used + one product ≤ 125 }
        ensures { Joined self.old (times (known (at self.old) product) (at self.old operand)) (one product) result self.new }
    {
        match product {
            None => operand,
            Some(product) => self.push(Node::Sequence(product, operand)),
        }
    }

    // The sum so far with a product more.
    pub fn add(&mut self, sum: Option<u8>, product: u8) -> u8
        requires left { Below self.old.used sum }
        requires right { product < self.old.used }
        requires room { self.old.used + one sum ≤ 125 }
        ensures { Joined self.old (plus (known (at self.old) sum) (at self.old product)) (one sum) result self.new }
    {
        match sum {
            None => product,
            Some(sum) => self.push(Node::Choice(sum, product)),
        }
    }
}
