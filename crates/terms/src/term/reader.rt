// Reads a text byte by byte into a table of nodes.
ghost use Rattle.std.specs.Prelude.{◌≡◌, ◌+◌, ◌*◌, ◌≤◌, length};
ghost use Rattle.std.proofs.Props.{props};
ghost use Rattle.terms.specs.Names.{Below, Framed, named, one, stacked, weight};

use crate::fault::TermFault;
use crate::letter::action;
use crate::listing::Listing;
use crate::node::Node;
use crate::nodes::Nodes;
use crate::term::Term;

const MOST_BYTES: usize = 512;

const MOST_ACTIONS: u8 = 63;

const MOST_BRACKETS: u8 = 32;

// Before an operand, with the product that a '.' goes on with; or behind one, with the product so far.
#[derive(Clone, Copy)]
enum Position {
    Before(Option<u8>),
    Behind(u8),
}

// What stood before an open bracket: the sum so far, and the product that the bracket goes on with.
#[derive(Clone, Copy)]
struct Frame {
    sum: Option<u8>,
    product: Option<u8>,
}

// Each action adds a node and a name for it, each choice and sequence a node in place of a name: so the table is large enough.
#[derive(Drop)]
struct Reader {
    nodes: Nodes,
    actions: u8,
    // The open brackets, so many of them, in an array, since the core allocates nothing.
    frames: [Frame; 32],
    depth: u8,
    sum: Option<u8>,
    position: Position,
    ghost room: { length frames ≡ 32 },
    ghost shallow: { depth ≤ 32 },
    ghost few: { actions ≤ 63 },
    ghost summed: { Below nodes.used sum } by { Prim.hlevel props },
    ghost placed: { Below nodes.used (named position) } by { Prim.hlevel props },
    ghost framed: { Framed nodes.used (stacked frames depth) } by { Prim.hlevel props },
    ghost balance: { nodes.used + (one sum + one (named position) + weight (stacked frames depth)) ≡ 2 * actions },
}

impl Reader {
    ghost use Rattle.std.specs.Prelude.{◌≡◌, ◌<◌};
    ghost use Rattle.terms.specs.Assembly.{start};
    ghost use Rattle.terms.specs.Reader.{partial, Acted, Opened, Chosen, Closed, Took, Counted, Finished};

    fn new() -> Reader
        ensures { partial result ≡ start }
    {
        let frame = Frame {
            sum: None,
            product: None,
        };
        Reader {
            nodes: Nodes::new(),
            actions: 0,
            frames: [frame; 32],
            depth: 0,
            sum: None,
            position: Position::Before(None),
        }
    }

    // An action behind the product that goes on with it.
    fn act(&mut self, product: Option<u8>, action: u8, offset: usize) -> Result<(), TermFault>
        requires { self.old.position ≡ Position.Before product }
        ensures { Acted self.old product action offset result self.new }
    {
        if self.actions >= MOST_ACTIONS {
            return Err(TermFault::Actions(offset));
        }
        self.actions += 1;
        let leaf = self.nodes.push(Node::Action(action, self.actions));
        let product = self.nodes.multiply(product, leaf);
        self.position = Position::Behind(product);
        Ok(())
    }

    // '(' behind the product that the bracket goes on with.
    fn open(&mut self, product: Option<u8>, offset: usize) -> Result<(), TermFault>
        requires { self.old.position ≡ Position.Before product }
        ensures { Opened self.old product offset result self.new }
    {
        if self.depth >= MOST_BRACKETS {
            return Err(TermFault::Brackets(offset));
        }
        self.frames[self.depth as usize] = Frame {
            sum: self.sum,
            product,
        };
        self.depth += 1;
        self.sum = None;
        self.position = Position::Before(None);
        Ok(())
    }

    // '+' behind a product.
    fn choose(&mut self, product: u8)
        requires { self.old.position ≡ Position.Behind product }
        ensures { Chosen self.old product self.new }
    {
        let sum = self.nodes.add(self.sum, product);
        self.sum = Some(sum);
        self.position = Position::Before(None);
    }

    // ')' behind a product, with a bracket open.
    fn close(&mut self, product: u8)
        requires stands { self.old.position ≡ Position.Behind product }
        requires inside { 0 < self.old.depth }
        ensures { Closed self.old product self.new }
    {
        let whole = self.nodes.add(self.sum, product);
        self.depth -= 1;
        let frame = self.frames[self.depth as usize];
        self.sum = frame.sum;
        let product = self.nodes.multiply(frame.product, whole);
        self.position = Position::Behind(product);
    }

    // The byte at an offset.
    fn feed(&mut self, byte: u8, offset: usize) -> Result<(), TermFault>
        ensures { Took self.old offset byte result self.new }
    {
        match (self.position, byte as char) {
            (Position::Before(product), '(') => self.open(product, offset),
            (Position::Before(product), letter) => {
                let action = action(letter).ok_or(TermFault::Misplaced(offset))?;
                self.act(product, action, offset)
            }
            (Position::Behind(product), '+') => {
                self.choose(product);
                Ok(())
            }
            (Position::Behind(product), '.') => {
                self.position = Position::Before(Some(product));
                Ok(())
            }
            (Position::Behind(product), ')') if self.depth > 0 => {
                self.close(product);
                Ok(())
            }
            _ => Err(TermFault::Misplaced(offset)),
        }
    }

    // The term, at the end of its text.
    fn finish(&self, end: usize) -> Result<Term, TermFault>
        requires { Counted (partial self.now) }
        ensures { Finished self.now end result }
    {
        match self.position {
            Position::Behind(product) if self.depth == 0 => {
                let mut nodes = self.nodes;
                let root = nodes.add(self.sum, product);
                Ok(Term {
                    nodes,
                    root,
                    laid: Listing::of(nodes.subterm(root)),
                })
            }
            _ => Err(TermFault::Early(end)),
        }
    }
}

impl Term {
    ghost use Rattle.std.specs.Prelude.{◌≡◌, IfOk, MatchResult};
    ghost use Rattle.terms.specs.Faults.{TooLarge};
    ghost use Rattle.terms.specs.Graph.{ByRules, graph};
    ghost use Rattle.terms.specs.Grammar.{Spells, sum};
    ghost use Rattle.terms.specs.Reading.{refusal_of};
    ghost use Rattle.terms.specs.Scan.{first_refusal};
    ghost use Rattle.terms.specs.Syntax.{Tree};
    ghost use Rattle.terms.specs.Terms.{tree_of};

    // Reads a text: the term that it spells, or its first refusal.
    pub fn read(text: &[u8]) -> Result<Term, TermFault>
        ensures refuses { refusal_of result ≡ first_refusal text.now }
        ensures spelled { IfOk result (λ t. Spells sum 0 text.now (tree_of t)) }
        ensures reads { (u : Tree) → Spells sum 0 text.now u → MatchResult result (λ t. tree_of t ≡ u) TooLarge }
        ensures derived { IfOk result (λ t. ByRules (tree_of t) (graph (tree_of t))) }
    {
        if text.len() > MOST_BYTES {
            return Err(TermFault::Long);
        }
        let mut reader = Reader::new();
        for (offset, byte) in text.iter().enumerate() {
            reader.feed(*byte, offset)?;
        }
        reader.finish(text.len())
    }
}
