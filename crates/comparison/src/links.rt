// The splits of a round linked by the class that they split, so that a state follows only those of its own class.
ghost use Rattle.std.specs.Prelude.{◌≡◌, ◌+◌, ◌<◌, ◌≤◌, length, None, slice_index_or};
ghost use Rattle.comparison.specs.Reach.{holds};
ghost use Rattle.comparison.specs.Landing.{sent, Drawn};
ghost use Rattle.comparison.specs.Links.{begun, unlinked, cleared, pushed, Born, Linked};

use crate::reach::Reach;
use crate::split::Split;

// The first and the last split of a class.
#[derive(Clone, Copy)]
pub struct Chain {
    pub first: u16,
    pub last: u16,
}

// Each split, with the chain of its class.
#[derive(Drop)]
pub struct Links {
    // The splits so far, in their order, in an array with their number: the core allocates nothing.
    pub splits: [Split; 256],
    pub made: usize,
    // The chain of each class that was split.
    pub chains: [Option<Chain>; 256],
    // The next split of the same class, for each split.
    pub nexts: [Option<u16>; 256],
}

impl Links {
    // No split yet.
    pub fn new() -> Links
        ensures { result ≡ unlinked }
    {
        Links {
            splits: [Split {
                from: 0,
                action: 0,
                into: 0,
                side: false,
            }; 256],
            made: 0,
            chains: [None; 256],
            nexts: [None; 256],
        }
    }

    // No split any more. What was linked stays in the arrays, since no class leads to it.
    pub fn clear(&mut self)
        ensures { self.new ≡ cleared self.old }
    {
        self.made = 0;
        self.chains = [None; 256];
    }

    // The first split of class c.
    fn first(&self, c: u16) -> Option<u16>
        requires size { length self.now.chains ≡ 256 }
        requires low { c < 256 }
        ensures { result ≡ begun (slice_index_or self.now.chains c None) }
    {
        self.chains[c as usize].map(|chain| chain.first)
    }

    // One split more, linked behind the last one of its class.
    pub fn push(&mut self, split: Split)
        requires linked { Linked self.old }
        requires room { self.old.made < 256 }
        requires low { split.from < 256 }
        ensures pushed { self.new ≡ pushed self.old split self.new.chains self.new.nexts }
        ensures linked { Linked self.new }
    {
        let made = self.made as u16;
        let first = match self.chains[split.from as usize] {
            None => made,
            Some(chain) => {
                self.nexts[chain.last as usize] = Some(made);
                chain.first
            }
        };
        self.chains[split.from as usize] = Some(Chain { first, last: made });
        self.nexts[self.made] = None;
        self.splits[self.made] = split;
        self.made += 1;
    }

    // Where the splits so far send a state of class `from` whose pairs the table holds; the first split made
    // class `first`.
    pub fn sent(&self, from: u16, first: usize, here: &Reach) -> u16
        requires linked { Linked self.now }
        requires born { Born first self.now }
        requires room { first + self.now.made ≤ 256 }
        requires low { from < 256 }
        requires drawn { Drawn self.now.splits self.now.made }
        ensures { result ≡ sent (holds here.now) self.now.splits first from self.now.made }
    {
        let mut class = from;
        let mut next = self.first(from);
        while let Some(j) = next {
            let split = self.splits[j as usize];
            next = if here.has(split.action, split.into) == split.side {
                class = (first + j as usize) as u16;
                self.first(class)
            } else {
                self.nexts[j as usize]
            };
        }
        class
    }
}
