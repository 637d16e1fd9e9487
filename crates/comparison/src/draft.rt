// A round in progress: the classes of the next round as far as they are known.
ghost use Rattle.std.specs.Prelude.{◌≡◌, ◌<◌, length, None, slice_index_or};
ghost use Rattle.comparison.specs.Drafts.{fresh, joined, led, parted, FitsIn};
ghost use Rattle.comparison.specs.Links.{Linked};

use crate::links::Links;
use crate::partition::Partition;
use crate::split::Split;

// A state, and how many pairs its steps reach.
#[derive(Clone, Copy)]
pub struct Weighed {
    pub state: u16,
    pub weight: u16,
}

// The next round so far, and what its states are held against.
#[derive(Drop)]
pub struct Draft {
    pub next: Partition,
    // The splits so far: each made one class.
    pub links: Links,
    // A state that was settled in each class, which the next ones are held against.
    pub leaders: [Option<Weighed>; 256],
}

impl Draft {
    // Room for a round.
    pub fn new() -> Draft
        ensures { Linked result.links }
    {
        Draft {
            next: Partition {
                class: [0; 256],
                marks: [0; 256],
                count: 0,
            },
            links: Links::new(),
            leaders: [None; 256],
        }
    }

    // A round begins behind these classes: nothing is split, and no state settled.
    pub fn begin(&mut self, old: &Partition)
        ensures { self.new ≡ fresh old.now self.old.links }
    {
        self.next = *old;
        self.links.clear();
        self.leaders = [None; 256];
    }

    // The leader of class d, where it has one.
    pub fn leader(&self, d: u16) -> Option<Weighed>
        requires size { length self.now.leaders ≡ 256 }
        requires class { d < 256 }
        ensures { result ≡ slice_index_or self.now.leaders d None }
    {
        self.leaders[d as usize]
    }

    // State s joins class d.
    pub fn join(&mut self, s: u16, d: u16)
        requires state { s < length self.old.next.class }
        requires number { s < 256 }
        ensures { self.new ≡ joined self.old s d }
    {
        self.next.class[s as usize] = d;
    }

    // State s joins class d, and leads it.
    pub fn lead(&mut self, s: Weighed, d: u16)
        requires state { s.state < length self.old.next.class }
        requires number { s.state < 256 }
        requires class { d < length self.old.leaders }
        ensures { self.new ≡ led self.old s d }
    {
        self.join(s.state, d);
        self.leaders[d as usize] = Some(s);
    }

    // State s leaves its class by a split, and leads a new class. The new class has the line `gone`, what
    // stays behind the line `stays`.
    pub fn part(&mut self, s: Weighed, split: Split, gone: u16, stays: u16)
        requires fits { FitsIn self.old s split }
        requires linked { Linked self.old.links }
        ensures parted { self.new ≡ parted self.old s split gone stays self.new.links.chains self.new.links.nexts }
        ensures linked { Linked self.new.links }
    {
        let new = self.next.count;
        self.links.push(split);
        self.next.marks[split.from as usize] = stays;
        self.next.marks[new] = gone;
        self.next.count = new + 1;
        self.lead(s, new as u16);
    }
}
