// The steps of a term's states, written out once. What can come first of the whole term, and of the second part of each sequence,
// stands in a run of its own, and each state has one of these runs.
ghost use Rattle.std.specs.Prelude.{◌≡◌, ℕ, ◌<◌, false, length, nat_eq, slice_index_or};
ghost use Rattle.lts.specs.Layout.{many};

use crate::nodes::{Parts, Subterm};
use lts::{Laid, Run};

#[derive(Drop)]
pub struct Listing {
    // The runs of the states, in their order: so many were given one.
    pub laid: Laid<64, 63>,
    // How many steps are listed: an array with its count, since the core allocates nothing.
    pub listed: u16,
    ghost steps_room: { length laid.steps ≡ 63 },
    ghost runs_room: { length laid.runs ≡ 64 },
    ghost ends_room: { length laid.ends ≡ 64 },
    ghost ended: { (s : ℕ) → s < laid.states → slice_index_or laid.ends s false ≡ nat_eq (many laid s) 0 },
}

impl Listing {
    ghost use Rattle.std.specs.Prelude.{◌≡◌, ◌+◌, ◌<◌, ◌≤◌, length};
    ghost use Rattle.terms.specs.Graph.{firsts};
    ghost use Rattle.terms.specs.Lists.{Shows, Listed, Given, Pushed, Fits, Follows, Drawn};
    ghost use Rattle.terms.specs.Syntax.{size};
    ghost use Rattle.terms.specs.Table.{subtree};

    fn new() -> Listing
        ensures listed { result.listed ≡ 0 }
        ensures states { result.laid.states ≡ 0 }
    {
        Listing {
            laid: Laid {
                states: 0,
                ends: [false; 64],
                runs: [Run { from: 0, count: 0 }; 64],
                steps: [(0, 0); 63],
            },
            listed: 0,
        }
    }

    // One step more.
    fn push(&mut self, action: u8, place: u8)
        requires { self.old.listed < 63 }
        ensures { Pushed self.old action place self.new }
    {
        self.laid.steps[self.listed as usize] = (action, place);
        self.listed += 1;
    }

    // The run of one state more: where it holds no step, nothing remains.
    fn give(&mut self, run: Run)
        requires { self.old.laid.states < 64 }
        ensures { Given self.old run self.new }
    {
        let s = self.laid.states;
        self.laid.runs[s] = run;
        self.laid.ends[s] = run.count == 0;
        self.laid.states += 1;
    }

    // Lists the actions that can come first.
    fn first(&mut self, term: Subterm)
        requires { self.old.listed + length (firsts (subtree term)) ≤ 63 }
        ensures { Listed self.old (firsts (subtree term.entry)) self.new }
    {
        match term.parts() {
            Parts::Action(a, i) => self.push(a, i),
            Parts::Choice(x, y) => {
                self.first(x);
                self.first(y);
            }
            Parts::Sequence(x, _) => self.first(x),
        }
    }

    // A run of the actions that can come first.
    fn run(&mut self, term: Subterm) -> Run
        requires { self.old.listed + length (firsts (subtree term)) ≤ 63 }
        ensures listed { Listed self.old (firsts (subtree term.entry)) self.new }
        ensures shows { Shows self.new result (firsts (subtree term.entry)) }
    {
        let from = self.listed;
        self.first(term);
        Run {
            from,
            count: self.listed - from,
        }
    }

    // Gives a run to the state behind each action, in text order; `then` is the run of what follows the term.
    fn behind(&mut self, term: Subterm, then: Run)
        requires { Fits self.old then (subtree term) }
        ensures { Follows self.old (subtree term.entry) then self.new }
    {
        match term.parts() {
            Parts::Action(_, _) => self.give(then),
            Parts::Choice(x, y) => {
                self.behind(x, then);
                self.behind(y, then);
            }
            Parts::Sequence(x, y) => {
                let second = self.run(y);
                self.behind(x, second);
                self.behind(y, then);
            }
        }
    }

    // The states of a term, with their ends and steps.
    pub(crate) fn of(term: Subterm) -> Laid<64, 63>
        requires { size (subtree term) ≤ 63 }
        ensures { Drawn (subtree term.entry) result }
    {
        let mut listing = Listing::new();
        let whole = listing.run(term);
        listing.give(whole);
        listing.behind(term, Run { from: 0, count: 0 });
        listing.laid
    }
}
