// How the table is filled and asked.
ghost use Rattle.std.specs.Prelude.{◌≡◌, ◌<◌, ◌≤◌};
ghost use Rattle.comparison.specs.Reach.{holds, weight, numbers, Cleared, Put, Reached, Missing};

use crate::reach::Reach;
use crate::round::Round;
use lts::{Steps, System};

impl Reach {
    pub fn new() -> Reach {
        Reach {
            cells: [0; 16384],
            stamp: 0,
        }
    }

    // Holds no pair any more.
    pub fn clear(&mut self)
        ensures { Cleared self.new }
    {
        if self.stamp < u16::MAX {
            self.stamp += 1;
            return;
        }
        self.cells = [0; 16384];
        self.stamp = 1;
    }

    pub fn has(&self, action: u8, class: u16) -> bool
        requires action { action ≤ 63 }
        requires class { class < 256 }
        ensures { result ≡ holds self.now action class }
    {
        self.cells[action as usize * 256 + class as usize] == self.stamp
    }

    // Adds a pair, and answers whether it is new.
    pub fn put(&mut self, action: u8, class: u16) -> bool
        requires action { action ≤ 63 }
        requires class { class < 256 }
        ensures { Put self.old action class result self.new }
    {
        let new = !self.has(action, class);
        self.cells[action as usize * 256 + class as usize] = self.stamp;
        new
    }

    // Holds just the pairs that state t reaches, and answers their number. No `filter` and `count`: each pair that is put changes the table.
    pub fn mark<S: System>(&mut self, round: &Round<'_, S>, t: usize) -> usize
        ensures reached { Reached (numbers round.now.before.now.class) ((S.meaning round.now.system.now).steps t) self.new }
        ensures weighed { result ≡ weight (numbers round.now.before.now.class) ((S.meaning round.now.system.now).steps t) }
    {
        self.clear();
        let mut pairs = 0;
        for (action, target) in Steps::of(round.system, t) {
            if self.put(action, round.before.class[target as usize]) {
                pairs += 1;
            }
        }
        pairs
    }

    // The first pair that state t reaches and that is not held. No `find`: what `has` asks of a pair is known of the steps of a state, and
    // of no closure's argument.
    pub fn missing<S: System>(&self, round: &Round<'_, S>, t: usize) -> Option<(u8, u16)>
        ensures { Missing (numbers round.now.before.now.class) ((S.meaning round.now.system.now).steps t) self.now result }
    {
        for (action, target) in Steps::of(round.system, t) {
            let into = round.before.class[target as usize];
            if !self.has(action, into) {
                return Some((action, into));
            }
        }
        None
    }
}
