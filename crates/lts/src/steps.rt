// The steps listed out of a state, one after another.
ghost use Rattle.std.specs.Prelude.{◌≡◌, drop};
ghost use Rattle.std.specs.Iterator.{YieldsFirst, item_count};

use crate::system::System;

#[derive(Drop)]
pub struct Steps<'a, S> {
    source: &'a S,
    state: usize,
    next: usize,
}

impl<'a, S: System> Steps<'a, S> {
    // All that are listed out of state s.
    pub fn of(source: &'a S, s: usize) -> Steps<'a, S>
        ensures { drop result.next ((S.meaning result.source.now).steps result.state) ≡ (S.meaning source.now).steps s }
    {
        Steps {
            source,
            state: s,
            next: 0,
        }
    }
}

impl<'a, S: System> Iterator for Steps<'a, S> {
    type Item = (u8, u8);

    ghost next_gives = { YieldsFirst (λ x. drop x.next ((S.meaning x.source.now).steps x.state)) };

    ghost remaining = { item_count (λ x. drop x.next ((S.meaning x.source.now).steps x.state)) };

    // An action and its target.
    fn next(&mut self) -> Option<(u8, u8)> {
        let step = self.source.step(self.state, self.next)?;
        self.next += 1;
        Some(step)
    }
}
