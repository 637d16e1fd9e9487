// The classes of a round from those of the round before.
ghost use Rattle.std.specs.Prelude.{◌+◌};
ghost use Rattle.comparison.specs.Links.{Linked};
ghost use Rattle.comparison.specs.Marks.{written, Kept};
ghost use Rattle.comparison.specs.Standing.{Standing};

use crate::draft::Draft;
use crate::partition::Partition;
use crate::reach::Reach;
use crate::round::Round;
use crate::script::Script;
use lts::System;

impl<'a, S: System> Round<'a, S> {
    // The classes of round k + 1. The draft, the table and the lines outlive a round, so they are lent to it.
    pub fn refined(&self, draft: &mut Draft, here: &mut Reach, script: &mut Script) -> Partition
        requires standing { Standing (S.meaning self.now.system.now) self.now.k (written script.old) self.now.before.now }
        requires linked { Linked draft.old.links }
        ensures standing { Standing (S.meaning self.now.system.now) (self.now.k + 1) (written script.new) result }
        ensures linked { Linked draft.new.links }
        ensures kept { Kept (written script.old) (written script.new) }
    {
        draft.begin(self.before);
        for s in 0..self.system.states() {
            self.settle(s, draft, here, script);
        }
        draft.next
    }
}
