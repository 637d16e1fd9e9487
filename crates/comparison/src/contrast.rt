// What tells a state from the leader of its class.
ghost use Rattle.comparison.specs.Reach.{numbers, Reached};
ghost use Rattle.comparison.specs.Contrasts.{Weighs, Contrast};

use crate::draft::Weighed;
use crate::reach::Reach;
use crate::round::Round;
use crate::split::Split;
use lts::System;

impl<'a, S: System> Round<'a, S> {
    // The split of class `from` by a pair that one of s and its leader reaches and the other does not.
    // The table `here` holds the pairs of s.
    pub fn contrast(
        &self,
        s: Weighed,
        leader: Weighed,
        from: u16,
        here: &mut Reach,
    ) -> Option<Split>
        requires reached { Reached (numbers self.now.before.now.class) ((S.meaning self.now.system.now).steps s.state) here.old }
        requires pairs { Weighs (S.meaning self.now.system.now) (numbers self.now.before.now.class) s }
        requires leads { Weighs (S.meaning self.now.system.now) (numbers self.now.before.now.class) leader }
        ensures { Contrast (S.meaning self.now.system.now) (numbers self.now.before.now.class) s leader from result }
    {
        if s.weight == leader.weight {
            let _ = here.missing(self, leader.state as usize)?;
        }
        let _ = here.mark(self, leader.state as usize);
        if let Some((action, into)) = here.missing(self, s.state as usize) {
            return Some(Split {
                from,
                action,
                into,
                side: true,
            });
        }
        let _ = here.mark(self, s.state as usize);
        let (action, into) = here.missing(self, leader.state as usize)?;
        Some(Split {
            from,
            action,
            into,
            side: false,
        })
    }
}
