// One state of a round finds its class.
ghost use Rattle.std.specs.Prelude.{◌+◌, ◌<◌, length};
ghost use Rattle.comparison.specs.Drafts.{Followed};
ghost use Rattle.comparison.specs.Marks.{written, Kept};
ghost use Rattle.comparison.specs.Standing.{Working, Parting};

use crate::draft::{Draft, Weighed};
use crate::reach::Reach;
use crate::round::Round;
use crate::script::Script;
use crate::split::Split;
use lts::System;

impl<'a, S: System> Round<'a, S> {
    // State s founds a class of its own by the split that tells it from its leader.
    fn found(&self, s: Weighed, split: Split, draft: &mut Draft, script: &mut Script)
        requires state { s.state < (S.meaning self.now.system.now).count }
        requires working { Working (S.meaning self.now.system.now) self.now.k s.state self.now.before.now (written script.old) draft.old }
        requires parting { Parting (S.meaning self.now.system.now) s self.now.before.now draft.old split }
        ensures working { Working (S.meaning self.now.system.now) self.now.k (s.state + 1) self.now.before.now (written script.new) draft.new }
        ensures kept { Kept (written script.old) (written script.new) }
    {
        let into = self.before.marks[split.into as usize];
        let mark = draft.next.marks[split.from as usize];
        let (with, without) = script.divide(split.action, into, mark);
        if split.side {
            draft.part(s, split, with, without);
        } else {
            draft.part(s, split, without, with);
        }
    }

    // State s joins class d, whose leader it is like, and leads it where it lists fewer steps.
    fn follow(&self, s: Weighed, leader: Weighed, d: u16, draft: &mut Draft)
        requires state { s.state < length draft.old.next.class }
        requires number { s.state < 256 }
        requires class { d < length draft.old.leaders }
        ensures { Followed draft.old s d draft.new }
    {
        let steps = |x: Weighed| self.system.step_count(x.state as usize);
        if steps(s) < steps(leader) {
            draft.lead(s, d);
        } else {
            draft.join(s.state, d);
        }
    }

    // Settles state s: it joins the class where the splits so far send it, if it reaches just what the leader
    // there does, and founds a new one otherwise.
    pub fn settle(&self, s: usize, draft: &mut Draft, here: &mut Reach, script: &mut Script)
        requires state { s < (S.meaning self.now.system.now).count }
        requires working { Working (S.meaning self.now.system.now) self.now.k s self.now.before.now (written script.old) draft.old }
        ensures working { Working (S.meaning self.now.system.now) self.now.k (s + 1) self.now.before.now (written script.new) draft.new }
        ensures kept { Kept (written script.old) (written script.new) }
    {
        let weight = here.mark(self, s) as u16;
        let d = draft
            .links
            .sent(self.before.class[s], self.before.count, here);
        let s = Weighed {
            state: s as u16,
            weight,
        };
        let Some(leader) = draft.leader(d) else {
            draft.lead(s, d);
            return;
        };
        match self.contrast(s, leader, d, here) {
            Some(split) => self.found(s, split, draft, script),
            None => self.follow(s, leader, d, draft),
        }
    }
}
