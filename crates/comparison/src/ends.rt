// The classes of round 0: states alike in their end marks.
ghost use Rattle.std.specs.Prelude.{◌≡◌, []};
ghost use Rattle.comparison.specs.Ended.{Ended};
ghost use Rattle.comparison.specs.Marks.{written};
ghost use Rattle.comparison.specs.Standing.{Standing};

use crate::partition::Partition;
use crate::script::Script;
use formulas::Line;
use lts::System;

// The class of each state, and how many classes there are.
#[derive(Clone, Copy)]
struct Ends {
    class: [u16; 256],
    count: usize,
}

// Class 0 has the states that are like the start, class 1 the others.
fn end_classes<S: System>(system: &S) -> Ends
    ensures { Ended (S.meaning system.now) (S.meaning system.now).count result.class result.count }
{
    let start = system.is_end(0);
    let mut class = [0; 256];
    let mut count = 1;
    for s in 0..system.states() {
        if system.is_end(s) == start {
            class[s] = 0;
        } else {
            class[s] = 1;
            count = 2;
        }
    }
    Ends { class, count }
}

// The classes of round 0, with the first lines.
pub fn by_ends<S: System>(system: &S, script: &mut Script) -> Partition
    requires { written script.old ≡ [] }
    ensures { Standing (S.meaning system.now) 0 (written script.new) result }
{
    let Ends { class, count } = end_classes(system);
    if count == 1 {
        let all = script.push(Line::True);
        return Partition {
            class,
            marks: [all; 256],
            count,
        };
    }
    let ends = script.push(Line::End);
    let others = script.push(Line::Not(ends));
    let mut marks = [ends; 256];
    if system.is_end(0) {
        marks[1] = others;
    } else {
        marks[0] = others;
    }
    Partition {
        class,
        marks,
        count,
    }
}
