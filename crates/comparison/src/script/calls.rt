// How lines are added.
ghost use Rattle.std.specs.Prelude.{◌≡◌, ◌+◌, ◌<◌, ◌≤◌, [], length};
ghost use Rattle.comparison.specs.Marks.{written, with_line, divided};

use crate::script::Script;
use formulas::Line;

impl Script {
    pub fn new() -> Script
        ensures { written result ≡ [] }
    {
        Script {
            lines: [Line::True; 1024],
            used: 0,
        }
    }

    // Adds a line, and answers its number.
    pub fn push(&mut self, line: Line) -> u16
        requires { length (written self.old) < 1024 }
        ensures lines { written self.new ≡ with_line (written self.old) line }
        ensures number { result ≡ length (written self.old) }
    {
        let number = self.used;
        self.lines[number] = line;
        self.used = number + 1;
        number as u16
    }

    // Divides the states of line `mark` by a step of the action to where line `into` holds. The first
    // answer is the line of those with such a step, the second of those without.
    pub fn divide(&mut self, action: u8, into: u16, mark: u16) -> (u16, u16)
        requires { length (written self.old) + 4 ≤ 1024 }
        ensures lines { written self.new ≡ divided (written self.old) action into mark }
        ensures with { result.0 ≡ length (written self.old) + 1 }
        ensures without { result.1 ≡ length (written self.old) + 3 }
    {
        let step = self.push(Line::Step(action, into));
        let with = self.push(Line::Both(mark, step));
        let lacking = self.push(Line::Not(step));
        let without = self.push(Line::Both(mark, lacking));
        (with, without)
    }
}
