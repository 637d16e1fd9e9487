// What is left in the caller's buffers.
ghost use Rattle.std.specs.Prelude.{◌≡◌, ◌<◌, ◌≤◌, ◌++◌, length, take, drop};
ghost use Rattle.comparison.specs.Buffers.{told, left_in, FitsLines};
ghost use Rattle.comparison.specs.Marks.{written};

use crate::report::Verdict;
use crate::script::Script;
use crate::starts::Apart;
use formulas::Line;

// Puts the first n of `from` in front of what stands in `to` from place n on.
pub fn put_front<T: Copy>(from: &[T], n: usize, to: &mut [T])
    requires from { n ≤ length from.now }
    requires to { n ≤ length to.old }
    ensures { to.new ≡ take n from.now ++ drop n to.old }
{
    to[0..n].copy_from_slice(&from[0..n]);
}

// The verdict, with its lines left in the buffer.
pub fn judged(starts: Option<Apart>, script: &Script, lines: &mut [Line]) -> Verdict
    requires { FitsLines starts (written script.now) lines.old }
    ensures verdict { result ≡ told starts }
    ensures lines { lines.new ≡ left_in starts (written script.now) lines.old }
{
    match starts {
        None => Verdict::Same,
        Some(at) => {
            let count = at.line as usize + 1;
            put_front(&script.lines, count, lines);
            Verdict::Different {
                lines: count as u16,
                line: at.line,
                depth: at.depth,
            }
        }
    }
}
