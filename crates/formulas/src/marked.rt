// The steps to states that a row of marks has.
ghost use Rattle.std.specs.Prelude.{◌≡◌, ◌==◌, ◌&&◌, slice_index};
ghost use Rattle.std.specs.List.{find};
ghost use Rattle.formulas.specs.Marked.{FirstMarked};

use lts::{Steps, System};

// The first listed step of state s by the action to a state that the row marks.
fn first_step<S: System>(source: &S, s: usize, action: u8, row: &[u8]) -> Option<(u8, u8)>
    ensures { result ≡ find (λ x. (x.0 == action) && (slice_index row.now x.1 == 1)) ((S.meaning source.now).steps s) }
{
    Steps::of(source, s).find(|(a, t)| *a == action && row.get(*t as usize) == Some(&1))
}

// The target of that step.
pub fn first_marked<S: System>(source: &S, s: usize, action: u8, row: &[u8]) -> Option<u8>
    ensures { FirstMarked ((S.meaning source.now).steps s) action row.now result }
{
    let (_, target) = first_step(source, s, action, row)?;
    Some(target)
}
