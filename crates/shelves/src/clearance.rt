// A clearance for the pending procedure of a slot. It must be spent by exactly one release or withdrawal.
ghost use Rattle.std.specs.Prelude.{◌≡◌, true};
ghost use Rattle.shelves.specs.Runs.{clearance_of};

use crate::call::Numbers;

pub struct Clearance {
    pub(crate) numbers: Numbers,
    // A flag in the token: it may be let go only once it was spent, which is a fact and no type.
    pub(crate) spent: bool,
}

// Nothing public makes a clearance of numbers: that would forge one. So it has no `From`.
impl Clearance {
    // An unspent clearance with these numbers.
    pub(crate) fn with(numbers: Numbers) -> Clearance
        ensures { result ≡ clearance_of numbers }
    {
        Clearance {
            numbers,
            spent: false,
        }
    }

    // Its numbers, of which a list of calls keeps track.
    pub(crate) fn numbers(self) -> Numbers
        ensures { result ≡ self.numbers }
    {
        let Clearance { numbers, spent: _ } = self;
        numbers
    }
}

// Only a spent clearance may be let go.
impl Drop for Clearance {
    fn drop(self)
        requires { self.spent ≡ true }
    {
        let Clearance {
            numbers: _,
            spent: _,
        } = self;
    }
}
