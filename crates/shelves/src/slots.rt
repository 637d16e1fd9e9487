// The table of slots.
ghost use Rattle.std.specs.Prelude.{◌≡◌, ◌<◌, Some, slice_set};

use crate::row::Row;

#[derive(Clone, Copy)]
pub struct Slots {
    pub rows: [Option<Row>; 8],
}

impl Slots {
    // Changes one slot, and no other.
    pub(crate) fn put(&mut self, slot: usize, row: Row)
        requires { slot < 8 }
        ensures { self.new.rows ≡ slice_set self.old.rows slot (Some row) }
    {
        self.rows[slot] = Some(row);
    }
}
