// What the rounds so far tell of the two starts.
ghost use Rattle.std.specs.Prelude.{◌≡◌, ◌<◌, length, slice_index};
ghost use Rattle.comparison.specs.Found.{watched};

use crate::partition::Partition;

// The first round that told them apart, and the line of the left start's class there.
#[derive(Clone, Copy)]
pub struct Apart {
    pub line: u16,
    pub depth: u16,
}

// What is known behind round k, which has these classes. The right start is state `right`.
pub fn watch(starts: Option<Apart>, classes: &Partition, k: usize, right: usize) -> Option<Apart>
    requires sized { length classes.now.class ≡ 256 }
    requires marks { length classes.now.marks ≡ 256 }
    requires class { slice_index classes.now.class 0 < 256 }
    requires round { k < 65536 }
    requires right { right < 256 }
    ensures { result ≡ watched starts classes.now k right }
{
    let start = classes.class[0];
    starts.or_else(|| {
        (start != classes.class[right]).then(|| Apart {
            line: classes.marks[start as usize],
            depth: k as u16,
        })
    })
}
