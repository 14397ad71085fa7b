// How far a file reaches, and how many granules a size needs.
#![tactic(auto)]

ghost use Rattle.std.specs.Prelude.{◌≡◌, ◌≤◌, length};
ghost use Rattle.meaning.specs.Layout.{granules_for};
ghost use Rattle.meaning.specs.Entries.{entry_granules};
ghost use Rattle.layout.specs.Room.{Slot, Below};
ghost use Rattle.seek.specs.Seek.{Walkable, Used};
ghost use Rattle.extent.specs.Reach.{Reaches};

use layout::Disk;
use meaning::Geometry;

// The last entry of a file, and how many granules the file owns.
#[derive(Clone, Copy)]
pub struct Extent {
    pub last: usize,
    pub owned: usize,
}

// How many granules that many bytes need. (The library's quotient rounded up is of Rust 1.73; the crates are built by older ones too.)
pub fn granules_for(g: Geometry, n: usize) -> usize
    requires { n ≤ 33554432 }
    ensures { result ≡ granules_for g n }
{
    let w = layout::granule_bytes(g);
    (n + (w - 1)) / w
}

// How many granules the runs of an entry hold.
pub fn entry_length(disk: &Disk, s: usize) -> usize
    requires { Slot disk.now.g disk.now.image.now s }
    ensures { Below 129 (length (entry_granules disk.now.g disk.now.image.now s)) result }
{
    let mut n = 0;
    // in one pass: `Disk::runs` would go over the pairs once more
    for k in 0..layout::PAIRS {
        if disk.field(s, layout::BLOCKS + 2 * k) == layout::ENDS {
            return n;
        }
        n += disk.run_length(s, k);
    }
    n
}

// How far the file at slot s reaches.
pub fn measure(disk: &Disk, s: usize) -> Extent
    requires { Walkable disk.now.g disk.now.image.now × Used disk.now.g disk.now.image.now s }
    ensures { Reaches disk.now.g disk.now.image.now s result }
{
    let mut at = s;
    let mut last = s;
    let mut owned = 0;
    for _ in 0..disk.slots() {
        last = at;
        owned += entry_length(disk, at);
        if disk.field(at, layout::MARKER) != layout::HANDS_ON {
            return Extent { last, owned };
        }
        at = disk.field(at, layout::LINK);
    }
    Extent { last, owned }
}
