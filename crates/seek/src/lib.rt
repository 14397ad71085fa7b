// The granules of a file, found by walking its chain.
#![tactic(auto)]

ghost use Rattle.std.specs.Prelude.{◌≡◌, ◌+◌, ◌*◌, ◌<◌, ◌≤◌, get_or};
ghost use Rattle.meaning.specs.Lists.{each};
ghost use Rattle.meaning.specs.Entries.{entry_granules};
ghost use Rattle.meaning.specs.Chain.{chain_from, owned, place};
ghost use Rattle.layout.specs.Room.{Slot};
ghost use Rattle.seek.specs.Seek.{Walkable, Used, Sought};

use layout::Disk;

// Granule k of an entry, or how far past the entry's granules k is.
pub fn seek_entry(disk: &Disk, s: usize, k: usize) -> Result<usize, usize>
    requires { Slot disk.now.g disk.now.image.now s × (k < 4294967296) }
    ensures { Sought (entry_granules disk.now.g disk.now.image.now s) k result }
{
    let mut left = k;
    for j in 0..layout::PAIRS {
        if disk.field(s, layout::BLOCKS + 2 * j) == layout::ENDS {
            return Err(left);
        }
        let len = disk.run_length(s, j);
        if left < len {
            return Ok(disk.run_start(s, j) + left);
        }
        left -= len;
    }
    Err(left)
}

// Granule k of a file from the entry at slot s on; 0 past the last, as `place` has it.
pub fn entry_walk(disk: &Disk, s: usize, k: usize, left: usize) -> usize
    requires { Walkable disk.now.g disk.now.image.now × Used disk.now.g disk.now.image.now s × (k < 65536) }
    ensures { (result ≡ get_or (each (entry_granules disk.now.g disk.now.image.now) (chain_from disk.now.g disk.now.image.now left s)) k 0)
        × (result ≤ k + 2080) }
{
    let mut at = s;
    let mut seek = k;
    for _ in 0..left {
        match seek_entry(disk, at, seek) {
            Ok(granule) => return granule,
            Err(past) => seek = past,
        }
        if disk.field(at, layout::MARKER) != layout::HANDS_ON {
            return 0;
        }
        at = disk.field(at, layout::LINK);
    }
    0
}

// Granule k of the file at slot s.
pub fn owned_at(disk: &Disk, s: usize, k: usize) -> usize
    requires { Walkable disk.now.g disk.now.image.now × Used disk.now.g disk.now.image.now s × (k < 65536) }
    ensures { (result ≡ get_or (owned disk.now.g disk.now.image.now s) k 0) × (result ≤ k + 2080) }
{
    entry_walk(disk, s, k, disk.slots())
}

// Where byte i of the file at slot s lies in the image.
pub fn place(disk: &Disk, s: usize, i: usize) -> usize
    requires { Walkable disk.now.g disk.now.image.now × Used disk.now.g disk.now.image.now s × (i < 16777216) }
    ensures { result ≡ place disk.now.g disk.now.image.now s i }
{
    let w = layout::granule_bytes(disk.g);
    w * owned_at(disk, s, i / w) + i % w
}
