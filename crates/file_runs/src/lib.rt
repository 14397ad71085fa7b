// A file gone along from its first byte to its last, run by run. The granules of a run stand beside one another, and so do its bytes: whoever
// goes through a whole file gets one part of the image for each run, and walks each entry once.
#![tactic(auto)]

ghost use Rattle.std.specs.Prelude.{◌≡◌, ◌*◌, ◌<◌, ◌≤◌, length};
ghost use Rattle.meaning.specs.Layout.{granule_bytes};
ghost use Rattle.meaning.specs.Chain.{owned};
ghost use Rattle.seek.specs.Seek.{Walkable, Used};
ghost use Rattle.file_runs.specs.Along.{Along};

use layout::Disk;

// Bytes `from` to `to` of a file lie from `at` on in the image. What follows them begins with pair `pair` of the entry at `slot`; from there on
// `left` entries are looked at, at the most.
#[derive(Clone, Copy)]
pub struct FileRun {
    pub slot: usize,
    pub pair: usize,
    pub left: usize,
    pub from: usize,
    pub to: usize,
    pub at: usize,
}

// Before the first run of the file at slot s: no byte of it.
pub fn begin(disk: &Disk, s: usize) -> FileRun
    requires { Walkable disk.now.g disk.now.image.now × Used disk.now.g disk.now.image.now s }
    ensures { Along disk.now.g disk.now.image.now s result × (result.from ≡ 0) × (result.to ≡ 0) }
{
    FileRun {
        slot: s,
        pair: 0,
        left: disk.slots(),
        from: 0,
        to: 0,
        at: 0,
    }
}

// The run after c, of a file that has more granules: so past an entry's last pair there is an entry more. This goes by entries, as many as have
// no pair ahead.
fn next(disk: &Disk, s: usize, c: FileRun) -> FileRun
    requires { Walkable disk.now.g disk.now.image.now × Along disk.now.g disk.now.image.now s c
        × (c.to < granule_bytes disk.now.g * length (owned disk.now.g disk.now.image.now s)) × (c.to < 16777216) }
    ensures { Along disk.now.g disk.now.image.now s result × (result.from ≡ c.to) × (result.from < result.to) }
{
    let w = layout::granule_bytes(disk.g);
    let mut slot = c.slot;
    let mut pair = c.pair;
    let mut left = c.left;
    while disk.runs(slot) <= pair {
        slot = disk.field(slot, layout::LINK);
        pair = 0;
        left -= 1;
    }
    FileRun {
        slot,
        pair: pair + 1,
        left,
        from: c.to,
        to: c.to + w * disk.run_length(slot, pair),
        at: w * disk.run_start(slot, pair),
    }
}

// The run with byte i, which is of c or the first one after c.
pub fn reach(disk: &Disk, s: usize, c: FileRun, i: usize) -> FileRun
    requires { Walkable disk.now.g disk.now.image.now × Along disk.now.g disk.now.image.now s c × (c.from ≤ i) × (i ≤ c.to)
        × (i < granule_bytes disk.now.g * length (owned disk.now.g disk.now.image.now s)) × (i < 16777216) }
    ensures { Along disk.now.g disk.now.image.now s result × (result.from ≤ i) × (i < result.to) }
{
    if i < c.to { c } else { next(disk, s, c) }
}
