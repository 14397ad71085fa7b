// The walk along a file's chain: it tests every entry that it meets, and takes the entry's granules off the owner map.
#![tactic(auto)]

ghost use Rattle.std.specs.Prelude.{◌≡◌, ◌+◌, ◌-◌, ◌*◌, ◌<◌, ◌≤◌, ◌||◌, ltb};
ghost use Rattle.meaning.specs.Lists.{count, every};
ghost use Rattle.meaning.specs.Layout.{field};
ghost use Rattle.meaning.specs.Entries.{link, marker};
ghost use Rattle.meaning.specs.Chain.{chain_from};
ghost use Rattle.layout.specs.Room.{Slot, Read};
ghost use Rattle.check_map.specs.Owners.{standing};
ghost use Rattle.check_walk.specs.Walk.{Place, runs_of, TakesRun, Entered, Walked, unused, goes_on, marker_holds, chain_holds, onward};

use layout::Disk;

// Where the entry of a slot is.
pub fn entry_at(disk: &Disk, s: usize) -> usize
    requires { Slot disk.now.g disk.now.image.now s }
    ensures { Place disk.now.g disk.now.image.now s result }
{
    layout::entry_at(disk.image, disk.g, s)
}

// Byte k of the entry of slot s, which is at `at`.
pub fn field_at(disk: &Disk, s: usize, at: usize, k: usize) -> usize
    requires { Place disk.now.g disk.now.image.now s at × (k < 32) }
    ensures { Read (field disk.now.g disk.now.image.now s k) result }
{
    usize::from(disk.image[at + k])
}

// Takes run k of an entry off the map. Its length; none if it is not on the disk, or a granule of it is not open. A run within one block is the common
// case: one test of one byte, and its block's number says whether it is on the disk.
fn take_run(disk: &Disk, s: usize, at: usize, k: usize, map: &mut [u8; 192]) -> Option<usize>
    requires { Place disk.now.g disk.now.image.now s at × (k < 4) }
    ensures { TakesRun disk.now.g disk.now.image.now s k 1 (standing disk.now.g disk.now.image.now map.old)
        (standing disk.now.g disk.now.image.now map.new) result }
{
    let second = field_at(disk, s, at, layout::SECONDS + 2 * k);
    let block = field_at(disk, s, at, layout::BLOCKS + 2 * k);
    let unit = second / 32;
    let n = 1 + second % 32;
    if unit + n <= disk.g.units {
        if disk.g.blocks <= block || !check_map::take_units(map, disk.g.units, block, unit, n) {
            return None;
        }
        return Some(n);
    }
    if disk.g.units <= unit
        || layout::granules(disk.g) < block * disk.g.units + unit + n
        || !check_map::take_long(map, disk.g.units, block, unit, n)
    {
        return None;
    }
    Some(n)
}

// Whether pair j of an entry stands before pair k, or is no run.
fn no_run(disk: &Disk, s: usize, at: usize, k: usize, j: usize) -> bool
    requires { Place disk.now.g disk.now.image.now s at × (j < 4) }
    ensures { result ≡ (ltb j k || unused disk.now.g disk.now.image.now s j) }
{
    j < k || field_at(disk, s, at, layout::BLOCKS + 2 * j) == layout::ENDS
}

// Whether no pair of an entry from k on is a run. The four are written out: a loop from k on takes twice as many steps.
fn no_runs(disk: &Disk, s: usize, at: usize, k: usize) -> bool
    requires { Place disk.now.g disk.now.image.now s at }
    ensures { result ≡ every (unused disk.now.g disk.now.image.now s) (count k (4 - k)) }
{
    no_run(disk, s, at, k, 0)
        && no_run(disk, s, at, k, 1)
        && no_run(disk, s, at, k, 2)
        && no_run(disk, s, at, k, 3)
}

// What an entry's pairs gave: how many runs, and how many granules.
#[derive(Clone, Copy)]
pub struct Pairs {
    pub runs: usize,
    pub granules: usize,
}

// Takes the granules of an entry off the map. None where its pairs are not as they must be.
pub fn take_runs(disk: &Disk, s: usize, at: usize, map: &mut [u8; 192]) -> Option<Pairs>
    requires { Place disk.now.g disk.now.image.now s at }
    ensures { Entered disk.now.g disk.now.image.now s 1 (standing disk.now.g disk.now.image.now map.old)
        (standing disk.now.g disk.now.image.now map.new) result }
{
    let mut n = 0;
    for k in 0..layout::PAIRS {
        if field_at(disk, s, at, layout::BLOCKS + 2 * k) == layout::ENDS {
            if !no_runs(disk, s, at, k) {
                return None;
            }
            return Some(Pairs {
                runs: k,
                granules: n,
            });
        }
        match take_run(disk, s, at, k, map) {
            Some(len) => n += len,
            None => return None,
        }
    }
    Some(Pairs {
        runs: layout::PAIRS,
        granules: n,
    })
}

// Whether an entry with so many runs leads on, to an extension of the same file: h is the file's HIT byte.
#[tactic(auto, using(crate::proofs::WalkSteps::is_one), unfolding(crate::specs::Walk::goes_on, meaning::specs::Lists::all))]
fn goes_on(disk: &Disk, s: usize, at: usize, runs: usize, h: usize) -> bool
    requires { Place disk.now.g disk.now.image.now s at × (runs ≡ runs_of disk.now.g disk.now.image.now s) }
    ensures { result ≡ goes_on disk.now.g disk.now.image.now h s }
{
    let t = field_at(disk, s, at, layout::LINK);
    field_at(disk, s, at, layout::MARKER) == layout::HANDS_ON
        && runs == 4
        && disk.is_slot(t)
        && disk.field(t, layout::FLAGS) == 0x90
        && disk.field(t, layout::BACK) == s
        && disk.field(t, layout::BLOCKS) != layout::ENDS
        && disk.hit(t) == h
}

// The whole chain of a file, from its primary entry on.
pub fn file_walk(
    disk: &Disk,
    s: usize,
    at: usize,
    left: usize,
    h: usize,
    sectors: usize,
    map: &mut [u8; 192],
    met: &mut [u8; 256],
) -> bool
    requires { Place disk.now.g disk.now.image.now s at × (128 * left ≤ 65536) }
    ensures { Walked disk.now.g disk.now.image.now 1 sectors 0 (chain_holds disk.now.g disk.now.image.now h left s)
        (chain_from disk.now.g disk.now.image.now left s) (standing disk.now.g disk.now.image.now map.old) (standing disk.now.g disk.now.image.now map.new)
        met.old met.new result }
{
    entry_walk(disk, s, at, left, h, sectors, 0, map, met)
}

// The entry of slot s, of a file with HIT byte h, and what its marker leads to: at most `left` entries. `met` has 1 for each slot not
// met so far, and `owned` granules were met before. The sector count must fit the granules of the whole chain.
// This walk and the next call each other, and each call is the last thing that is done: a compiler makes one loop of both, since nothing that is
// handed over stands in the caller's frame. The disk does not: it is handed on as it came.
#[cycle(entry_walk_marker_walk)]
fn entry_walk(
    disk: &Disk,
    s: usize,
    at: usize,
    left: usize,
    h: usize,
    sectors: usize,
    owned: usize,
    map: &mut [u8; 192],
    met: &mut [u8; 256],
) -> bool
    requires { Place disk.now.g disk.now.image.now s at × (owned + 128 * left ≤ 65536) }
    ensures { Walked disk.now.g disk.now.image.now 1 sectors owned (chain_holds disk.now.g disk.now.image.now h left s)
        (chain_from disk.now.g disk.now.image.now left s) (standing disk.now.g disk.now.image.now map.old) (standing disk.now.g disk.now.image.now map.new)
        met.old met.new result }
{
    if left == 0 || met[s] == 0 {
        return false;
    }
    met[s] = 0;
    let p = match take_runs(disk, s, at, map) {
        Some(p) => p,
        None => return false,
    };
    let owned = owned + p.granules;
    if field_at(disk, s, at, layout::MARKER) == layout::ENDS {
        return sectors <= layout::granule_sectors(disk.g) * owned;
    }
    marker_walk(disk, s, at, p.runs, left - 1, h, sectors, owned, map, met)
}

// The marker of slot s, which does not end the file, and what it leads to.
#[cycle(entry_walk_marker_walk)]
fn marker_walk(
    disk: &Disk,
    s: usize,
    at: usize,
    runs: usize,
    left: usize,
    h: usize,
    sectors: usize,
    owned: usize,
    map: &mut [u8; 192],
    met: &mut [u8; 256],
) -> bool
    requires { Place disk.now.g disk.now.image.now s at × (runs ≡ runs_of disk.now.g disk.now.image.now s) × (owned + 128 * left ≤ 65536)
        × (marker disk.now.g disk.now.image.now s ≡ 0xff → ⊥) }
    ensures { Walked disk.now.g disk.now.image.now 1 sectors owned
        (marker_holds disk.now.g disk.now.image.now h s (chain_holds disk.now.g disk.now.image.now h left (link disk.now.g disk.now.image.now s)))
        (onward disk.now.g disk.now.image.now s (chain_from disk.now.g disk.now.image.now left (link disk.now.g disk.now.image.now s)))
        (standing disk.now.g disk.now.image.now map.old) (standing disk.now.g disk.now.image.now map.new) met.old met.new result }
{
    if !goes_on(disk, s, at, runs, h) {
        return false;
    }
    let t = field_at(disk, s, at, layout::LINK);
    let to = entry_at(disk, t);
    entry_walk(disk, t, to, left, h, sectors, owned, map, met)
}
