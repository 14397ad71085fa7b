// What a growth looks for: the granule and the slot that come next, and whether there are enough of both. The disk stays as it is.
#![tactic(auto)]

ghost use Rattle.std.specs.Prelude.{◌≡◌, ◌+◌, ◌*◌, ◌≤◌, ◌<◌, length, ltb, MatchOption};
ghost use Rattle.meaning.specs.Layout.{granules, most_units};
ghost use Rattle.meaning.specs.Free.{free_granules};
ghost use Rattle.layout.specs.Room.{Slot};
ghost use Rattle.growth_search.specs.Search.{Ends, IsClear, ClearFrom, AllClear, NextFree, LongestFrom, NextSlot};

use layout::Disk;

// The runs of an entry; the granule after the last of them, and how long that one is. `long` is 32 where there is none: who asks wants to know
// whether the run can get longer, and one of 32 cannot.
#[derive(Clone, Copy)]
pub struct Ending {
    pub runs: usize,
    pub after: usize,
    pub long: usize,
}

// A free stretch: its lowest granule, and how many it has.
#[derive(Clone, Copy)]
pub struct Found {
    pub low: usize,
    pub long: usize,
}

// Whether fewer than k granules are free. From the last block on: growth takes the lowest granules, so that free ones are met soonest there.
pub fn too_few(disk: &Disk, k: usize) -> bool
    ensures { result ≡ ltb (length (free_granules disk.now.g disk.now.image.now)) k }
{
    let mut n = 0;
    let mut b = disk.g.blocks;
    // eight blocks a step, and those that are left one by one
    while 8 <= b {
        if k <= n {
            return false;
        }
        b -= 8;
        n += space::free_in_eight(disk, b);
    }
    for rest in (0..b).rev() {
        if k <= n {
            return false;
        }
        n += space::clear_bits(layout::gat_byte(disk.image, disk.g, rest), disk.g.units);
    }
    n < k
}

// The lowest granule from `from` on that is clear in the GAT. A block that is taken is one step.
pub fn next_free(disk: &Disk, from: usize) -> usize
    requires { from ≤ granules disk.now.g }
    ensures { NextFree disk.now.g disk.now.image.now from result }
{
    let total = layout::granules(disk.g);
    let mut n = from;
    // a step is a granule or a block: no `for`
    while n < total {
        if space::block_taken(disk, n) {
            n += disk.g.units;
            continue;
        }
        if !disk.taken(n) {
            return n;
        }
        n += 1;
    }
    n
}

// The longest free stretch from `from` on, the lower of two as long. The first of `most` granules ends the search.
pub fn longest_from(disk: &Disk, from: usize, most: usize) -> Found
    requires { from ≤ granules disk.now.g }
    ensures { LongestFrom disk.now.g disk.now.image.now from most result }
{
    let total = layout::granules(disk.g);
    let mut here = 0;
    let mut low = from;
    let mut long = 0;
    for n in from..total {
        if disk.taken(n) {
            here = 0;
            continue;
        }
        here += 1;
        if here <= long {
            continue;
        }
        long = here;
        low = n + 1 - here;
        if most <= long {
            return Found { low, long };
        }
    }
    Found { low, long }
}

// The first free permitted slot from `from` on, if there is one.
pub fn next_slot(disk: &Disk, from: usize) -> Option<usize>
    requires { from ≤ 256 }
    ensures { MatchOption result (NextSlot disk.now.g disk.now.image.now from 256) (λ s. NextSlot disk.now.g disk.now.image.now from s × (s < 256)) }
{
    let n = disk.columns();
    for s in from..256 {
        if disk.hit(s) == 0 && s % 32 < n && space::kept_columns(disk.g, s / 32) <= s % 32 {
            return Some(s);
        }
    }
    None
}

// The runs of the entry at slot e, and where the last of them ends.
pub fn last_run(disk: &Disk, e: usize) -> Ending
    requires { Slot disk.now.g disk.now.image.now e }
    ensures { Ends disk.now.g disk.now.image.now e result }
{
    let runs = disk.runs(e);
    if runs == 0 {
        return Ending {
            runs,
            after: 0,
            long: 32,
        };
    }
    let long = disk.run_length(e, runs - 1);
    Ending {
        runs,
        after: disk.run_start(e, runs - 1) + long,
        long,
    }
}

// Whether granule n is on the disk and clear in the GAT.
pub fn is_clear(disk: &Disk, n: usize) -> bool
    ensures { IsClear disk.now.g disk.now.image.now n result }
{
    n < layout::granules(disk.g) && !disk.taken(n)
}

// How many granules of block b are clear from unit u on, up to the first that is taken, n at the most: a bit set behind the last ends the count.
fn units_clear(disk: &Disk, b: usize, u: usize, n: usize) -> usize
    requires { (256 * disk.now.g.start + b < length disk.now.image.now) × (u + n ≤ disk.now.g.units) }
    ensures { ClearFrom disk.now.g disk.now.image.now (b * disk.now.g.units + u) n result }
{
    let x = layout::gat_byte(disk.image, disk.g, b);
    usize::trailing_zeros((x >> u) | (1 << n)) as usize
}

// How many granules are clear from a on, up to the first that is taken, n at the most: block by block.
pub fn clear_from(disk: &Disk, a: usize, n: usize) -> usize
    requires { a + n ≤ granules disk.now.g }
    ensures { ClearFrom disk.now.g disk.now.image.now a n result }
{
    let mut b = a / disk.g.units;
    let mut u = a % disk.g.units;
    let mut left = n;
    // a step is what is left of a block: no `for`
    while disk.g.units < u + left {
        let m = units_clear(disk, b, u, disk.g.units - u);
        if m < disk.g.units - u {
            return n - left + m;
        }
        left -= disk.g.units - u;
        b += 1;
        u = 0;
    }
    n - left + units_clear(disk, b, u, left)
}

// Whether granules n to n + many - 1 are on the disk and clear in the GAT.
pub fn all_clear(disk: &Disk, n: usize, many: usize) -> bool
    ensures { AllClear disk.now.g disk.now.image.now n many result }
{
    for met in 0..many {
        if !is_clear(disk, n + met) {
            return false;
        }
    }
    true
}
