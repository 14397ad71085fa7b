// The owner map (02, §8): one bit a granule, laid out as the GAT is, a byte a block. A bit is clear where the granule is open: its GAT bit is
// set, and no run holds it so far. So "its GAT bit is set" and "it is in no two runs" are one test, and a run is tested and taken by masks.
#![tactic(auto)]

ghost use Rattle.std.specs.Prelude.{◌≡◌, ◌+◌, ◌*◌, ◌<◌, ◌≤◌, length, get_or};
ghost use Rattle.meaning.specs.Layout.{most_blocks, most_units};
ghost use Rattle.layout.specs.Room.{Read};
ghost use Rattle.check_map.specs.Owners.{TakesStretch, GatMap, Window};
ghost use Rattle.check_map.specs.Eight.{PutsEight, Spans, Among};

use layout::Disk;

// The first of the map's last eight bytes: eight from there on are the last that are read at once.
pub const LAST_EIGHT: usize = 184;

// The GAT: a bit is clear where the GAT's is set.
pub fn gat_map(disk: &Disk, map: &mut [u8; 192])
    requires { length map.old ≡ most_blocks }
    ensures { GatMap disk.now.g disk.now.image.now map.new }
{
    let image = disk.image;
    let gat = layout::gat_at(image, disk.g, 0);
    for b in 0..192 {
        map[b] = 255 - image[gat + b];
    }
}

// The byte of a block. A slice's length is known, an array's behind a reference is not: hence a function of its own.
fn byte_of(map: &[u8], block: usize) -> usize
    requires { block < length map.now }
    ensures { Read (get_or map.now block 0) result }
{
    usize::from(map[block])
}

// Takes n granules of one block, from `unit` on. Whether all were open.
pub fn take_units(map: &mut [u8; 192], units: usize, block: usize, unit: usize, n: usize) -> bool
    requires { (block < most_blocks) × (unit + n ≤ units) × (units ≤ most_units) × (1 ≤ n) }
    ensures { TakesStretch units map.old (block * units + unit) n map.new result }
{
    let mask = ((1 << n) - 1) << unit;
    let x = byte_of(map, block);
    if x & mask != 0 {
        return false;
    }
    map[block] = (x | mask) as u8;
    true
}

// The same over several blocks, one after the other.
fn take_blocks(map: &mut [u8; 192], units: usize, block: usize, unit: usize, n: usize) -> bool
    requires { (unit < units) × (units ≤ most_units) × (block * units + unit + n ≤ most_blocks * units) × (1 ≤ n) × (n ≤ 32) }
    ensures { TakesStretch units map.old (block * units + unit) n map.new result }
{
    let mut b = block;
    let mut u = unit;
    let mut left = n;
    // A step takes what is left of a block, at first less than a whole one: no range counts these steps.
    while units < u + left {
        if !take_units(map, units, b, u, units - u) {
            return false;
        }
        left -= units - u;
        b += 1;
        u = 0;
    }
    take_units(map, units, b, u, left)
}

// Puts the eight bytes of x into the map, lowest first.
fn put_eight(map: &mut [u8; 192], at: usize, x: u64)
    requires { (length map.old ≡ most_blocks) × (at + 8 ≤ most_blocks) }
    ensures { PutsEight map.old at x map.new }
{
    map[at..at + 8].copy_from_slice(&x.to_le_bytes());
}

// Takes a run of a disk with 8 units a block: there the granules stand one after the other in the map, and the run in eight bytes of it.
fn take_stretch(map: &mut [u8; 192], block: usize, unit: usize, n: usize) -> bool
    requires { (unit < most_units) × (block * 8 + unit + n ≤ most_blocks * 8) × (1 ≤ n) × (n ≤ 32) }
    ensures { TakesStretch 8 map.old (block * 8 + unit) n map.new result }
{
    let at = block.min(LAST_EIGHT);
    let shift = 8 * (block - at) + unit;
    let mask = ((1u64 << n) - 1) << shift;
    let x = layout::eight(map, at);
    if x & mask != 0 {
        return false;
    }
    put_eight(map, at, x | mask);
    true
}

// Takes a run that goes over one block's end.
pub fn take_long(map: &mut [u8; 192], units: usize, block: usize, unit: usize, n: usize) -> bool
    requires { (unit < units) × (units ≤ most_units) × (block * units + unit + n ≤ most_blocks * units) × (1 ≤ n) × (n ≤ 32) }
    ensures { TakesStretch units map.old (block * units + unit) n map.new result }
{
    if units == 8 {
        return take_stretch(map, block, unit, n);
    }
    take_blocks(map, units, block, unit, n)
}

// The bits of n granules from a on, in the eight bytes of the map from `at` on.
pub fn directory_bits(units: usize, a: usize, n: usize, at: usize) -> u64
    requires { (1 ≤ units) × (units ≤ most_units) × (n ≤ 6) × (a + n ≤ most_blocks * units) × Spans units a n at }
    ensures { Window units a n at result }
{
    let mut bits = 0u64;
    for k in a..a + n {
        bits |= 1u64 << (8 * (k / units - at) + k % units);
    }
    bits
}

// Those of the bits that are set in the map.
pub fn among(map: &[u8; 192], at: usize, bits: u64) -> u64
    requires { at + 8 ≤ most_blocks }
    ensures { Among map.now at bits result }
{
    layout::eight(map, at) & bits
}
