// Granules taken and given back, entries cleared; the free slots and granules.
#![tactic(auto)]

ghost use Rattle.std.specs.Prelude.{◌≡◌, ◌+◌, ◌*◌, ◌%◌, ◌<◌, ◌≤◌, length, take, eqb, [], ◌∷◌};
ghost use Rattle.std.specs.Option.{option_to_list};
ghost use Rattle.meaning.specs.Lists.{count, each, through, all, every, some};
ghost use Rattle.meaning.specs.Free.{free_granules, free_slots};
ghost use Rattle.meaning.specs.Layout.{granules, taken, take_granule, free_granule, most_units};
ghost use Rattle.meaning.specs.Kill.{kill_entry};
ghost use Rattle.meaning.specs.Entries.{entry_granules};
ghost use Rattle.meaning.specs.Chain.{chain_from, chain, owned};
ghost use Rattle.layout.specs.Room.{Room, Slot, Read};
ghost use Rattle.seek.specs.Seek.{Walkable, Used};
ghost use Rattle.space.specs.Clear.{clear_bits, free_in};
ghost use Rattle.space.specs.Keeps.{Keeps};
ghost use Rattle.space.specs.OnDisk.{RunsOnDisk};
ghost use Rattle.space.specs.Marks.{put_bit, mark, mask};

use layout::Disk;
use meaning::Geometry;

// Clears bit 4 of an entry, and its HIT byte.
pub fn kill_entry(image: &mut [u8], g: Geometry, s: usize)
    requires { Room g image.old × Slot g image.old s }
    ensures { image.new ≡ kill_entry g image.old s }
{
    let flags = Disk { image, g }.field(s, layout::FLAGS);
    layout::set_field(
        image,
        g,
        s,
        layout::FLAGS,
        layout::without_bit(flags, layout::IN_USE),
    );
    layout::set_hit(image, g, s, 0);
}

// n bits from bit u on.
fn mask(u: usize, n: usize) -> usize
    requires { u + n ≤ 8 }
    ensures { Read (mask u n) result }
{
    ((1 << n) - 1) << u
}

// A GAT byte with n bits from bit u on put: set, or clear. Which of the two goes along as a flag, as in `mark` of specs/, over which both are
// one contract; a closure would need its own in each of three signatures.
fn put_bits(byte: usize, u: usize, n: usize, set: bool) -> usize
    requires { (byte < 256) × (u + n ≤ 8) }
    ensures { Read (through (put_bit set) byte (count u n)) result }
{
    let bits = mask(u, n);
    if set {
        byte | bits
    } else {
        byte - (byte & bits)
    }
}

// Takes or gives back n granules of block b from unit u on, by one store.
fn mark_units(image: &mut [u8], g: Geometry, b: usize, u: usize, n: usize, set: bool)
    requires { (256 * g.start + b < length image.old) × (u + n ≤ g.units) × (g.units ≤ most_units) }
    ensures { image.new ≡ through (mark g set) image.old (count (b * g.units + u) n) }
{
    let at = layout::gat_at(image, g, b);
    image[at] = put_bits(usize::from(image[at]), u, n, set) as u8;
}

// Takes or gives back n granules from a on, block by block. The first block's part may be short, and the last one's: no step is like the next,
// and this loop and that of `run_taken` stay a `while`.
pub fn mark_run(image: &mut [u8], g: Geometry, a: usize, n: usize, set: bool)
    requires { Room g image.old × (a + n ≤ granules g) }
    ensures { image.new ≡ through (mark g set) image.old (count a n) }
{
    let mut b = a / g.units;
    let mut u = a % g.units;
    let mut left = n;
    while g.units < u + left {
        mark_units(image, g, b, u, g.units - u, set);
        left -= g.units - u;
        b += 1;
        u = 0;
    }
    mark_units(image, g, b, u, left, set);
}

// Gives back n granules from a on.
pub fn free_run(image: &mut [u8], g: Geometry, a: usize, n: usize)
    requires { Room g image.old × (a + n ≤ granules g) }
    ensures { image.new ≡ through (free_granule g) image.old (count a n) }
{
    mark_run(image, g, a, n, false);
}

// Takes n granules from a on.
pub fn take_run(image: &mut [u8], g: Geometry, a: usize, n: usize)
    requires { Room g image.old × (a + n ≤ granules g) }
    ensures { image.new ≡ through (take_granule g) image.old (count a n) }
{
    mark_run(image, g, a, n, true);
}

// Whether one of n granules of block b from unit u on is taken, by one mask.
fn units_taken(disk: &Disk, b: usize, u: usize, n: usize) -> bool
    requires { (256 * disk.now.g.start + b < length disk.now.image.now) × (u + n ≤ disk.now.g.units) }
    ensures { result ≡ some (taken disk.now.g disk.now.image.now) (count (b * disk.now.g.units + u) n) }
{
    layout::gat_byte(disk.image, disk.g, b) & mask(u, n) != 0
}

// Whether one of n granules from a on is taken, block by block.
pub fn run_taken(disk: &Disk, a: usize, n: usize) -> bool
    requires { a + n ≤ granules disk.now.g }
    ensures { result ≡ some (taken disk.now.g disk.now.image.now) (count a n) }
{
    let mut b = a / disk.g.units;
    let mut u = a % disk.g.units;
    let mut left = n;
    while disk.g.units < u + left {
        if units_taken(disk, b, u, disk.g.units - u) {
            return true;
        }
        left -= disk.g.units - u;
        b += 1;
        u = 0;
    }
    units_taken(disk, b, u, left)
}

// Takes or gives back the granules of the entry at slot s, run by run. A pair is read once, and not by `runs`, `run_start` and `run_length`: between
// two stores rustc reads it anew for each of them, and a kill of a scattered file costs a third more.
fn mark_entry(image: &mut [u8], g: Geometry, s: usize, set: bool)
    requires { Room g image.old × RunsOnDisk g image.old s }
    ensures { image.new ≡ through (mark g set) image.old (entry_granules g image.old s) }
{
    for j in 0..layout::PAIRS {
        let disk = Disk { image, g };
        let block = disk.field(s, layout::BLOCKS + 2 * j);
        if block == layout::ENDS {
            return;
        }
        let second = disk.field(s, layout::SECONDS + 2 * j);
        let a = block * g.units + second / 32;
        let len = 1 + second % 32;
        mark_run(image, g, a, len, set);
    }
}

// Gives back the granules of the entry at slot s.
pub fn free_entry(image: &mut [u8], g: Geometry, s: usize)
    requires { Walkable g image.old × Used g image.old s }
    ensures { image.new ≡ through (free_granule g) image.old (entry_granules g image.old s) }
{
    mark_entry(image, g, s, false);
}

// Takes the granules of the entry at slot s.
pub fn take_entry(image: &mut [u8], g: Geometry, s: usize)
    requires { Room g image.old × RunsOnDisk g image.old s }
    ensures { image.new ≡ through (take_granule g) image.old (entry_granules g image.old s) }
{
    mark_entry(image, g, s, true);
}

// Gives back the granules of a file from the entry at slot s on, `most` entries at the most.
pub fn free_chain(image: &mut [u8], g: Geometry, s: usize, most: usize)
    requires { Walkable g image.old × Used g image.old s }
    ensures { image.new ≡ through (free_granule g) image.old
        (each (entry_granules g image.old) (chain_from g image.old most s)) }
{
    let mut at = s;
    for _ in 0..most {
        free_entry(image, g, at);
        let disk = Disk { image, g };
        if disk.field(at, layout::MARKER) != layout::HANDS_ON {
            return;
        }
        at = disk.field(at, layout::LINK);
    }
}

// Clears the entries of a file from the one at slot s on. Each is left by what its marker and link said before. The walk is that of `free_chain`
// but for that; one walk over a closure would have to say of any step what it keeps of the entries and what all steps make, and be no plainer.
pub fn kill_chain(image: &mut [u8], g: Geometry, s: usize, most: usize)
    requires { Walkable g image.old × Used g image.old s }
    ensures { image.new ≡ through (kill_entry g) image.old (chain_from g image.old most s) }
{
    let mut at = s;
    for _ in 0..most {
        let disk = Disk { image, g };
        let marker = disk.field(at, layout::MARKER);
        let link = disk.field(at, layout::LINK);
        kill_entry(image, g, at);
        if marker != layout::HANDS_ON {
            return;
        }
        at = link;
    }
}

// What an accepted kill leaves of the image.
pub fn kill_file(image: &mut [u8], g: Geometry, s: usize)
    requires { Walkable g image.old × Used g image.old s }
    ensures { image.new ≡ through (kill_entry g) (through (free_granule g) image.old (owned g image.old s))
        (chain g image.old s) }
{
    let most = Disk { image, g }.slots();
    free_chain(image, g, s, most);
    kill_chain(image, g, s, most);
}

// How many slots of a row are kept, and never permitted: they are its first ones. On a system disk eight each in rows 0 to 3, on a data disk
// slots 00H and 01H. Whoever wants a slot for an entry asks this function.
pub fn kept_columns(g: Geometry, row: usize) -> usize
    ensures { Keeps g row result }
{
    match (g.system, row) {
        (true, 0..=3) => 8,
        (false, 0) => 2,
        _ => 0,
    }
}

// The first permitted slot with HIT byte 0, by rising slot number, if there is one. A row begins behind its kept slots.
pub fn first_free_slot(disk: &Disk) -> Option<usize>
    ensures { option_to_list result ≡ take 1 (free_slots disk.now.g disk.now.image.now) }
{
    let n = disk.columns();
    let mut found = None;
    // left by a label: the form that 01 names for this place
    'rows: for row in 0..8 {
        for s in kept_columns(disk.g, row)..n {
            let slot = 32 * row + s;
            if disk.hit(slot) == 0 {
                found = Some(slot);
                break 'rows;
            }
        }
    }
    found
}

// How many of the lowest bits of a GAT byte are clear.
pub fn clear_bits(byte: usize, bits: usize) -> usize
    requires { bits ≤ 8 }
    ensures { (result ≡ clear_bits bits byte) × (result ≤ 8) }
{
    let low = byte % (1 << bits);
    bits - low.count_ones() as usize
}

// Whether none of them is.
fn all_set(byte: usize, bits: usize) -> bool
    requires { (bits ≤ 8) × (byte < 256) }
    ensures { result ≡ eqb (clear_bits bits byte) 0 }
{
    let m = 1 << bits;
    byte % m == m - 1
}

// Whether a block begins with granule n and all its granules are taken.
pub fn block_taken(disk: &Disk, n: usize) -> bool
    requires { n < granules disk.now.g }
    ensures { result ≡ all (eqb (n % disk.now.g.units) 0 ∷ every (taken disk.now.g disk.now.image.now) (count n disk.now.g.units) ∷ []) }
{
    n % disk.g.units == 0
        && all_set(
            layout::gat_byte(disk.image, disk.g, n / disk.g.units),
            disk.g.units,
        )
}

// 1 in each of eight bytes.
const ONE_EACH: u64 = 0x0101_0101_0101_0101;

// How many granules of eight blocks from block b on are free: what is set of their bits is counted in one number.
pub fn free_in_eight(disk: &Disk, b: usize) -> usize
    requires { b + 8 ≤ disk.now.g.blocks }
    ensures { (result ≡ free_in disk.now.g disk.now.image.now (b * disk.now.g.units) (8 * disk.now.g.units)) × (result ≤ 64) }
{
    let x = layout::eight(disk.image, layout::gat_at(disk.image, disk.g, b));
    let bits = mask(0, disk.g.units) as u64 * ONE_EACH;
    8 * disk.g.units - (x & bits).count_ones() as usize
}

// How many granules are free, by one pass over the GAT, eight bytes at a time: the listing asks for the number alone, and the pass of
// `free_space`, which looks for the longest stretch too, would cost it its time. From the last block on, as a growth counts
// (`growth_search`), so that the same laws serve both.
pub fn free_count(disk: &Disk) -> usize
    ensures { result ≡ length (free_granules disk.now.g disk.now.image.now) }
{
    let mut n = 0;
    let mut b = disk.g.blocks;
    // eight blocks a step, and those that are left one by one
    while 8 <= b {
        b -= 8;
        n += free_in_eight(disk, b);
    }
    for rest in (0..b).rev() {
        n += clear_bits(layout::gat_byte(disk.image, disk.g, rest), disk.g.units);
    }
    n
}
