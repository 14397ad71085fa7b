// Free space from the GAT alone: one pass over the bytes of the disk's blocks. A block all of whose granules are free, or all taken, is met in
// one step, and so are eight such blocks of eight granules; any other is met bit by bit. A stretch goes on from block to block, and no granule
// number is worked out, so nothing is divided. space::free_count counts by whole bytes: it cannot serve here, for the longest stretch hangs on
// which bits are clear and not on how many.
#![tactic(auto)]

ghost use Rattle.std.specs.Prelude.{◌≡◌, ◌≤◌, IfSome};
ghost use Rattle.meaning.specs.FreeSpace.{free_space};
ghost use Rattle.free_space.specs.Pass.{Gat, EightBlocks, RoomLeft, BlockPassed, Tells, ended, longer, met};

use meaning::{Geometry, Space};
use refusal::Why;

// What the pass has seen so far: the free granules of the stretches that have ended, those of the stretch that has not, and how long the
// longest of those that have ended is.
#[derive(Clone, Copy)]
pub struct Seen {
    pub free: usize,
    pub here: usize,
    pub longest: usize,
}

// The stretch ends.
#[tactic(auto, unfolding(crate::specs::Pass::ended))]
fn ended(p: Seen) -> Seen
    requires { RoomLeft 0 p }
    ensures { result ≡ ended p }
{
    Seen {
        free: p.free + p.here,
        here: 0,
        longest: p.longest.max(p.here),
    }
}

// n granules more, all free: the stretch goes on.
fn longer(p: Seen, n: usize) -> Seen
    requires { RoomLeft 0 p × (n ≤ 64) }
    ensures { result ≡ longer p n }
{
    Seen {
        here: p.here + n,
        ..p
    }
}

// One granule more, taken or free.
fn met(taken: bool, p: Seen) -> Seen
    requires { RoomLeft 0 p }
    ensures { result ≡ met taken p }
{
    if taken { ended(p) } else { longer(p, 1) }
}

// The granules of one block, bit by bit: so many of the lowest bits of its GAT byte.
fn each_bit(byte: usize, units: usize, p: Seen) -> Seen
    requires { RoomLeft units p }
    ensures { BlockPassed units byte p result }
{
    let mut q = p;
    let mut x = byte;
    for _ in 0..units {
        q = met(x % 2 == 1, q);
        x >>= 1;
    }
    q
}

// The granules of one block. Where all are free the stretch goes on over them, where all are taken it ends, once for all of them.
fn block(byte: usize, units: usize, p: Seen) -> Seen
    requires { RoomLeft units p × (1 ≤ units) × (units ≤ 8) }
    ensures { BlockPassed units byte p result }
{
    let all = 1 << units;
    let low = byte % all;
    if low == 0 {
        return longer(p, units);
    }
    if low == all - 1 {
        return ended(p);
    }
    each_bit(byte, units, p)
}

// The GAT bytes of eight blocks from block b on as one number, where there are so many and each has eight granules.
fn octet(image: &[u8], g: Geometry, b: usize) -> Option<u64>
    requires { Gat g image.now × (b ≤ g.blocks) }
    ensures { IfSome result (λ x. EightBlocks g image.now b x) }
{
    if g.units != 8 || g.blocks < b + 8 {
        return None;
    }
    Some(layout::eight(image, layout::gat_at(image, g, b)))
}

// Eight bytes that are all FFH.
const ALL_TAKEN: u64 = u64::MAX;

// The whole pass. The last stretch ends with the last block.
fn pass(image: &[u8], g: Geometry) -> Seen
    requires { Gat g image.now }
    ensures { Tells g image.now result }
{
    let mut seen = Seen {
        free: 0,
        here: 0,
        longest: 0,
    };
    let mut b = 0;
    // a turn goes on by one block or by eight
    while b < g.blocks {
        match octet(image, g, b) {
            Some(0) => {
                seen = longer(seen, 64);
                b += 8;
            }
            Some(ALL_TAKEN) => {
                seen = ended(seen);
                b += 8;
            }
            _ => {
                seen = block(layout::gat_byte(image, g, b), g.units, seen);
                b += 1;
            }
        }
    }
    ended(seen)
}

// Free space: the number of free granules and the longest free stretch, on any image whose length fits.
pub fn free_space(image: &[u8], g: Geometry) -> Space
    ensures { result ≡ free_space g image.now }
{
    if !layout::fits_geometry(image, g) {
        return Space {
            refusal: Why::WrongGeometry.refusal(),
            free: 0,
            longest: 0,
        };
    }
    let seen = pass(image, g);
    Space {
        refusal: refusal::none(),
        free: seen.free,
        longest: seen.longest,
    }
}
