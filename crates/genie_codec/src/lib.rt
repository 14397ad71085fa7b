// What a host holds of the library's values: a disk as five numbers and a flag, a handle as 19 bytes, a name as 11, flags as numbers.
#![tactic(auto)]

ghost use Rattle.std.specs.Prelude.{◌≡◌, cond, ◌+◌, ◌≤◌, length};
ghost use Rattle.std.proofs.lemmas.List.Edits.{sets};
ghost use Rattle.layout.specs.Room.{Below};
ghost use Rattle.genie_codec.specs.Codec.{two, handle_of, stored};
ghost use Rattle.genie_codec.specs.Words.{geometry, mode_of, told, flags_of};

use differences::Difference;
use meaning::{Geometry, Handle, Mode};

pub const HANDLE_BYTES: usize = 19;

pub const NAME_BYTES: usize = 11;

// The disk that a host states by its numbers and its flag.
pub fn geometry(
    blocks: usize,
    units: usize,
    start: usize,
    open_code: u16,
    system_disk: bool,
    granule_sectors: usize,
) -> Geometry
    ensures { result ≡ geometry blocks units start open_code system_disk granule_sectors }
{
    Geometry {
        blocks,
        units,
        start,
        noPassword: open_code,
        system: system_disk,
        granule: granule_sectors,
    }
}

// The handle that the first 19 bytes hold.
pub fn handle_of(b: &[u8]) -> Handle
    requires { 19 ≤ length b.now }
    ensures { result ≡ handle_of b.now }
{
    let mut name = [0; NAME_BYTES];
    name.copy_from_slice(&b[8..HANDLE_BYTES]);
    Handle {
        slot: usize::from(b[0]),
        name,
        at: u32::from_le_bytes([b[4], b[5], b[6], b[7]]) as usize,
        len: usize::from(u16::from_le_bytes([b[2], b[3]])),
        level: usize::from(b[1]),
    }
}

// A name goes to the 11 bytes from `at` on.
pub fn put_name(b: &mut [u8], at: usize, name: [u8; 11])
    requires { at + 11 ≤ length b.old }
    ensures { b.new ≡ sets b.old at name }
{
    copy::put_part(b, at, &name, 0, NAME_BYTES);
}

// The handle goes to the first 19 bytes. A cast must fit, so `to_le_bytes` would need the same remainders first: no plainer.
pub fn put_handle(b: &mut [u8], h: Handle)
    requires { 19 ≤ length b.old }
    ensures { b.new ≡ stored b.old h }
{
    let numbers = [
        (h.slot % 256) as u8,
        (h.level % 256) as u8,
        (h.len % 256) as u8,
        (h.len / 256 % 256) as u8,
        (h.at % 256) as u8,
        (h.at / 256 % 256) as u8,
        (h.at / 256 / 256 % 256) as u8,
        (h.at / 256 / 256 / 256 % 256) as u8,
    ];
    copy::put_part(b, 0, &numbers, 0, 8);
    let name = h.name;
    put_name(b, 8, name);
}

pub fn mode_of(sequential: bool) -> Mode
    ensures { result ≡ mode_of sequential }
{
    if sequential {
        Mode::Sequential
    } else {
        Mode::Random
    }
}

pub fn told(b: bool) -> usize
    ensures { result ≡ told b }
{
    usize::from(b)
}

// A truth as a number of its own, so that several can be added.
fn flag(b: bool, n: usize) -> usize
    ensures { (result ≡ cond b n 0) × (result ≤ n) }
{
    if b { n } else { 0 }
}

// What differs of a file: 1 the size, 2 the date, 4 other attributes, 8 the contents.
pub fn flags_of(x: Difference) -> usize
    ensures { result ≡ flags_of x }
{
    flag(x.size, 1) + flag(x.date, 2) + flag(x.other, 4) + flag(x.contents, 8)
}
