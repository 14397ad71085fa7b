// Read program files (02 §12): one record a call.
#![tactic(auto)]

ghost use Rattle.std.specs.Prelude.{◌≡◌, [], ◌∷◌, ◌++◌, cond, ◌+◌, ◌<◌, ◌≤◌, length, get_or, take, drop, leb, eqb};
ghost use Rattle.meaning.specs.Lists.{all};
ghost use Rattle.meaning.specs.Refusals.{check};
ghost use Rattle.meaning.specs.Handles.{in_range};
ghost use Rattle.layout.specs.Room.{Read};
ghost use Rattle.load.specs.Records.{data_code, is_code, follows, bad_count, told_at, record_from};
ghost use Rattle.load.specs.Load.{bytes_of, most_bytes, load_record};
ghost use Rattle.load_record.specs.Program.{Program, broken, Looked, Found};

use layout::Disk;
use load::{Item, Loaded, NextRecord};
use meaning::{Geometry, Handle, Refusal};

// The codes of a program's items: numbers and no enum, since `load::Item` and `load::NextRecord` have them as numbers.
const DATA: usize = 1;

const START: usize = 2;

const COMMENT: usize = 5;

const UNKNOWN_CODE: u8 = 31;

const FILE_ENDS: u8 = 32;

const WRONG_COUNT: u8 = 33;

// The most data bytes that a record has.
const MOST_BYTES: usize = 255;

// Byte i of a file.
pub fn byte_at(disk: &Disk, s: usize, size: usize, i: usize) -> usize
    requires { Program disk.now.g disk.now.image.now s size × (i < size) }
    ensures { Read (get_or (bytes_of disk.now.g disk.now.image.now s) i 0) result }
{
    usize::from(disk.image[seek::place(disk, s, i)])
}

#[tactic(auto, unfolding(load::specs::Records::is_code, meaning::specs::Lists::any))]
fn is_code(c: usize) -> bool
    ensures { result ≡ is_code c }
{
    matches!(c, DATA | START | COMMENT)
}

fn bad_count(c: usize, n: usize) -> bool
    ensures { result ≡ bad_count c n }
{
    c == START && n != 2
}

// How many bytes follow code c and count n.
#[tactic(auto, unfolding(load::specs::Records::follows, load::specs::Records::data_bytes))]
fn follows(c: usize, n: usize) -> usize
    requires { n < 256 }
    ensures { (result ≡ follows c n) × (result ≤ 257) }
{
    match c {
        DATA if n < 2 => 256 + n,
        START => 2,
        _ => n,
    }
}

// No whole record or comment.
fn broken(number: u8, position: usize) -> Item
    ensures { result ≡ broken number position }
{
    Item {
        number,
        position,
        code: 0,
        rest: 0,
    }
}

// What stands at place i of a file.
pub fn item(disk: &Disk, s: usize, size: usize, i: usize) -> Item
    requires { Program disk.now.g disk.now.image.now s size × (i < 16777216) }
    ensures { Looked (bytes_of disk.now.g disk.now.image.now s) i result }
{
    if size <= i {
        return broken(FILE_ENDS, size);
    }
    let code = byte_at(disk, s, size, i);
    if !is_code(code) {
        return broken(UNKNOWN_CODE, i);
    }
    if size <= i + 1 {
        return broken(FILE_ENDS, size);
    }
    let count = byte_at(disk, s, size, i + 1);
    if bad_count(code, count) {
        return broken(WRONG_COUNT, i + 1);
    }
    let rest = follows(code, count);
    if size < i + 2 + rest {
        return broken(FILE_ENDS, size);
    }
    Item {
        number: 0,
        position: 0,
        code,
        rest,
    }
}

// The place moves only with a data record, to just behind it.
fn place_after(code: usize, behind: usize, i: usize) -> usize
    ensures { result ≡ cond (eqb code data_code) behind i }
{
    if code == DATA { behind } else { i }
}

// What stands at place p, told to who asked at place i.
pub fn told(disk: &Disk, s: usize, size: usize, i: usize, p: usize, x: Item) -> NextRecord
    requires { Program disk.now.g disk.now.image.now s size × (p < 16777216) × Looked (bytes_of disk.now.g disk.now.image.now s) p x × (x.code ≡ 5 → ⊥) }
    ensures { Found (bytes_of disk.now.g disk.now.image.now s) (told_at (bytes_of disk.now.g disk.now.image.now s) i p) result }
{
    if x.number != 0 {
        return NextRecord {
            number: x.number,
            position: x.position,
            kind: 0,
            address: 0,
            from: p + 4,
            count: 0,
            next: i,
        };
    }
    let low = byte_at(disk, s, size, p + 2);
    let high = byte_at(disk, s, size, p + 3);
    let next = place_after(x.code, p + 2 + x.rest, i);
    NextRecord {
        number: x.number,
        position: x.position,
        kind: x.code,
        address: low + 256 * high,
        from: p + 4,
        count: x.rest - 2,
        next,
    }
}

// The next record from place i on: comments are passed over.
pub fn next_record(disk: &Disk, s: usize, size: usize, i: usize) -> NextRecord
    requires { Program disk.now.g disk.now.image.now s size × (i < 16777216) }
    ensures { Found (bytes_of disk.now.g disk.now.image.now s) (record_from (bytes_of disk.now.g disk.now.image.now s) i) result }
{
    let mut p = i;
    let mut x = item(disk, s, size, p);
    // a step is as long as the comment: no `for`
    while x.code == COMMENT {
        p += 2 + x.rest;
        x = item(disk, s, size, p);
    }
    told(disk, s, size, i, p, x)
}

// A record's bytes, which may be none, go to the buffer's start.
pub fn hand_out(disk: &Disk, s: usize, size: usize, from: usize, n: usize, buffer: &mut [u8])
    requires { Program disk.now.g disk.now.image.now s size × (from + n ≤ size) × (n ≤ 255) × (255 ≤ length buffer.old) }
    ensures { buffer.new ≡ take n (drop from (bytes_of disk.now.g disk.now.image.now s)) ++ drop n buffer.old }
{
    read::read_bytes(disk, s, from, n, buffer);
}

// Test 12: the handle's numbers are in range, and every record fits a buffer of length `room`.
pub fn load_ranged(g: Geometry, h: Handle, room: usize) -> bool
    ensures { result ≡ all (in_range g h ∷ leb most_bytes room ∷ []) }
{
    handle::in_range(g, h) && MOST_BYTES <= room
}

// Load record, of a disk whose check answered `checked`.
pub fn load_checked(
    image: &[u8],
    g: Geometry,
    h: Handle,
    buffer: &mut [u8],
    checked: Refusal,
) -> Loaded
    requires { checked ≡ check g image.now }
    ensures { (result, buffer.new) ≡ load_record g image.now h buffer.old }
{
    let ranged = load_ranged(g, h, buffer.len());
    if let Err(refusal) = handle::admits_reading(image, g, h, ranged, checked) {
        return Loaded {
            refusal,
            kind: 0,
            address: 0,
            count: 0,
            position: 0,
            handle: h,
        };
    }
    let disk = Disk { image, g };
    let size = disk.size_of(h.slot);
    let r = next_record(&disk, h.slot, size, h.at);
    if r.number != 0 {
        return Loaded {
            refusal: refusal::carried(checked, r.number),
            kind: 0,
            address: 0,
            count: 0,
            position: r.position,
            handle: h,
        };
    }
    hand_out(&disk, h.slot, size, r.from, r.count, buffer);
    Loaded {
        refusal: refusal::accepted(checked),
        kind: r.kind,
        address: r.address,
        count: r.count,
        position: r.position,
        handle: Handle { at: r.next, ..h },
    }
}
