// A read of any number of bytes, of which read record and read bytes are two; and read sector.
#![tactic(auto)]

ghost use Rattle.std.specs.Prelude.{◌≡◌, [], ◌∷◌, ◌++◌, ◌+◌, ◌<◌, ◌≤◌, length, drop, leb};
ghost use Rattle.std.proofs.lemmas.List.Edits.{sets};
ghost use Rattle.meaning.specs.Lists.{all};
ghost use Rattle.meaning.specs.Layout.{highest};
ghost use Rattle.meaning.specs.Read.{fetch, read_refusals, read_of, sector_refusals, sector_bytes, read_sector};
ghost use Rattle.meaning.specs.Entries.{sector_count};
ghost use Rattle.layout.specs.Room.{Slot};
ghost use Rattle.meaning.specs.Refusals.{first, check};
ghost use Rattle.meaning.specs.Handles.{in_range};
ghost use Rattle.refusal.specs.Passes.{Passes};
ghost use Rattle.read.specs.Part.{Rest, Readable, Within, Owned, InGranule, part_of, Lies};

use layout::Disk;
use meaning::{Answer, Geometry, Handle, Part, Refusal};
use refusal::Why;

// n bytes of the file from byte i on, all in one granule, go to the buffer at `to`: one walk along the chain, one copy.
pub fn read_part(disk: &Disk, s: usize, i: usize, n: usize, buffer: &mut [u8], to: usize)
    requires { Readable disk.now.g disk.now.image.now s × Owned disk.now.g disk.now.image.now s i n × InGranule disk.now.g i n × (to + n ≤ length buffer.old) }
    ensures { buffer.new ≡ sets buffer.old to (fetch disk.now.g disk.now.image.now s i n) }
{
    let p = seek::place(disk, s, i);
    copy::put_part(buffer, to, disk.image, p, n);
}

// How many bytes, from byte i on, are left of its granule.
pub fn rest_of(g: Geometry, i: usize) -> usize
    ensures { Rest g i result }
{
    let w = layout::granule_bytes(g);
    w - i % w
}

// How many of n bytes from byte i on lie in its granule.
pub fn part_of(g: Geometry, i: usize, n: usize) -> usize
    requires { 1 ≤ n }
    ensures { InGranule g i result × (1 ≤ result) × (result ≤ n) }
{
    n.min(rest_of(g, i))
}

// n bytes of the file from byte i on go to the buffer's start, granule by granule.
pub fn read_bytes(disk: &Disk, s: usize, i: usize, n: usize, buffer: &mut [u8])
    requires { Readable disk.now.g disk.now.image.now s × Within disk.now.g disk.now.image.now s i n × (n ≤ length buffer.old) }
    ensures { buffer.new ≡ fetch disk.now.g disk.now.image.now s i n ++ drop n buffer.old }
{
    let mut done = 0;
    // a step takes what is left of a granule: no `for`
    while done < n {
        let m = part_of(disk.g, i + done, n - done);
        read_part(disk, s, i + done, m, buffer, done);
        done += m;
    }
}

// Test 12 of a read of n bytes: the handle's numbers are in range, n is not over the highest position, and a buffer of length `room` holds n.
pub fn read_ranged(g: Geometry, h: Handle, n: usize, room: usize) -> bool
    ensures { result ≡ all (in_range g h ∷ leb n (highest g) ∷ leb n room ∷ []) }
{
    handle::in_range(g, h) && n <= layout::highest(g) && n <= room
}

// The tests of a read of n bytes: those of a reading call, then 10.
pub fn admits_read(
    image: &[u8],
    g: Geometry,
    h: Handle,
    n: usize,
    room: usize,
    checked: Refusal,
) -> Result<(), Refusal>
    requires { checked ≡ check g image.now }
    ensures { Passes checked (first (read_refusals g image.now h n room)) result }
{
    let ranged = read_ranged(g, h, n, room);
    handle::admits_reading(image, g, h, ranged, checked)?;
    let disk = Disk { image, g };
    if disk.size_of(h.slot) < h.at + n {
        return Err(Why::PastSize.refusal());
    }
    Ok(())
}

// A read of n bytes, of a disk whose check answered `checked`: read record where n is the handle's record length, read bytes where it is the
// buffer's length.
pub fn read_checked(
    image: &[u8],
    g: Geometry,
    h: Handle,
    n: usize,
    buffer: &mut [u8],
    checked: Refusal,
) -> Answer
    requires { checked ≡ check g image.now }
    ensures { (result, buffer.new) ≡ read_of g image.now h n buffer.old }
{
    if let Err(refusal) = admits_read(image, g, h, n, buffer.len(), checked) {
        return Answer { refusal, handle: h };
    }
    read_bytes(&Disk { image, g }, h.slot, h.at, n, buffer);
    Answer {
        refusal: refusal::accepted(checked),
        handle: Handle { at: h.at + n, ..h },
    }
}

// The tests of a read of sector k, in the same way.
pub fn admits_sector(
    image: &[u8],
    g: Geometry,
    h: Handle,
    k: usize,
    checked: Refusal,
) -> Result<(), Refusal>
    requires { checked ≡ check g image.now }
    ensures { Passes checked (first (sector_refusals g image.now h k)) result }
{
    let ranged = handle::sector_ranged(g, h, k);
    handle::admits_reading(image, g, h, ranged, checked)?;
    let disk = Disk { image, g };
    if disk.word(h.slot, layout::SECTOR_COUNT) <= k {
        return Err(Why::PastSize.refusal());
    }
    Ok(())
}

// How many bytes of sector k are the file's.
pub fn sector_bytes(disk: &Disk, s: usize, k: usize) -> usize
    requires { Slot disk.now.g disk.now.image.now s × (k < sector_count disk.now.g disk.now.image.now s) × (k < 65536) }
    ensures { (result ≡ sector_bytes disk.now.g disk.now.image.now s k) × (result ≤ 256) }
{
    if k + 1 != disk.word(s, layout::SECTOR_COUNT) {
        return 256;
    }
    match disk.field(s, layout::END_BYTE) {
        0 => 256,
        e => e,
    }
}

// Where the file's bytes in sector k lie, of a disk whose check answered `checked`.
pub fn sector_checked(image: &[u8], g: Geometry, h: Handle, k: usize, checked: Refusal) -> Part
    requires { checked ≡ check g image.now }
    ensures is { result ≡ read_sector g image.now h k }
    ensures lies { Lies result (length image.now) }
{
    if let Err(refusal) = admits_sector(image, g, h, k, checked) {
        return Part {
            refusal,
            from: 0,
            to: 0,
        };
    }
    let disk = Disk { image, g };
    let from = seek::place(&disk, h.slot, 256 * k);
    Part {
        refusal: refusal::accepted(checked),
        from,
        to: from + sector_bytes(&disk, h.slot, k),
    }
}

// Read sector: the file's bytes in sector k, handed back as a part of the lent image; the refusal's number and what goes with it go out beside it.
pub fn part_checked<'a>(
    image: &'a [u8],
    g: Geometry,
    h: Handle,
    k: usize,
    checked: Refusal,
    number: &mut u8,
    at: &mut usize,
) -> &'a [u8]
    requires { checked ≡ check g image.now }
    ensures what { (number.new, at.new, result.now) ≡ part_of image.now (read_sector g image.now h k) }
    ensures place_at { result.ref_ptr ≡ (image.entry.ref_ptr.0, image.entry.ref_ptr.1 + (read_sector g image.now h k).from) }
{
    let p = sector_checked(image, g, h, k, checked);
    *number = p.refusal.number;
    *at = p.refusal.at;
    &image[p.from..p.to]
}
