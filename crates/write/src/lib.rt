// A write of any number of bytes, sequential and random, of which write record and write bytes are two.
#![tactic(auto)]

ghost use Rattle.std.specs.Prelude.{◌≡◌, cond, [], ◌∷◌, ◌+◌, ◌-◌, ◌*◌, ◌<◌, ◌≤◌, length, take, replicate, leb};
ghost use Rattle.meaning.specs.Lists.{all};
ghost use Rattle.meaning.specs.Layout.{highest, entry_at, granule_bytes, granules_for};
ghost use Rattle.meaning.specs.Chain.{owned, place};
ghost use Rattle.meaning.specs.Refusals.{check, first, accepted, cannot_grow};
ghost use Rattle.meaning.specs.Handles.{in_range};
ghost use Rattle.meaning.specs.Growth.{with_granules, lacking};
ghost use Rattle.meaning.specs.Write.{store, size_after, with_size, write_of};
ghost use Rattle.laws.specs.Steps.{Ready};
ghost use Rattle.read.specs.Part.{Readable, Within};
ghost use Rattle.refusal.specs.Why.{number_of};
ghost use Rattle.write.specs.Apart.{Apart};

use layout::Disk;
use meaning::{Answer, Geometry, Handle, Mode, Refusal};
use refusal::Why;

// The first n bytes of src go to the file from byte i on: one walk along the chain and one part a granule.
pub fn write_bytes(image: &mut [u8], g: Geometry, s: usize, i: usize, src: &[u8], n: usize)
    requires { Readable g image.old s × Apart g image.old s × Within g image.old s i n × (n ≤ length src.now) }
    ensures { image.new ≡ store (place g image.old s) image.old i (take n src.now) }
{
    let mut done = 0;
    // a step takes what is left of a granule: no `for`
    while done < n {
        let m = read::part_of(g, i + done, n - done);
        let p = seek::place(&Disk { image, g }, s, i + done);
        copy::put_part(image, p, src, done, m);
        done += m;
    }
}

// n zeros go to the file from byte i on, in the same way. No closure makes the two walks one: its clauses would be longer than the loop.
pub fn clear_bytes(image: &mut [u8], g: Geometry, s: usize, i: usize, n: usize)
    requires { Readable g image.old s × Apart g image.old s × Within g image.old s i n }
    ensures { image.new ≡ store (place g image.old s) image.old i (replicate n 0) }
{
    let mut done = 0;
    // a step takes what is left of a granule: no `for`
    while done < n {
        let m = read::part_of(g, i + done, n - done);
        let p = seek::place(&Disk { image, g }, s, i + done);
        copy::clear_part(image, p, m);
        done += m;
    }
}

// Test 12 of a write of n bytes; `room` is the buffer's length. A handle in range is at the highest position at most, so nothing is taken
// from less.
fn write_ranged(g: Geometry, h: Handle, n: usize, room: usize) -> bool
    ensures { result ≡ all (in_range g h ∷ leb (h.at + n) (highest g) ∷ leb n room ∷ []) }
{
    handle::in_range(g, h) && n <= layout::highest(g) - h.at && n <= room
}

fn size_after(mode: Mode, old: usize, end: usize) -> usize
    ensures { result ≡ size_after mode old end }
{
    match mode {
        Mode::Sequential => end,
        Mode::Random => old.max(end),
    }
}

// Zeros from the old size to the position, then the first n bytes of src.
fn put_record(image: &mut [u8], g: Geometry, s: usize, old: usize, at: usize, src: &[u8], n: usize)
    requires { Readable g image.old s × Apart g image.old s × Within g image.old s at n
        × (old ≤ granule_bytes g * length (owned g image.old s)) × (old < 16777216) × (n ≤ length src.now) }
    ensures { image.new ≡ store (place g image.old s)
        (store (place g image.old s) image.old old (replicate (at - old) 0)) at (take n src.now) }
{
    clear_bytes(image, g, s, old, at.saturating_sub(old));
    write_bytes(image, g, s, at, src, n);
}

// The file at slot p, `old` bytes long, gets the granules of a size, or nothing is changed. Where the old size needs as many, nothing is
// lacking, and the chain is not walked.
fn grow_to(image: &mut [u8], g: Geometry, p: usize, old: usize, size: usize) -> Result<(), Why>
    requires { Ready g image.old p × (old ≤ granule_bytes g * length (owned g image.old p)) × (old < 16777216) × (size ≤ 33554432) }
    ensures { (number_of result ≡ first (cannot_grow g image.old p (lacking g image.old p (granules_for g size))))
        × (image.new
        ≡ cond (accepted (number_of result)) (with_granules g image.old p (lacking g image.old p (granules_for g size))) image.old) }
{
    let wanted = extent::granules_for(g, size);
    if wanted <= extent::granules_for(g, old) {
        return Ok(());
    }
    growth::grow(image, g, p, wanted)
}

// The directory's end of file: end byte and sector count. B is set.
fn put_size(image: &mut [u8], g: Geometry, s: usize, size: usize)
    requires { (entry_at g s + 32 ≤ length image.old) × (size ≤ 7864320) }
    ensures { image.new ≡ with_size g image.old s size }
{
    let n = (size + 255) / 256;
    let worked = layout::with_bit(
        layout::entry_byte(image, g, s, layout::DAY),
        layout::WORKED_ON,
    );
    layout::set_field(image, g, s, layout::END_BYTE, size % 256);
    layout::set_field(image, g, s, layout::SECTOR_COUNT, n % 256);
    layout::set_field(image, g, s, layout::SECTOR_COUNT + 1, n / 256);
    layout::set_field(image, g, s, layout::DAY, worked);
}

// A write of n bytes, from the buffer's start, on a disk whose check answered `checked`: write record where n is the handle's record length,
// write bytes where it is the buffer's length.
pub fn write_checked(
    image: &mut [u8],
    g: Geometry,
    mode: Mode,
    h: Handle,
    n: usize,
    buffer: &[u8],
    checked: Refusal,
) -> Answer
    requires { checked ≡ check g image.old }
    ensures { (result, image.new) ≡ write_of g image.old mode h n buffer.now }
{
    let ranged = write_ranged(g, h, n, buffer.len());
    if let Err(refusal) = handle::admits_changing(image, g, h, ranged, 4, checked) {
        return Answer { refusal, handle: h };
    }
    let old = Disk { image, g }.size_of(h.slot);
    let end = h.at + n;
    let size = size_after(mode, old, end);
    if let Err(why) = grow_to(image, g, h.slot, old, size) {
        return Answer {
            refusal: why.after(checked),
            handle: h,
        };
    }
    put_record(image, g, h.slot, old, h.at, buffer, n);
    put_size(image, g, h.slot, size);
    Answer {
        refusal: refusal::accepted(checked),
        handle: Handle { at: end, ..h },
    }
}
