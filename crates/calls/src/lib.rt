// The calls of the library, one function a call. Each checks the whole disk first, whatever it is given, so none asks anything of its
// caller. (Free space is told of any disk whose geometry fits, and tests that alone.)
#![tactic(auto)]

ghost use Rattle.std.specs.Prelude.{◌≡◌, ◌+◌, length};
ghost use Rattle.meaning.specs.Refusals.{check};
ghost use Rattle.meaning.specs.LookUp.{look_up};
ghost use Rattle.meaning.specs.Open.{open'};
ghost use Rattle.meaning.specs.Create.{create};
ghost use Rattle.meaning.specs.Read.{read_record, read_bytes, read_sector};
ghost use Rattle.meaning.specs.Write.{write_record, write_bytes};
ghost use Rattle.meaning.specs.Allot.{allot};
ghost use Rattle.meaning.specs.Trim.{trim};
ghost use Rattle.meaning.specs.Kill.{kill};
ghost use Rattle.meaning.specs.BringBack.{bring_back};
ghost use Rattle.meaning.specs.Listing.{list, counts};
ghost use Rattle.meaning.specs.FreeSpace.{free_space};
ghost use Rattle.play_session.specs.Playing.{play};
ghost use Rattle.read.specs.Part.{part_of, Lies};
ghost use Rattle.differences.specs.Compare.{compare};
ghost use Rattle.load.specs.Load.{load_record};
ghost use Rattle.list_rows.specs.Rows.{list_from};

use differences::Difference;
use list_rows::Rows;
use load::Loaded;
use meaning::{
    Answer, BroughtBack, Counts, Created, Geometry, Handle, Listed, LookedUp, Mode, NewFile, Part,
    Refusal, Space,
};
use play_session::Played;

// Check: 0, refusal 1, or a fault, 21 to 30, and with a fault its slot.
pub fn check(image: &[u8], g: Geometry) -> Refusal
    ensures { result ≡ check g image.now }
{
    fault_diagnosis::check(image, g)
}

// Look up: the slot of the file of that name, and how many entries were compared.
pub fn look_up(image: &[u8], g: Geometry, name: &[u8]) -> LookedUp
    ensures { result ≡ look_up g image.now name.now }
{
    let checked = fault_diagnosis::check(image, g);
    look_up::look_up_checked(image, g, name, checked)
}

// Open: a handle of the file of that name.
pub fn open_file(
    image: &[u8],
    g: Geometry,
    name: &[u8],
    len: usize,
    checking: bool,
    code: u16,
) -> Answer
    ensures { result ≡ open' g image.now name.now len checking code }
{
    let checked = fault_diagnosis::check(image, g);
    look_up::open_checked(image, g, name, len, checking, code, checked)
}

// Create: an existing file is opened, else an empty one is made.
pub fn create(image: &mut [u8], g: Geometry, name: &[u8], f: NewFile, checking: bool) -> Created
    ensures { (result, image.new) ≡ create g image.old name.now f checking }
{
    let checked = fault_diagnosis::check(image, g);
    create::create_checked(image, g, name, f, checking, checked)
}

// Read record: the record at the handle's position goes to the start of the buffer.
pub fn read_record(image: &[u8], g: Geometry, h: Handle, buffer: &mut [u8]) -> Answer
    ensures { (result, buffer.new) ≡ read_record g image.now h buffer.old }
{
    let checked = fault_diagnosis::check(image, g);
    read::read_checked(image, g, h, h.len, buffer, checked)
}

// Read bytes: as many as the buffer holds, from the handle's position on.
pub fn read_bytes(image: &[u8], g: Geometry, h: Handle, buffer: &mut [u8]) -> Answer
    ensures { (result, buffer.new) ≡ read_bytes g image.now h buffer.old }
{
    let checked = fault_diagnosis::check(image, g);
    let n = buffer.len();
    read::read_checked(image, g, h, n, buffer, checked)
}

// Where the bytes of the file's sector k lie.
pub fn sector_part(image: &[u8], g: Geometry, h: Handle, k: usize) -> Part
    ensures is { result ≡ read_sector g image.now h k }
    ensures lies { Lies result (length image.now) }
{
    let checked = fault_diagnosis::check(image, g);
    read::sector_checked(image, g, h, k, checked)
}

// Read sector: the file's bytes in sector k, handed back as a part of the lent image; the refusal's number and what goes with it go out beside it.
pub fn read_sector<'a>(
    image: &'a [u8],
    g: Geometry,
    h: Handle,
    k: usize,
    number: &mut u8,
    at: &mut usize,
) -> &'a [u8]
    ensures what { (number.new, at.new, result.now) ≡ part_of image.now (read_sector g image.now h k) }
    ensures place_at { result.ref_ptr ≡ (image.entry.ref_ptr.0, image.entry.ref_ptr.1 + (read_sector g image.now h k).from) }
{
    let checked = fault_diagnosis::check(image, g);
    read::part_checked(image, g, h, k, checked, number, at)
}

// Write record: the record at the buffer's start goes to the file at the handle's position.
pub fn write_record(image: &mut [u8], g: Geometry, mode: Mode, h: Handle, buffer: &[u8]) -> Answer
    ensures { (result, image.new) ≡ write_record g image.old mode h buffer.now }
{
    let checked = fault_diagnosis::check(image, g);
    write::write_checked(image, g, mode, h, h.len, buffer, checked)
}

// Write bytes: as many as the buffer holds go to the file at the handle's position.
pub fn write_bytes(image: &mut [u8], g: Geometry, mode: Mode, h: Handle, buffer: &[u8]) -> Answer
    ensures { (result, image.new) ≡ write_bytes g image.old mode h buffer.now }
{
    let checked = fault_diagnosis::check(image, g);
    write::write_checked(image, g, mode, h, buffer.len(), buffer, checked)
}

// Allot: the file takes granules until it owns those of its sectors 0 to k.
pub fn allot(image: &mut [u8], g: Geometry, h: Handle, k: usize) -> Answer
    ensures { (result, image.new) ≡ allot g image.old h k }
{
    let checked = fault_diagnosis::check(image, g);
    allot::allot_checked(image, g, h, k, checked)
}

// Trim: the file gives back the granules that its size does not need.
pub fn trim(image: &mut [u8], g: Geometry, h: Handle) -> Answer
    ensures { (result, image.new) ≡ trim g image.old h }
{
    let checked = fault_diagnosis::check(image, g);
    trim::trim_checked(image, g, h, checked)
}

// Kill: the file's entries, HIT bytes and granules are free.
pub fn kill(image: &mut [u8], g: Geometry, h: Handle) -> Answer
    ensures { (result, image.new) ≡ kill g image.old h }
{
    let checked = fault_diagnosis::check(image, g);
    kill::kill_checked(image, g, h, checked)
}

// Bring back: the killed file at a slot is there again, if it is whole and nothing of it was taken.
pub fn bring_back(image: &mut [u8], g: Geometry, s: usize) -> BroughtBack
    ensures { (result, image.new) ≡ bring_back g image.old s }
{
    let checked = fault_diagnosis::check(image, g);
    bring_back::bring_back_checked(image, g, s, checked)
}

// Play back: the calls of a recorded session, one after the other, each with its result. The trace is `bytes`.
pub fn play(image: &mut [u8], g: Geometry, bytes: &[u8], results: &mut [u8]) -> Played
    ensures { (result, image.new, results.new) ≡ play g image.old bytes.now results.old }
{
    let checked = fault_diagnosis::check(image, g);
    play::play_checked(image, g, bytes, results, checked)
}

// The listing: one file, by number from 0, then "no more".
pub fn list(image: &[u8], g: Geometry, number: usize) -> Listed
    ensures { result ≡ list g image.now number }
{
    let checked = fault_diagnosis::check(image, g);
    listing::list_checked(image, g, number, checked)
}

// The listing in one call: as many files from that number on as whole rows fit the table.
pub fn list_from(image: &[u8], g: Geometry, number: usize, table: &mut [u8]) -> Rows
    ensures { (result, table.new) ≡ list_from g image.now number table.old }
{
    let checked = fault_diagnosis::check(image, g);
    listing::list_from_checked(image, g, number, table, checked)
}

// FILES and FREE.
pub fn counts(image: &[u8], g: Geometry) -> Counts
    ensures { result ≡ counts g image.now }
{
    let checked = fault_diagnosis::check(image, g);
    listing::counts_checked(image, g, checked)
}

// Free space: the number of free granules and the longest free stretch, from the GAT alone.
pub fn free_space(image: &[u8], g: Geometry) -> Space
    ensures { result ≡ free_space g image.now }
{
    free_space::free_space(image, g)
}

// Compare: one difference of two disks, by its running number from 0, then "no more".
pub fn compare(first: &[u8], g: Geometry, second: &[u8], h: Geometry, number: usize) -> Difference
    ensures { result ≡ compare g first.now h second.now number }
{
    let checked = fault_diagnosis::check(first, g);
    let checked2 = fault_diagnosis::check(second, h);
    compare::compare_checked(first, g, second, h, number, checked, checked2)
}

// Load record: the next record of a program file from the handle's position on, its bytes to the start of the buffer.
pub fn load_record(image: &[u8], g: Geometry, h: Handle, buffer: &mut [u8]) -> Loaded
    ensures { (result, buffer.new) ≡ load_record g image.now h buffer.old }
{
    let checked = fault_diagnosis::check(image, g);
    load_record::load_checked(image, g, h, buffer, checked)
}
