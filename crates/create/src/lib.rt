// Create.
#![tactic(auto)]

ghost use Rattle.std.specs.Prelude.{◌≡◌, false, true, ◌+◌, ◌<◌, ◌≤◌, length};
ghost use Rattle.meaning.specs.Layout.{entry_at};
ghost use Rattle.meaning.specs.Refusals.{check, new_in_range};
ghost use Rattle.meaning.specs.Handles.{no_handle};
ghost use Rattle.meaning.specs.Create.{create, with_entry};

use layout::Disk;
use meaning::{Created, Geometry, Handle, NewFile, Refusal};
use refusal::Why;

// Date and record length are in range.
#[tactic(auto, unfolding(meaning::specs::Refusals::new_in_range, meaning::specs::Lists::all))]
fn in_range(f: NewFile) -> bool
    ensures { result ≡ new_in_range f }
{
    f.day <= 31 && f.month <= 15 && f.year <= 15 && handle::good_length(f.len)
}

// A new file of that name in slot x: all 32 bytes of its entry, and its HIT byte.
fn put_entry(image: &mut [u8], g: Geometry, x: usize, name: &[u8], f: NewFile)
    requires { (entry_at g x + 32 ≤ length image.old) × (x < 256) × (length name.now ≡ 11) × (new_in_range f ≡ true) }
    ensures { image.new ≡ with_entry g image.old x name.now f }
{
    let date = f.year * 16 + f.month;
    let mut entry = [0u8; 32];
    entry[layout::BLOCKS..].fill(0xff);
    entry[layout::FLAGS] = 0x10;
    entry[layout::DAY] = f.day as u8;
    entry[layout::MONTH] = date as u8;
    entry[layout::RECORD_LENGTH] = (f.len % 256) as u8;
    entry[layout::MAIN_CODE..layout::WORKER_CODE].copy_from_slice(&f.main.to_le_bytes());
    entry[layout::WORKER_CODE..layout::SECTOR_COUNT].copy_from_slice(&f.worker.to_le_bytes());
    entry[layout::NAME..layout::MAIN_CODE].copy_from_slice(name);
    entry::put(image, g, x, &entry, name_hash::hash(name));
}

// A refused create hands back a handle of zeros.
fn refused(refusal: Refusal) -> Created
    ensures { result ≡ record { refusal = refusal; old = false; handle = no_handle } }
{
    Created {
        refusal,
        old: false,
        handle: look_up::no_handle(),
    }
}

// Create on a disk whose check answered `checked`.
pub fn create_checked(
    image: &mut [u8],
    g: Geometry,
    name: &[u8],
    f: NewFile,
    checking: bool,
    checked: Refusal,
) -> Created
    requires { checked ≡ check g image.old }
    ensures { (result, image.new) ≡ create g image.old name.now f checking }
{
    if checked.number != 0 {
        return refused(checked);
    }
    if !in_range(f) {
        return refused(Why::OutOfRange.after(checked));
    }
    let n = name_spelling::incoming(name);
    if n.place != name_spelling::NO_PLACE {
        return refused(Why::NotWellFormed.refusal_at(n.place));
    }
    let disk = Disk { image, g };
    if let Some(slot) = look_up::find(&disk, &n.name).slot {
        if !look_up::admits(&disk, slot, checking, f.main) {
            return refused(Why::WrongCode.after(checked));
        }
        return Created {
            refusal: refusal::accepted(checked),
            old: true,
            handle: look_up::opened_at(&disk, slot, &n.name, f.len, checking, f.main),
        };
    }
    let x = match space::first_free_slot(&disk) {
        Some(x) => x,
        None => return refused(Why::TooFewSlots.after(checked)),
    };
    put_entry(image, g, x, &n.name, f);
    Created {
        refusal: refusal::accepted(checked),
        old: false,
        handle: Handle {
            slot: x,
            name: n.name,
            at: 0,
            len: f.len,
            level: 0,
        },
    }
}
