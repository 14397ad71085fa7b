// Calls by name that look: look up and open. `checked` is the answer of the check of the whole disk.
#![tactic(auto)]

ghost use Rattle.std.specs.Prelude.{◌≡◌, length};
ghost use Rattle.meaning.specs.Refusals.{check};
ghost use Rattle.meaning.specs.Handles.{no_handle};
ghost use Rattle.meaning.specs.LookUp.{carries, look_up};
ghost use Rattle.meaning.specs.Open.{full, admits, opened_at, open'};
ghost use Rattle.layout.specs.Room.{Slot};
ghost use Rattle.look_up.specs.Found.{Finds};

use layout::Disk;
use meaning::{Answer, Geometry, Handle, LookedUp, Refusal};
use refusal::Why;

// The slot of the file that a search found, if any; and how many entries were compared.
#[derive(Clone, Copy)]
pub struct Found {
    pub slot: Option<usize>,
    pub compared: usize,
}

// Whether the slot is a primary entry of that name.
pub fn carries(disk: &Disk, s: usize, name: &[u8]) -> bool
    requires { Slot disk.now.g disk.now.image.now s × (length name.now ≡ 11) }
    ensures { result ≡ carries disk.now.g disk.now.image.now name.now s }
{
    disk.primary(s) && layout::same_name(disk.image, layout::name_at(disk.image, disk.g, s), name)
}

// The first slot of that name, by rising slot number, and how many entries were compared. Only the slots that the directory has are
// met, row by row, and an entry is read only where its HIT byte is the hash.
pub fn find(disk: &Disk, name: &[u8]) -> Found
    requires { length name.now ≡ 11 }
    ensures { Finds disk.now.g disk.now.image.now name.now result }
{
    let h = name_hash::hash(name);
    let columns = disk.columns();
    let mut compared = 0;
    for row in 0..8 {
        for s in 32 * row..32 * row + columns {
            if disk.hit(s) == h {
                compared += 1;
                if carries(disk, s, name) {
                    return Found {
                        slot: Some(s),
                        compared,
                    };
                }
            }
        }
    }
    Found {
        slot: None,
        compared,
    }
}

// Look up, of a disk whose check answered `checked`.
pub fn look_up_checked(image: &[u8], g: Geometry, name: &[u8], checked: Refusal) -> LookedUp
    requires { checked ≡ check g image.now }
    ensures { result ≡ look_up g image.now name.now }
{
    if checked.number != 0 {
        return LookedUp {
            refusal: checked,
            slot: 0,
            compared: 0,
        };
    }
    let n = name_spelling::incoming(name);
    if n.place != name_spelling::NO_PLACE {
        return LookedUp {
            refusal: Why::NotWellFormed.refusal_at(n.place),
            slot: 0,
            compared: 0,
        };
    }
    let f = find(&Disk { image, g }, &n.name);
    let slot = match f.slot {
        Some(slot) => slot,
        None => {
            return LookedUp {
                refusal: Why::NotFound.after(checked),
                slot: 0,
                compared: f.compared,
            };
        }
    };
    LookedUp {
        refusal: refusal::accepted(checked),
        slot,
        compared: f.compared,
    }
}

// A name of eleven bytes as a handle holds it.
fn name_array(name: &[u8]) -> [u8; 11]
    requires { length name.now ≡ 11 }
    ensures { result ≡ name.now }
{
    let mut bytes = [0u8; 11];
    bytes.copy_from_slice(name);
    bytes
}

// Whether a code opens the file at slot s at level 0: checking is off, the main code is the "no password" code, or the code is the main
// code.
#[tactic(auto, unfolding(meaning::specs::Open::full, meaning::specs::Lists::any))]
pub fn full(disk: &Disk, s: usize, checking: bool, code: u16) -> bool
    requires { Slot disk.now.g disk.now.image.now s }
    ensures { result ≡ full disk.now.g disk.now.image.now s checking code }
{
    let main = disk.word(s, layout::MAIN_CODE);
    !checking || main == usize::from(disk.g.noPassword) || usize::from(code) == main
}

// Whether a code opens the file at all: at level 0, or because it is the worker code.
#[tactic(auto, unfolding(meaning::specs::Open::admits, meaning::specs::Lists::any))]
pub fn admits(disk: &Disk, s: usize, checking: bool, code: u16) -> bool
    requires { Slot disk.now.g disk.now.image.now s }
    ensures { result ≡ admits disk.now.g disk.now.image.now s checking code }
{
    full(disk, s, checking, code) || usize::from(code) == disk.word(s, layout::WORKER_CODE)
}

// The handle of a file just opened: the stored level where only the worker code fits.
pub fn opened_at(
    disk: &Disk,
    s: usize,
    name: &[u8],
    len: usize,
    checking: bool,
    code: u16,
) -> Handle
    requires { Slot disk.now.g disk.now.image.now s × (length name.now ≡ 11) }
    ensures { result ≡ opened_at disk.now.g disk.now.image.now s name.now len checking code }
{
    let level = if full(disk, s, checking, code) {
        0
    } else {
        disk.field(s, layout::FLAGS) % 8
    };
    Handle {
        slot: s,
        name: name_array(name),
        at: 0,
        len,
        level,
    }
}

// The handle of zeros that a refused open or create hands back.
pub fn no_handle() -> Handle
    ensures { result ≡ no_handle }
{
    Handle {
        slot: 0,
        name: [0u8; 11],
        at: 0,
        len: 0,
        level: 0,
    }
}

// A refused open hands back a handle of zeros.
fn refused(refusal: Refusal) -> Answer
    ensures { result ≡ record { refusal = refusal; handle = no_handle } }
{
    Answer {
        refusal,
        handle: no_handle(),
    }
}

// Open, of a disk whose check answered `checked`.
pub fn open_checked(
    image: &[u8],
    g: Geometry,
    name: &[u8],
    len: usize,
    checking: bool,
    code: u16,
    checked: Refusal,
) -> Answer
    requires { checked ≡ check g image.now }
    ensures { result ≡ open' g image.now name.now len checking code }
{
    if checked.number != 0 {
        return refused(checked);
    }
    if !handle::good_length(len) {
        return refused(Why::OutOfRange.after(checked));
    }
    let n = name_spelling::incoming(name);
    if n.place != name_spelling::NO_PLACE {
        return refused(Why::NotWellFormed.refusal_at(n.place));
    }
    let disk = Disk { image, g };
    let slot = match find(&disk, &n.name).slot {
        Some(slot) => slot,
        None => return refused(Why::NotFound.after(checked)),
    };
    if !admits(&disk, slot, checking, code) {
        return refused(Why::WrongCode.after(checked));
    }
    Answer {
        refusal: refusal::accepted(checked),
        handle: opened_at(&disk, slot, &n.name, len, checking, code),
    }
}
