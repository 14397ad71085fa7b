// The calls on two drives (02 §9), one function a call. A call with a number, as every handle has, is the call on that drive; one without tests
// both disks, then looks for the name on drive 0 and on drive 1. None asks anything of its caller.
#![tactic(auto)]

ghost use Rattle.std.specs.Prelude.{◌≡◌, ◌+◌};
ghost use Rattle.meaning.specs.Refusals.{check};
ghost use Rattle.drives.specs.Pair.{pair};
ghost use Rattle.drives.specs.ByName.{takes, look_up, open_file, create};
ghost use Rattle.drives.specs.ByHandle.{read_record, read_sector, write_record, allot, trim, kill};
ghost use Rattle.drives_calls.specs.Part.{part_of, one_of, DriveLies};

use drives::{DriveAnswer, DriveCreated, DriveHandle, DriveLookedUp, DrivePart};
use layout::Disk;
use meaning::{Geometry, Mode, NewFile, Refusal};

// Look up: the drive and the slot of the file of that name, and how many entries were compared on the drives searched.
pub fn look_up(
    image0: &[u8],
    g0: Geometry,
    image1: &[u8],
    g1: Geometry,
    numbered: bool,
    drive: usize,
    name: &[u8],
) -> DriveLookedUp
    ensures { result ≡ look_up (pair g0 image0.now g1 image1.now) numbered drive name.now }
{
    if numbered {
        match drive {
            0 => return drives_told::looked_up_on(0, 0, calls::look_up(image0, g0, name)),
            1 => return drives_told::looked_up_on(1, 0, calls::look_up(image1, g1, name)),
            _ => return drives_told::not_looked_up(drives_told::no_such_drive()),
        }
    }
    let checked0 = calls::check(image0, g0);
    let checked1 = calls::check(image1, g1);
    let checked = drives_told::of_both(checked0, checked1);
    if checked.number != 0 {
        return drives_told::not_looked_up(checked);
    }
    let l0 = look_up::look_up_checked(image0, g0, name, checked0);
    if l0.refusal.number != 4 {
        return drives_told::looked_up_on(0, 0, l0);
    }
    let l1 = look_up::look_up_checked(image1, g1, name, checked1);
    drives_told::looked_up_on(1, l0.compared, l1)
}

// Open: a handle of the file of that name.
pub fn open_file(
    image0: &[u8],
    g0: Geometry,
    image1: &[u8],
    g1: Geometry,
    numbered: bool,
    drive: usize,
    name: &[u8],
    len: usize,
    checking: bool,
    code: u16,
) -> DriveAnswer
    ensures { result ≡ open_file (pair g0 image0.now g1 image1.now) numbered drive name.now len checking code }
{
    if numbered {
        match drive {
            0 => return drives_told::opened_on(
                0,
                calls::open_file(image0, g0, name, len, checking, code),
            ),
            1 => return drives_told::opened_on(
                1,
                calls::open_file(image1, g1, name, len, checking, code),
            ),
            _ => return drives_told::not_opened(drives_told::no_such_drive()),
        }
    }
    let checked0 = calls::check(image0, g0);
    let checked1 = calls::check(image1, g1);
    let checked = drives_told::of_both(checked0, checked1);
    if checked.number != 0 {
        return drives_told::not_opened(checked);
    }
    let found = look_up::look_up_checked(image0, g0, name, checked0);
    if found.refusal.number != 4 {
        return drives_told::opened_on(
            0,
            look_up::open_checked(image0, g0, name, len, checking, code, checked0),
        );
    }
    drives_told::opened_on(
        1,
        look_up::open_checked(image1, g1, name, len, checking, code, checked1),
    )
}

// The drive that a create without a number goes to: where the search finds the name; if nowhere, drive 0 if it has a free permitted slot, else
// drive 1. Both disks passed their checks.
fn takes(
    image0: &[u8],
    g0: Geometry,
    image1: &[u8],
    g1: Geometry,
    name: &[u8],
    checked0: Refusal,
    checked1: Refusal,
) -> usize
    requires { («checked0» ≡ check g0 image0.now) × («checked0».number ≡ 0) × («checked1» ≡ check g1 image1.now) }
    ensures { result ≡ takes (pair g0 image0.now g1 image1.now) name.now }
{
    let first = look_up::look_up_checked(image0, g0, name, checked0);
    if first.refusal.number != 4 {
        return 0;
    }
    let second = look_up::look_up_checked(image1, g1, name, checked1);
    if second.refusal.number != 4 {
        return 1;
    }
    match space::first_free_slot(&Disk {
        image: image0,
        g: g0,
    }) {
        Some(_) => 0,
        None => 1,
    }
}

// Create: an existing file is opened, else an empty one is made.
pub fn create(
    image0: &mut [u8],
    g0: Geometry,
    image1: &mut [u8],
    g1: Geometry,
    numbered: bool,
    drive: usize,
    name: &[u8],
    f: NewFile,
    checking: bool,
) -> DriveCreated
    ensures { (result, image0.new, image1.new)
        ≡ create (pair g0 image0.old g1 image1.old) numbered drive name.now f checking }
{
    if numbered {
        match drive {
            0 => return drives_told::created_on(0, calls::create(image0, g0, name, f, checking)),
            1 => return drives_told::created_on(1, calls::create(image1, g1, name, f, checking)),
            _ => return drives_told::not_created(drives_told::no_such_drive()),
        }
    }
    let checked0 = calls::check(image0, g0);
    let checked1 = calls::check(image1, g1);
    let checked = drives_told::of_both(checked0, checked1);
    if checked.number != 0 {
        return drives_told::not_created(checked);
    }
    if takes(image0, g0, image1, g1, name, checked0, checked1) == 0 {
        return drives_told::created_on(
            0,
            create::create_checked(image0, g0, name, f, checking, checked0),
        );
    }
    drives_told::created_on(
        1,
        create::create_checked(image1, g1, name, f, checking, checked1),
    )
}

// Read record: the record at the handle's position goes to the start of the buffer.
pub fn read_record(
    image0: &[u8],
    g0: Geometry,
    image1: &[u8],
    g1: Geometry,
    h: DriveHandle,
    buffer: &mut [u8],
) -> DriveAnswer
    ensures { (result, buffer.new) ≡ read_record (pair g0 image0.now g1 image1.now) h buffer.old }
{
    let held = h.handle;
    match h.drive {
        0 => drives_told::answered(0, calls::read_record(image0, g0, held, buffer)),
        1 => drives_told::answered(1, calls::read_record(image1, g1, held, buffer)),
        _ => drives_told::unheld(h),
    }
}

// Where the bytes of the file's sector k lie, and in the image of which drive.
pub fn sector_part(
    image0: &[u8],
    g0: Geometry,
    image1: &[u8],
    g1: Geometry,
    h: DriveHandle,
    k: usize,
) -> DrivePart
    ensures is { result ≡ read_sector (pair g0 image0.now g1 image1.now) h k }
    ensures lies { DriveLies (pair g0 image0.now g1 image1.now) result }
{
    let held = h.handle;
    match h.drive {
        0 => drives_told::part_on(0, calls::sector_part(image0, g0, held, k)),
        1 => drives_told::part_on(1, calls::sector_part(image1, g1, held, k)),
        _ => drives_told::no_part(drives_told::no_such_drive()),
    }
}

// Read sector: the file's bytes in sector k, handed back as a part of whichever of the two lent images holds the file; beside it go out the
// refusal's number, the drive and the slot that go with it, and the drive whose image it is.
pub fn read_sector<'a>(
    image0: &'a [u8],
    g0: Geometry,
    image1: &'a [u8],
    g1: Geometry,
    h: DriveHandle,
    k: usize,
    number: &mut u8,
    fault_drive: &mut usize,
    at: &mut usize,
    drive: &mut usize,
) -> &'a [u8]
    ensures what { (number.new, fault_drive.new, at.new, drive.new, result.now)
        ≡ part_of (pair g0 image0.now g1 image1.now) (read_sector (pair g0 image0.now g1 image1.now) h k) }
    ensures place_at { result.ref_ptr ≡ (
      (one_of (read_sector (pair g0 image0.now g1 image1.now) h k).drive image0.entry.ref_ptr image1.entry.ref_ptr).0,
      (one_of (read_sector (pair g0 image0.now g1 image1.now) h k).drive image0.entry.ref_ptr image1.entry.ref_ptr).1
          + (read_sector (pair g0 image0.now g1 image1.now) h k).from,
    ) }
{
    let p = sector_part(image0, g0, image1, g1, h, k);
    *number = p.refusal.number;
    *fault_drive = drives_told::fault_drive(p.refusal);
    *at = p.refusal.at;
    *drive = p.drive;
    let from = p.from;
    let to = p.to;
    if p.drive == 0 {
        return &image0[from..to];
    }
    &image1[from..to]
}

// Write record: the record at the buffer's start goes to the file at the handle's position.
pub fn write_record(
    image0: &mut [u8],
    g0: Geometry,
    image1: &mut [u8],
    g1: Geometry,
    mode: Mode,
    h: DriveHandle,
    buffer: &[u8],
) -> DriveAnswer
    ensures { (result, image0.new, image1.new)
        ≡ write_record (pair g0 image0.old g1 image1.old) mode h buffer.now }
{
    let held = h.handle;
    match h.drive {
        0 => drives_told::answered(0, calls::write_record(image0, g0, mode, held, buffer)),
        1 => drives_told::answered(1, calls::write_record(image1, g1, mode, held, buffer)),
        _ => drives_told::unheld(h),
    }
}

// Allot: the file takes granules until it owns those of its sectors 0 to k.
pub fn allot(
    image0: &mut [u8],
    g0: Geometry,
    image1: &mut [u8],
    g1: Geometry,
    h: DriveHandle,
    k: usize,
) -> DriveAnswer
    ensures { (result, image0.new, image1.new)
        ≡ allot (pair g0 image0.old g1 image1.old) h k }
{
    let held = h.handle;
    match h.drive {
        0 => drives_told::answered(0, calls::allot(image0, g0, held, k)),
        1 => drives_told::answered(1, calls::allot(image1, g1, held, k)),
        _ => drives_told::unheld(h),
    }
}

// Trim: the file gives back the granules that its size does not need.
pub fn trim(
    image0: &mut [u8],
    g0: Geometry,
    image1: &mut [u8],
    g1: Geometry,
    h: DriveHandle,
) -> DriveAnswer
    ensures { (result, image0.new, image1.new)
        ≡ trim (pair g0 image0.old g1 image1.old) h }
{
    let held = h.handle;
    match h.drive {
        0 => drives_told::answered(0, calls::trim(image0, g0, held)),
        1 => drives_told::answered(1, calls::trim(image1, g1, held)),
        _ => drives_told::unheld(h),
    }
}

// Kill: the file's entries, HIT bytes and granules are free.
pub fn kill(
    image0: &mut [u8],
    g0: Geometry,
    image1: &mut [u8],
    g1: Geometry,
    h: DriveHandle,
) -> DriveAnswer
    ensures { (result, image0.new, image1.new)
        ≡ kill (pair g0 image0.old g1 image1.old) h }
{
    let held = h.handle;
    match h.drive {
        0 => drives_told::answered(0, calls::kill(image0, g0, held)),
        1 => drives_told::answered(1, calls::kill(image1, g1, held)),
        _ => drives_told::unheld(h),
    }
}
