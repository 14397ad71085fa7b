// What is told of a call on one of two drives (02 §9): the drive that a refusal names, and each call's answer with the drive's number.
#![tactic(auto)]

ghost use Rattle.std.specs.Prelude.{◌≡◌, ◌≤◌};
ghost use Rattle.drives.specs.Pair.{no_such_drive, of_disk, naming', fault_drive, of_both, drive_of, answered};
ghost use Rattle.drives.specs.ByName.{looked_up_on, opened_on, created_on, not_looked_up, not_opened, not_created};
ghost use Rattle.drives.specs.ByHandle.{unheld, part_on, no_part};

use drives::{DriveAnswer, DriveCreated, DriveHandle, DriveLookedUp, DrivePart};
use meaning::{Answer, Created, Handle, LookedUp, Part, Refusal};
use refusal::Why;

// told where a refusal names no drive
pub const NO_DRIVE: usize = 2;

// Whether a number is of a disk: 1, and 21 to 30 in 2's place.
pub fn of_disk(number: u8) -> bool
    ensures { result ≡ of_disk number }
{
    matches!(number, 1 | 21..=30)
}

// A refusal of the call on drive n, naming the drive where it is of its disk.
pub fn naming(n: usize, c: Refusal) -> Refusal
    ensures { result ≡ naming' n c }
{
    if !of_disk(c.number) {
        c
    } else if n == 0 {
        refusal::naming(1, c)
    } else {
        refusal::naming(2, c)
    }
}

// The drive that a refusal names.
pub fn fault_drive(c: Refusal) -> usize
    ensures { result ≡ fault_drive c }
{
    match c.image {
        0 => NO_DRIVE,
        1 => 0,
        _ => 1,
    }
}

// What both checks answered: drive 0's before drive 1's.
pub fn of_both(c: Refusal, c2: Refusal) -> Refusal
    ensures { result ≡ of_both c c2 }
{
    match (c.number, c2.number) {
        (0, 0) => refusal::none(),
        (0, _) => naming(1, c2),
        _ => naming(0, c),
    }
}

pub fn no_such_drive() -> Refusal
    ensures { result ≡ no_such_drive }
{
    Why::NoDrive.refusal()
}

// The drive that a call on drive n tells of: 0 on a refusal.
pub fn drive_of(n: usize, c: Refusal) -> usize
    ensures { result ≡ drive_of n c }
{
    if c.number == 0 { n } else { 0 }
}

// What look up answered on drive n, after `before` entries were compared on the drive asked before.
pub fn looked_up_on(n: usize, before: usize, l: LookedUp) -> DriveLookedUp
    requires { (before ≤ 256) × (l.compared ≤ 256) }
    ensures { result ≡ looked_up_on n before l }
{
    DriveLookedUp {
        refusal: naming(n, l.refusal),
        drive: drive_of(n, l.refusal),
        slot: l.slot,
        compared: before + l.compared,
    }
}

pub fn handle_on(n: usize, h: Handle) -> DriveHandle
    ensures { result ≡ record { drive = n; handle = h } }
{
    DriveHandle {
        drive: n,
        handle: h,
    }
}

pub fn opened_on(n: usize, a: Answer) -> DriveAnswer
    ensures { result ≡ opened_on n a }
{
    DriveAnswer {
        refusal: naming(n, a.refusal),
        handle: handle_on(drive_of(n, a.refusal), a.handle),
    }
}

pub fn created_on(n: usize, c: Created) -> DriveCreated
    ensures { result ≡ created_on n c }
{
    DriveCreated {
        refusal: naming(n, c.refusal),
        old: c.old,
        handle: handle_on(drive_of(n, c.refusal), c.handle),
    }
}

// What a call by handle answered on drive n.
pub fn answered(n: usize, a: Answer) -> DriveAnswer
    ensures { result ≡ answered n a }
{
    DriveAnswer {
        refusal: naming(n, a.refusal),
        handle: handle_on(n, a.handle),
    }
}

pub fn part_on(n: usize, p: Part) -> DrivePart
    ensures { result ≡ part_on n p }
{
    DrivePart {
        refusal: naming(n, p.refusal),
        drive: drive_of(n, p.refusal),
        from: p.from,
        to: p.to,
    }
}

pub fn not_looked_up(c: Refusal) -> DriveLookedUp
    ensures { result ≡ not_looked_up c }
{
    DriveLookedUp {
        refusal: c,
        drive: 0,
        slot: 0,
        compared: 0,
    }
}

pub fn not_opened(c: Refusal) -> DriveAnswer
    ensures { result ≡ not_opened c }
{
    DriveAnswer {
        refusal: c,
        handle: handle_on(0, look_up::no_handle()),
    }
}

pub fn not_created(c: Refusal) -> DriveCreated
    ensures { result ≡ not_created c }
{
    DriveCreated {
        refusal: c,
        old: false,
        handle: handle_on(0, look_up::no_handle()),
    }
}

// The empty part at place 0 of drive 0's image.
pub fn no_part(c: Refusal) -> DrivePart
    ensures { result ≡ no_part c }
{
    DrivePart {
        refusal: c,
        drive: 0,
        from: 0,
        to: 0,
    }
}

// A handle whose drive is not 0 or 1.
pub fn unheld(h: DriveHandle) -> DriveAnswer
    ensures { result ≡ unheld h }
{
    DriveAnswer {
        refusal: no_such_drive(),
        handle: h,
    }
}
