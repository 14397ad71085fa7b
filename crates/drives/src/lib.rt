// What the calls on two drives are given and answer (02 §9). What they mean is in specs/.
#![tactic(auto)]

use meaning::{Handle, Refusal};

// "Handles carry the drive number": a handle of one image, and the drive that holds it.
#[derive(Clone, Copy)]
pub struct DriveHandle {
    pub drive: usize,
    pub handle: Handle,
}

// Every answer holds a refusal, whose `image` is the drive that it names: 1 for drive 0, 2 for drive 1, 0 where it names none.

// What look up answers: the drive that has the file, its slot there, and how many entries were compared on the drives searched. All are 0 under a
// refusal but the count, which is told under 4.
#[derive(Clone, Copy)]
pub struct DriveLookedUp {
    pub refusal: Refusal,
    pub drive: usize,
    pub slot: usize,
    pub compared: usize,
}

// What open answers, and every call with a handle but read sector: the handle as the call leaves it.
#[derive(Clone, Copy)]
pub struct DriveAnswer {
    pub refusal: Refusal,
    pub handle: DriveHandle,
}

// What create answers. `old`: a file of that name was there.
#[derive(Clone, Copy)]
pub struct DriveCreated {
    pub refusal: Refusal,
    pub old: bool,
    pub handle: DriveHandle,
}

// What read sector answers: a part of the image of a drive, which it does not hold. Drive 0, and its empty part at place 0, under a refusal.
#[derive(Clone, Copy)]
pub struct DrivePart {
    pub refusal: Refusal,
    pub drive: usize,
    pub from: usize,
    pub to: usize,
}
