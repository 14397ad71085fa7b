// The shapes that document 01 speaks of. What they mean is in specs/.
#![tactic(auto)]

// What the caller states of a disk: blocks, units per block, the sector where the directory starts, the code that stands for "no
// password", whether it is a system disk (02, §4) and how many sectors a granule has (02, §10): nothing on the disk says so.
#[derive(Clone, Copy)]
pub struct Geometry {
    pub blocks: usize,
    pub units: usize,
    pub start: usize,
    pub noPassword: u16,
    pub system: bool,
    pub granule: usize,
}

// What a caller holds of an open file: slot, name, position, record length and level.
#[derive(Clone, Copy)]
pub struct Handle {
    pub slot: usize,
    pub name: [u8; 11],
    pub at: usize,
    pub len: usize,
    pub level: usize,
}

// What a name that comes in is taken for: the name, its small letters as capital ones, or the place of its first bad byte; 11 where none is bad.
#[derive(Clone, Copy)]
pub struct Incoming {
    pub place: usize,
    pub name: [u8; 11],
}

// What a caller gives for a new file: the date (the year as its offset from 1980), the record length and the two codes.
#[derive(Clone, Copy)]
pub struct NewFile {
    pub day: usize,
    pub month: usize,
    pub year: usize,
    pub len: usize,
    pub main: u16,
    pub worker: u16,
}

// The two kinds of write.
#[derive(Clone, Copy)]
pub enum Mode {
    Sequential,
    Random,
}

// What a call says of a refusal. `number` is that of 01's table and of 02, 0 where the call was accepted. `at` is what goes with it: under 21 to
// 30 the slot of the fault, under 3 the place of the name's first bad byte, 0 to 10; 256 where there is nothing. `image` is the image that it
// names, 1 or 2, where a call is given two; else 0.
#[derive(Clone, Copy)]
pub struct Refusal {
    pub number: u8,
    pub image: u8,
    pub at: usize,
}

// Every answer holds one.

// What look up answers: the slot, and how many entries were compared.
#[derive(Clone, Copy)]
pub struct LookedUp {
    pub refusal: Refusal,
    pub slot: usize,
    pub compared: usize,
}

// What open answers, and every call with a handle but read sector: the handle as the call leaves it.
#[derive(Clone, Copy)]
pub struct Answer {
    pub refusal: Refusal,
    pub handle: Handle,
}

// What create answers. `old`: a file of that name was there.
#[derive(Clone, Copy)]
pub struct Created {
    pub refusal: Refusal,
    pub old: bool,
    pub handle: Handle,
}

// What read sector answers: a part of the image, from a place up to another, which it does not hold.
#[derive(Clone, Copy)]
pub struct Part {
    pub refusal: Refusal,
    pub from: usize,
    pub to: usize,
}

// What the listing answers: one file, or, where `more` is false, "no more".
#[derive(Clone, Copy)]
pub struct Listed {
    pub refusal: Refusal,
    pub more: bool,
    pub name: [u8; 11],
    pub size: usize,
    pub granules: usize,
}

// What the counts answer: FILES and FREE.
#[derive(Clone, Copy)]
pub struct Counts {
    pub refusal: Refusal,
    pub files: usize,
    pub free: usize,
}

// What free space answers: how many granules are free, and how long the longest free stretch is.
#[derive(Clone, Copy)]
pub struct Space {
    pub refusal: Refusal,
    pub free: usize,
    pub longest: usize,
}

// What bring back answers (02, §11): how many slots and granules the file has.
#[derive(Clone, Copy)]
pub struct BroughtBack {
    pub refusal: Refusal,
    pub slots: usize,
    pub granules: usize,
}
