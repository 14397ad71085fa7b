// What the reader of program files answers (02 §12). What it means is in specs/.
#![tactic(auto)]

use meaning::{Handle, Refusal};

// What stands at a place of a load file. `number` is 0 where a whole record or comment stands there, else 31, 32 or 33, and `position` is the byte
// position that goes with it. `code` is 1, 2 or 5, `rest` how many bytes follow code and count; both are 0 where nothing whole stands there.
#[derive(Clone, Copy)]
pub struct Item {
    pub number: u8,
    pub position: usize,
    pub code: usize,
    pub rest: usize,
}

// The next record from a place on, comments passed over. `kind` is its code: 1 for data, 2 for a start address, 0 where there is a number instead.
// `count` bytes of data stand from place `from` on. `next` is the place after it: just behind a data record, else the place that was asked.
#[derive(Clone, Copy)]
pub struct NextRecord {
    pub number: u8,
    pub position: usize,
    pub kind: usize,
    pub address: usize,
    pub from: usize,
    pub count: usize,
    pub next: usize,
}

// What the call answers: kind, address, how many bytes went to the buffer, and under 31, 32 and 33 the byte position; the handle as the call leaves
// it, whose position is the reader's place in the file.
#[derive(Clone, Copy)]
pub struct Loaded {
    pub refusal: Refusal,
    pub kind: usize,
    pub address: usize,
    pub count: usize,
    pub position: usize,
    pub handle: Handle,
}
