// What compare answers (02 §1). What it means is in specs/Compare.antt.
#![tactic(auto)]

use meaning::Refusal;

// One difference of two disks. The refusal names its image, 1 the first or 2 the second, and 0 where there is none. `kind` is 0 where
// there is no more, 1 for a file only on the first disk, 2 for one only on the second, 3 for one on both but unlike; then `at` is the
// byte position where the contents part, and the four truths say what differs: contents, size, date and other attributes.
#[derive(Clone, Copy)]
pub struct Difference {
    pub refusal: Refusal,
    pub kind: u8,
    pub name: [u8; 11],
    pub at: usize,
    pub contents: bool,
    pub size: bool,
    pub date: bool,
    pub other: bool,
}
