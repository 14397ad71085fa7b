// What playing back a recorded session answers (02 §6). What it means is in specs/Playing.antt.
#![tactic(auto)]

use meaning::Refusal;

// The refusal; how many calls were played, each with its result in the lent buffer; and under 14 the place of the trace's first fault, `byte` whole
// bytes and `bit` bits behind its beginning. What has no value is 0.
#[derive(Clone, Copy)]
pub struct Played {
    pub refusal: Refusal,
    pub calls: usize,
    pub byte: usize,
    pub bit: usize,
}
