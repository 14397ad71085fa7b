// What the listing in one call answers. What it means is in specs/.
#![tactic(auto)]

use meaning::Refusal;

// How many files were told, one row of the table each, from its start on.
#[derive(Clone, Copy)]
pub struct Rows {
    pub refusal: Refusal,
    pub told: usize,
}
