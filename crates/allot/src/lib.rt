// Allot.
#![tactic(auto)]

ghost use Rattle.std.specs.Prelude.{◌≡◌};
ghost use Rattle.meaning.specs.Refusals.{check};
ghost use Rattle.meaning.specs.Allot.{allot};

use meaning::{Answer, Geometry, Handle, Refusal};

// Allot to sector k, on a disk whose check answered `checked`.
pub fn allot_checked(image: &mut [u8], g: Geometry, h: Handle, k: usize, checked: Refusal) -> Answer
    requires { checked ≡ check g image.old }
    ensures { (result, image.new) ≡ allot g image.old h k }
{
    let ranged = handle::sector_ranged(g, h, k);
    if let Err(refusal) = handle::admits_changing(image, g, h, ranged, 4, checked) {
        return Answer { refusal, handle: h };
    }
    let w = layout::granule_sectors(g);
    if let Err(why) = growth::grow(image, g, h.slot, k / w + 1) {
        return Answer {
            refusal: why.after(checked),
            handle: h,
        };
    }
    Answer {
        refusal: refusal::accepted(checked),
        handle: h,
    }
}
