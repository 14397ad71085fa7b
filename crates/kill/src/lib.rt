// Kill.
#![tactic(auto)]

ghost use Rattle.std.specs.Prelude.{◌≡◌};
ghost use Rattle.meaning.specs.Refusals.{check};
ghost use Rattle.meaning.specs.Kill.{kill};

use meaning::{Answer, Geometry, Handle, Refusal};

// Kill of a disk whose check answered `checked`.
pub fn kill_checked(image: &mut [u8], g: Geometry, h: Handle, checked: Refusal) -> Answer
    requires { checked ≡ check g image.old }
    ensures { (result, image.new) ≡ kill g image.old h }
{
    let ranged = handle::in_range(g, h);
    if let Err(refusal) = handle::admits_changing(image, g, h, ranged, 1, checked) {
        return Answer { refusal, handle: h };
    }
    space::kill_file(image, g, h.slot);
    Answer {
        refusal: refusal::accepted(checked),
        handle: h,
    }
}
