// Bring back a killed series (request 02, §11). The entries of the killed file are found and written down first; whatever can refuse the
// call is tested before anything is written.
#![tactic(auto)]

ghost use Rattle.std.specs.Prelude.{◌≡◌, length, MatchResult};
ghost use Rattle.meaning.specs.Refusals.{check};
ghost use Rattle.meaning.specs.BringBack.{bring_back};
ghost use Rattle.bring_back.specs.Plan.{Plans, Refuses};

use layout::Disk;
use meaning::{BroughtBack, Geometry, Refusal};
use refusal::Why;

// What an accepted call writes: how many slots and granules, and the HIT byte.
#[derive(Clone, Copy)]
pub struct Planned {
    pub slots: usize,
    pub granules: usize,
    pub hash: usize,
}

// Every test of the call; the refusal of the first that fails. Nothing is written but, to `entries`, the slots of the killed file.
fn plan(
    image: &[u8],
    g: Geometry,
    s: usize,
    checked: Refusal,
    entries: &mut [usize; 256],
) -> Result<Planned, Refusal>
    requires { (checked ≡ check g image.now) × (length entries.old ≡ 256) }
    ensures { MatchResult result (Plans g image.now s entries.new) (Refuses g image.now s) }
{
    if checked.number != 0 {
        return Err(checked);
    }
    let disk = Disk { image, g };
    if !disk.is_slot(s) {
        return Err(Why::OutOfRange.after(checked));
    }
    if disk.flag(s, layout::IN_USE) {
        return Err(Why::InUse.after(checked));
    }
    if disk.flag(s, layout::SYSTEM) {
        return Err(Why::NotAllowed.after(checked));
    }
    let l = match back_chain::whole(&disk, s, entries) {
        Some(l) => l,
        None => return Err(Why::NothingWhole.after(checked)),
    };
    let name = entry::name_of(&disk, s);
    if look_up::find(&disk, &name).slot.is_some() {
        return Err(Why::NameInUse.after(checked));
    }
    if back_taken::any_taken(&disk, &entries[..l.slots]) {
        return Err(Why::GranuleTaken.after(checked));
    }
    Ok(Planned {
        slots: l.slots,
        granules: l.granules,
        hash: name_hash::hash(&name),
    })
}

// Bring back, of a disk whose check answered `checked`.
pub fn bring_back_checked(image: &mut [u8], g: Geometry, s: usize, checked: Refusal) -> BroughtBack
    requires { checked ≡ check g image.old }
    ensures { (result, image.new) ≡ bring_back g image.old s }
{
    let mut entries = [0usize; 256];
    let p = match plan(image, g, s, checked, &mut entries) {
        Ok(p) => p,
        Err(refusal) => {
            return BroughtBack {
                refusal,
                slots: 0,
                granules: 0,
            };
        }
    };
    let entries = &entries[..p.slots];
    back_write::take_all(image, g, entries);
    back_write::back_all(image, g, entries, p.hash);
    BroughtBack {
        refusal: refusal::accepted(checked),
        slots: p.slots,
        granules: p.granules,
    }
}
