// What every call with a handle tests first, in the table's order: 1, 2, 12, 7, and then 6.
// `checked` is the answer of the check of the whole disk; `ranged` is the call's own test 12.
#![tactic(auto)]

ghost use Rattle.std.specs.Prelude.{◌≡◌, [], ◌∷◌, ltb};
ghost use Rattle.meaning.specs.Lists.{all};
ghost use Rattle.meaning.specs.Layout.{sector_numbers};
ghost use Rattle.meaning.specs.Refusals.{first, check, handle_refusals, not_for_reading, protected};
ghost use Rattle.meaning.specs.Handles.{good_length, in_range, fresh};
ghost use Rattle.refusal.specs.Passes.{Passes};

use layout::Disk;
use meaning::{Geometry, Handle, Refusal};
use refusal::Why;

// Record length 1 to 256.
pub fn good_length(len: usize) -> bool
    ensures { result ≡ good_length len }
{
    1 <= len && len <= 256
}

// Position, record length and level are in range.
pub fn in_range(g: Geometry, h: Handle) -> bool
    ensures { result ≡ in_range g h }
{
    h.at <= layout::highest(g) && good_length(h.len) && h.level <= 7
}

// Test 12 of a call that names a sector.
pub fn sector_ranged(g: Geometry, h: Handle, k: usize) -> bool
    ensures { result ≡ all (in_range g h ∷ ltb k (sector_numbers g) ∷ []) }
{
    in_range(g, h) && k < layout::sector_numbers(g)
}

// Whether the handle is not stale.
pub fn fresh(disk: &Disk, h: Handle) -> bool
    ensures { result ≡ fresh disk.now.g disk.now.image.now h }
{
    let name = h.name;
    disk.is_slot(h.slot)
        && disk.primary(h.slot)
        && layout::same_name(
            disk.image,
            layout::name_at(disk.image, disk.g, h.slot),
            &name,
        )
}

// Ok, or the refusal that is told.
pub fn admits(
    image: &[u8],
    g: Geometry,
    h: Handle,
    ranged: bool,
    checked: Refusal,
) -> Result<(), Refusal>
    requires { checked ≡ check g image.now }
    ensures { Passes checked (first (handle_refusals g image.now h ranged [])) result }
{
    if checked.number != 0 {
        return Err(checked);
    }
    if !ranged {
        return Err(Why::OutOfRange.refusal());
    }
    if !fresh(&Disk { image, g }, h) {
        return Err(Why::Stale.refusal());
    }
    Ok(())
}

// The same, then 6 for a call that reads.
pub fn admits_reading(
    image: &[u8],
    g: Geometry,
    h: Handle,
    ranged: bool,
    checked: Refusal,
) -> Result<(), Refusal>
    requires { checked ≡ check g image.now }
    ensures { Passes checked (first (handle_refusals g image.now h ranged (not_for_reading h ∷ []))) result }
{
    admits(image, g, h, ranged, checked)?;
    if 5 < h.level {
        return Err(Why::NotAllowed.refusal());
    }
    Ok(())
}

// The same, then 6 for a call that changes the disk and is allowed up to level `most`.
pub fn admits_changing(
    image: &[u8],
    g: Geometry,
    h: Handle,
    ranged: bool,
    most: usize,
    checked: Refusal,
) -> Result<(), Refusal>
    requires { checked ≡ check g image.now }
    ensures { Passes checked (first (handle_refusals g image.now h ranged (protected g image.now most h ∷ []))) result }
{
    admits(image, g, h, ranged, checked)?;
    let disk = Disk { image, g };
    if most < h.level || disk.system(h.slot) {
        return Err(Why::NotAllowed.refusal());
    }
    Ok(())
}
