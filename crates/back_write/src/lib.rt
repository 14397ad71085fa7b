// What bring back writes: the granules of the entries written down are taken, and the entries set in use again.
#![tactic(auto)]

ghost use Rattle.std.specs.Prelude.{◌≡◌, ◌<◌, length};
ghost use Rattle.meaning.specs.Lists.{each, through};
ghost use Rattle.meaning.specs.Layout.{take_granule};
ghost use Rattle.meaning.specs.Entries.{entry_granules};
ghost use Rattle.meaning.specs.BringBack.{back_entry};
ghost use Rattle.layout.specs.Room.{Room, Slot};
ghost use Rattle.back_taken.specs.Listed.{Listed};

use layout::Disk;
use meaning::Geometry;

// Takes the granules of these entries.
pub fn take_all(image: &mut [u8], g: Geometry, entries: &[usize])
    requires { Room g image.old × Listed g image.old entries.now (length entries.now) }
    ensures { image.new ≡ through (take_granule g) image.old
        (each (entry_granules g image.old) entries.now) }
{
    for &s in entries {
        space::take_entry(image, g, s);
    }
}

// Sets bit 4 of an entry, and its HIT byte to its file's hash.
fn back_entry(image: &mut [u8], g: Geometry, s: usize, h: usize)
    requires { Room g image.old × Slot g image.old s × (h < 256) }
    ensures { image.new ≡ back_entry g h image.old s }
{
    let flags = layout::with_bit(Disk { image, g }.field(s, layout::FLAGS), layout::IN_USE);
    layout::set_field(image, g, s, layout::FLAGS, flags);
    layout::set_hit(image, g, s, h);
}

// Brings these entries back.
pub fn back_all(image: &mut [u8], g: Geometry, entries: &[usize], h: usize)
    requires { Room g image.old × Listed g image.old entries.now (length entries.now) × (h < 256) }
    ensures { image.new ≡ through (back_entry g h) image.old entries.now }
{
    for &back in entries {
        back_entry(image, g, back, h);
    }
}
