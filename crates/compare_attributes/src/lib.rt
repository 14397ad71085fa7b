// Attributes of two files held against each other.
#![tactic(auto)]

ghost use Rattle.std.specs.Prelude.{◌≡◌, ◌<◌};
ghost use Rattle.layout.specs.Room.{Slot};
ghost use Rattle.compare_attributes.specs.Attributes.{differs_at, dates_differ, others_differ};

use layout::Disk;

// Whether byte k of two entries differs.
fn differs_at(first: &Disk, second: &Disk, s: usize, t: usize, k: usize) -> bool
    requires { Slot first.now.g first.now.image.now s × Slot second.now.g second.now.image.now t × (k < 32) }
    ensures { result ≡ differs_at first.now.g first.now.image.now second.now.g second.now.image.now s t k }
{
    first.field(s, k) != second.field(t, k)
}

// Whether the dates differ: byte 02, low five bits of 01.
pub fn dates_differ(first: &Disk, second: &Disk, s: usize, t: usize) -> bool
    requires { Slot first.now.g first.now.image.now s × Slot second.now.g second.now.image.now t }
    ensures { result ≡ dates_differ first.now.g first.now.image.now second.now.g second.now.image.now s t }
{
    differs_at(first, second, s, t, 2) || first.field(s, 1) % 32 != second.field(t, 1) % 32
}

// Whether other attributes differ: byte 00, high three bits of 01, bytes 04 and 10 to 13.
pub fn others_differ(first: &Disk, second: &Disk, s: usize, t: usize) -> bool
    requires { Slot first.now.g first.now.image.now s × Slot second.now.g second.now.image.now t }
    ensures { result ≡ others_differ first.now.g first.now.image.now second.now.g second.now.image.now s t }
{
    differs_at(first, second, s, t, 0)
        || first.field(s, 1) / 32 != second.field(t, 1) / 32
        || differs_at(first, second, s, t, 4)
        || differs_at(first, second, s, t, layout::MAIN_CODE)
        || differs_at(first, second, s, t, 0x11)
        || differs_at(first, second, s, t, layout::WORKER_CODE)
        || differs_at(first, second, s, t, 0x13)
}
