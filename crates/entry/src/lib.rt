// An entry as a whole: its name, what the rules ask of it, tested at its slot, whatever file it is of and whether it is in use or killed; and
// a new one put.
#![tactic(auto)]

ghost use Rattle.std.specs.Prelude.{◌≡◌, ◌+◌, ◌<◌, ◌≤◌, length, set};
ghost use Rattle.std.proofs.lemmas.List.Edits.{sets};
ghost use Rattle.meaning.specs.Layout.{entry_at, hit_at};
ghost use Rattle.meaning.specs.Entries.{name_of, sector_count, end_byte};
ghost use Rattle.meaning.specs.Chain.{owned};
ghost use Rattle.meaning.specs.Consistent.{follows_by, name_holds, size_holds, count_holds};
ghost use Rattle.layout.specs.Room.{Slot};

use layout::Disk;
use meaning::Geometry;

// The name of a slot, with its type.
pub fn name_of(disk: &Disk, s: usize) -> [u8; 11]
    requires { Slot disk.now.g disk.now.image.now s }
    ensures { result ≡ name_of disk.now.g disk.now.image.now s }
{
    let at = layout::name_at(disk.image, disk.g, s);
    let mut name = [0u8; 11];
    name.copy_from_slice(&disk.image[at..at + 11]);
    name
}

// Whether t is an extension that points back to s and has a run. Its flags are 90H where the file is in use, 80H where it is killed.
pub fn follows(disk: &Disk, flags: usize, s: usize, t: usize) -> bool
    ensures { result ≡ follows_by disk.now.g disk.now.image.now flags s t }
{
    disk.is_slot(t)
        && disk.field(t, layout::FLAGS) == flags
        && disk.field(t, layout::BACK) == s
        && 1 <= disk.runs(t)
}

// The name is well formed, and bit 5 is zero.
pub fn name_holds(disk: &Disk, s: usize) -> bool
    requires { Slot disk.now.g disk.now.image.now s }
    ensures { result ≡ name_holds disk.now.g disk.now.image.now s }
{
    name_spelling::well_formed(&name_of(disk, s)) && !disk.flag(s, layout::ZERO)
}

// n = 0 only with e = 0.
fn count_holds(disk: &Disk, s: usize) -> bool
    requires { Slot disk.now.g disk.now.image.now s }
    ensures { result ≡ count_holds (sector_count disk.now.g disk.now.image.now s) (end_byte disk.now.g disk.now.image.now s) }
{
    disk.word(s, layout::SECTOR_COUNT) != 0 || disk.field(s, layout::END_BYTE) == 0
}

// Of the first entry of a file: n = 0 only with e = 0; the size fits the granules owned.
pub fn size_holds(disk: &Disk, s: usize, granules: usize) -> bool
    requires { Slot disk.now.g disk.now.image.now s × (granules < 65536) × (granules ≡ length (owned disk.now.g disk.now.image.now s)) }
    ensures { result ≡ size_holds disk.now.g disk.now.image.now s }
{
    count_holds(disk, s) && disk.size_of(s) <= layout::granule_bytes(disk.g) * granules
}

// A new entry in a slot, all 32 bytes of it, and the slot's HIT byte: of a file that is created, or of an extension.
pub fn put(image: &mut [u8], g: Geometry, s: usize, bytes: &[u8], hash: usize)
    requires { (entry_at g s + 32 ≤ length image.old) × (s < 256) × (length bytes.now ≡ 32) × (hash < 256) }
    ensures { image.new ≡ set (sets image.old (entry_at g s) bytes.now) (hit_at g s) hash }
{
    let at = layout::entry_at(image, g, s);
    image[at..at + 32].copy_from_slice(bytes);
    layout::set_hit(image, g, s, hash);
}
