// The check of one slot and of the file that starts there: the clauses of "A consistent disk" that speak of one file.
#![tactic(auto)]

ghost use Rattle.std.specs.Prelude.{◌≡◌, [], ◌∷◌};
ghost use Rattle.meaning.specs.Layout.{field, hit};
ghost use Rattle.meaning.specs.Entries.{end_byte};
ghost use Rattle.check_map.specs.Owners.{standing};
ghost use Rattle.check_walk.specs.Walk.{Place};
ghost use Rattle.check_file.specs.Slots.{least_of, name_fits, FileSeen, Seen, Directory};
ghost use Rattle.meaning.specs.Consistent.{count_holds};

use layout::Disk;

// Whether the name of the entry is well formed and its hash is h. The hash comes first: it reads the bytes one by one.
fn name_holds(disk: &Disk, s: usize, at: usize, h: usize) -> bool
    requires { Place disk.now.g disk.now.image.now s at }
    ensures { result ≡ name_fits disk.now.g disk.now.image.now h s }
{
    let start = at + layout::NAME;
    let name = &disk.image[start..start + 11];
    name_hash::hashes_to(name, h) && name_spelling::well_formed(name)
}

// n = 0 only with e = 0.
fn count_holds(disk: &Disk, s: usize, at: usize, n: usize) -> bool
    requires { Place disk.now.g disk.now.image.now s at }
    ensures { result ≡ count_holds n (end_byte disk.now.g disk.now.image.now s) }
{
    n != 0 || check_walk::field_at(disk, s, at, layout::END_BYTE) == 0
}

// A file: its name, its sizes, and its whole chain. The directory's granules are open to system files only: the walk of any other file must leave their
// bits as they were. That is one test a file and none a run.
fn file_holds(
    disk: &Disk,
    s: usize,
    at: usize,
    flags: usize,
    h: usize,
    map: &mut [u8; 192],
    met: &mut [u8; 256],
    from: usize,
    bits: u64,
) -> bool
    requires { Place disk.now.g disk.now.image.now s at × (flags ≡ field disk.now.g disk.now.image.now s 0) × (h ≡ hit disk.now.g disk.now.image.now s)
        × Directory disk.now.g disk.now.image.now from bits }
    ensures { FileSeen disk.now.g disk.now.image.now s (least_of disk.now.g disk.now.image.now s) (standing disk.now.g disk.now.image.now map.old)
        (standing disk.now.g disk.now.image.now map.new) met.old met.new result }
{
    let n = check_walk::field_at(disk, s, at, layout::SECTOR_COUNT)
        + 256 * check_walk::field_at(disk, s, at, layout::SECTOR_COUNT + 1);
    let before = check_map::among(map, from, bits);
    if layout::is_set(flags, layout::ZERO)
        || !name_holds(disk, s, at, h)
        || !count_holds(disk, s, at, n)
        || !check_walk::file_walk(disk, s, at, disk.slots(), h, n, map, met)
    {
        return false;
    }
    layout::is_set(flags, layout::SYSTEM) || check_map::among(map, from, bits) == before
}

// One slot: its HIT byte, and the file that starts there.
pub fn slot_holds(
    disk: &Disk,
    s: usize,
    at: usize,
    map: &mut [u8; 192],
    met: &mut [u8; 256],
    from: usize,
    bits: u64,
) -> bool
    requires { Place disk.now.g disk.now.image.now s at × Directory disk.now.g disk.now.image.now from bits }
    ensures { Seen disk.now.g disk.now.image.now (s ∷ []) (standing disk.now.g disk.now.image.now map.old)
        (standing disk.now.g disk.now.image.now map.new) met.old met.new result }
{
    let h = disk.hit(s);
    let flags = check_walk::field_at(disk, s, at, layout::FLAGS);
    if h == 0 {
        return !layout::is_set(flags, layout::IN_USE);
    }
    layout::is_set(flags, layout::IN_USE)
        && (layout::is_set(flags, layout::EXTENSION)
            || file_holds(disk, s, at, flags, h, map, met, from, bits))
}
