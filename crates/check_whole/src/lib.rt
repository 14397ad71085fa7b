// The check of a whole disk whose geometry and image length fit: every clause of "A consistent disk".
#![tactic(auto)]

ghost use Rattle.std.specs.Prelude.{◌≡◌, ◌+◌, ◌/◌, ◌<◌};
ghost use Rattle.meaning.specs.Layout.{directory_sectors, granule_sectors, round_up};
ghost use Rattle.meaning.specs.Consistent.{length_holds, consistent};
ghost use Rattle.check_map.specs.Owners.{standing};
ghost use Rattle.check_map.specs.Eight.{Spans};
ghost use Rattle.check_whole.specs.Slots.{FitsImage, sector_slots, disk_slots};
ghost use Rattle.check_file.specs.Slots.{Seen, Directory};

use layout::Disk;
use meaning::Geometry;

// Whether the 1FH byte is allowed and the directory fits the image.
#[tactic(auto, unfolding(meaning::specs::Consistent::length_holds, meaning::specs::Layout::directory_sectors, meaning::specs::Lists::all))]
pub fn length_holds(image: &[u8], g: Geometry) -> bool
    requires { FitsImage g image.now }
    ensures { result ≡ length_holds g image.now }
{
    let above = usize::from(image[layout::hit_at(image, g, 31)]);
    matches!(above, 0 | 5 | 10 | 15 | 20)
        && g.start + (10 + above) <= layout::granules(g) * layout::granule_sectors(g)
}

// The slots of one sector of the directory, which stand below each other in a column of the HIT.
fn sector_holds(
    disk: &Disk,
    column: usize,
    map: &mut [u8; 192],
    met: &mut [u8; 256],
    from: usize,
    bits: u64,
) -> bool
    requires { (column + 2 < directory_sectors disk.now.g disk.now.image.now) × Directory disk.now.g disk.now.image.now from bits }
    ensures { Seen disk.now.g disk.now.image.now (sector_slots column) (standing disk.now.g disk.now.image.now map.old)
        (standing disk.now.g disk.now.image.now map.new) met.old met.new result }
{
    let mut at = layout::entry_at(disk.image, disk.g, column);
    let mut s = column;
    // A slot's number and its entry's place step together, each by 32. A `for` over the rows was tried: the whole check costs up to 6 % more.
    while s < 256 {
        if !check_file::slot_holds(disk, s, at, map, met, from, bits) {
            return false;
        }
        at += 32;
        s += 32;
    }
    true
}

// All slots, in the order in which their entries stand on the disk.
fn slots_hold(disk: &Disk, map: &mut [u8; 192], met: &mut [u8; 256], from: usize, bits: u64) -> bool
    requires { Directory disk.now.g disk.now.image.now from bits }
    ensures { Seen disk.now.g disk.now.image.now (disk_slots disk.now.g disk.now.image.now) (standing disk.now.g disk.now.image.now map.old)
        (standing disk.now.g disk.now.image.now map.new) met.old met.new result }
{
    for column in 0..disk.columns() {
        if !sector_holds(disk, column, map, met, from, bits) {
            return false;
        }
    }
    true
}

// The first of the eight bytes of the owner map that the directory's granules stand in.
fn directory_from(disk: &Disk) -> usize
    ensures { Spans disk.now.g.units (disk.now.g.start / granule_sectors disk.now.g) (round_up (directory_sectors disk.now.g disk.now.image.now)
        (granule_sectors disk.now.g)) result }
{
    let block = disk.g.start / layout::granule_sectors(disk.g) / disk.g.units;
    block.min(check_map::LAST_EIGHT)
}

// The bits of the directory's granules in them.
fn directory_bits(disk: &Disk, from: usize) -> u64
    requires { Spans disk.now.g.units (disk.now.g.start / granule_sectors disk.now.g) (round_up (directory_sectors disk.now.g disk.now.image.now)
        (granule_sectors disk.now.g)) from }
    ensures { Directory disk.now.g disk.now.image.now from result }
{
    check_map::directory_bits(
        disk.g.units,
        disk.g.start / layout::granule_sectors(disk.g),
        disk.directory_granules(),
        from,
    )
}

// Whether the disk is consistent. The geometry and the image's length fit.
pub fn consistent(image: &[u8], g: Geometry) -> bool
    requires { FitsImage g image.now }
    ensures { result ≡ consistent g image.now }
{
    if !length_holds(image, g) {
        return false;
    }
    let disk = Disk { image, g };
    let from = directory_from(&disk);
    let bits = directory_bits(&disk, from);
    let mut map = [0u8; 192];
    check_map::gat_map(&disk, &mut map);
    let mut met = [0u8; 256];
    check_met::copy_hit(&disk, &mut met);
    if check_map::among(&map, from, bits) != 0
        || !slots_hold(&disk, &mut map, &mut met, from, bits)
        || !check_met::all_met(&disk, &met)
    {
        return false;
    }
    check_names::names_differ(&disk)
}
