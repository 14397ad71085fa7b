// Whether each entry in use stands in the chain of a file: a byte a slot, 0 once the slot was met.
#![tactic(auto)]

ghost use Rattle.std.specs.Prelude.{◌≡◌, ◌+◌, ◌≤◌, length};
ghost use Rattle.meaning.specs.Lists.{count, every};
ghost use Rattle.meaning.specs.Layout.{slots};
ghost use Rattle.check_met.specs.Met.{HitCopied, met_at};

use layout::Disk;

// Each slot at its HIT byte: at 0 where it is not in use.
pub fn copy_hit(disk: &Disk, met: &mut [u8; 256])
    requires { length met.old ≡ 256 }
    ensures { HitCopied disk.now.g disk.now.image.now met.new }
{
    let hit = layout::hit_at(disk.image, disk.g, 0);
    met.copy_from_slice(&disk.image[hit..hit + 256]);
}

// Whether a row of slots from `first` on stands at 0, by eight. The last eight end with the row: some of them may be among those before.
fn row_met(met: &[u8; 256], first: usize, columns: usize) -> bool
    requires { (8 ≤ columns) × (first + columns ≤ 256) }
    ensures { result ≡ every (met_at met.now) (count first columns) }
{
    let end = first + columns;
    let mut at = first;
    // By eight: no range counts these steps.
    while at + 8 < end {
        if layout::eight(met, at) != 0 {
            return false;
        }
        at += 8;
    }
    layout::eight(met, end - 8) == 0
}

// Whether each entry in use was met in some chain: all slots stand at 0.
pub fn all_met(disk: &Disk, met: &[u8; 256]) -> bool
    ensures { result ≡ every (met_at met.now) (slots disk.now.g disk.now.image.now) }
{
    let columns = disk.directory_sectors() - 2;
    for row in 0..8 {
        if !row_met(met, 32 * row, columns) {
            return false;
        }
    }
    true
}
