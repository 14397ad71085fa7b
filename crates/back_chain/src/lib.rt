// A killed file, as far as it still stands: its chain is followed and its entries written down, and name and size are tested.
#![tactic(auto)]

ghost use Rattle.std.specs.Prelude.{◌≡◌, ◌≤◌, length};
ghost use Rattle.meaning.specs.Consistent.{link_holds_by};
ghost use Rattle.layout.specs.Room.{Slot};
ghost use Rattle.check_map.specs.Owners.{standing};
ghost use Rattle.check_walk.specs.Walk.{runs_of};
ghost use Rattle.back_chain.specs.Line.{Visits, Lined, Wholly};

use layout::Disk;

// Whether an entry with so many runs ends its chain, or leads on to a killed extension.
#[tactic(auto, unfolding(meaning::specs::Consistent::link_holds_by, meaning::specs::Lists::any, meaning::specs::Lists::all))]
fn link_holds(disk: &Disk, s: usize, runs: usize) -> bool
    requires { Slot disk.now.g disk.now.image.now s × (runs ≡ runs_of disk.now.g disk.now.image.now s) }
    ensures { result ≡ link_holds_by disk.now.g disk.now.image.now 0x80 s }
{
    let marker = disk.field(s, layout::MARKER);
    marker == layout::ENDS
        || marker == layout::HANDS_ON
            && entry::follows(disk, 0x80, s, disk.field(s, layout::LINK))
            && runs == 4
}

// One entry of a killed file: how many granules it has, if it holds. In `map` a granule's bit is clear, and `met` has 1 for a slot, where no entry
// before had it.
fn visit(disk: &Disk, s: usize, map: &mut [u8; 192], met: &mut [u8; 256]) -> Option<usize>
    requires { Slot disk.now.g disk.now.image.now s }
    ensures { Visits disk.now.g disk.now.image.now s (standing disk.now.g disk.now.image.now map.old) (standing disk.now.g disk.now.image.now map.new)
        met.old met.new result }
{
    if met[s] == 0 {
        return None;
    }
    met[s] = 0;
    let at = check_walk::entry_at(disk, s);
    let p = check_walk::take_runs(disk, s, at, map)?;
    if !link_holds(disk, s, p.runs) {
        return None;
    }
    Some(p.granules)
}

// The chain of a killed file, every entry of which holds, none and no granule twice: how many there are.
#[derive(Clone, Copy)]
pub struct Walked {
    pub slots: usize,
    pub granules: usize,
}

// The chain from slot s on, at most `most` entries. Their slots go to `entries`.
fn line(disk: &Disk, s: usize, most: usize, entries: &mut [usize; 256]) -> Option<Walked>
    requires { Slot disk.now.g disk.now.image.now s × (most ≤ 256) × (length entries.old ≡ 256) }
    ensures { Lined disk.now.g disk.now.image.now most s entries.new result }
{
    let mut map = [0u8; 192];
    let mut met = [1u8; 256];
    let mut at = s;
    let mut granules = 0;
    for n in 0..most {
        entries[n] = at;
        granules += visit(disk, at, &mut map, &mut met)?;
        if disk.field(at, layout::MARKER) == layout::ENDS {
            return Some(Walked {
                slots: n + 1,
                granules,
            });
        }
        at = disk.field(at, layout::LINK);
    }
    Some(Walked {
        slots: most,
        granules,
    })
}

// The killed file at slot s, if it is whole: `entries` holds its slots.
pub fn whole(disk: &Disk, s: usize, entries: &mut [usize; 256]) -> Option<Walked>
    requires { Slot disk.now.g disk.now.image.now s × (length entries.old ≡ 256) }
    ensures { Wholly disk.now.g disk.now.image.now s entries.new result }
{
    if disk.flag(s, layout::EXTENSION) {
        return None;
    }
    if !entry::name_holds(disk, s) {
        return None;
    }
    let l = line(disk, s, disk.slots(), entries)?;
    if !entry::size_holds(disk, s, l.granules) {
        return None;
    }
    Some(l)
}
