// How many slots, from the lowest on, one pass finds clear of a kind of fault (02 §2). The lowest slot at fault is told, so a test that looks at
// all slots below is made at one slot only: where the pass has stopped.
#![tactic(auto)]

ghost use Rattle.std.specs.Prelude.{◌≡◌, true, ◌+◌};
ghost use Rattle.check_map.specs.Owners.{standing};
ghost use Rattle.fault_clear.specs.Clear.{RunsClear, NamesClear, ClearThrough};

use layout::Disk;

// Slot s, after all slots below it: its entry, if it is in use, is taken off the owner map. Whether it could be.
fn taken_off(disk: &Disk, s: usize, map: &mut [u8; 192]) -> bool
    requires { ClearThrough disk.now.g disk.now.image.now s (standing disk.now.g disk.now.image.now map.old) }
    ensures { result ≡ true → ClearThrough disk.now.g disk.now.image.now (s + 1) (standing disk.now.g disk.now.image.now map.new) }
{
    if !disk.is_slot(s) || !disk.flag(s, layout::IN_USE) {
        return true;
    }
    let at = check_walk::entry_at(disk, s);
    check_walk::take_runs(disk, s, at, map).is_some()
}

// Of runs off the disk, GAT bits missing and shared granules: 26, 27 and 28.
pub fn runs_clear(disk: &Disk) -> usize
    ensures { RunsClear disk.now.g disk.now.image.now result }
{
    let mut map = [0u8; 192];
    check_map::gat_map(disk, &mut map);
    for s in 0..256 {
        if !taken_off(disk, s, &mut map) {
            return s;
        }
    }
    256
}

// Of duplicate names, 24: all slots, or none that is known.
pub fn names_clear(disk: &Disk) -> usize
    ensures { NamesClear disk.now.g disk.now.image.now result }
{
    if check_names::names_differ(disk) {
        256
    } else {
        0
    }
}
