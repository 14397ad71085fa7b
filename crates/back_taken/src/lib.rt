// Whether granules are taken: those of an entry, of entries written down in a list.
#![tactic(auto)]

ghost use Rattle.std.specs.Prelude.{◌≡◌, length};
ghost use Rattle.meaning.specs.Lists.{each, some};
ghost use Rattle.meaning.specs.Layout.{taken};
ghost use Rattle.meaning.specs.Entries.{entry_granules};
ghost use Rattle.space.specs.OnDisk.{RunsOnDisk};
ghost use Rattle.back_taken.specs.Listed.{Listed};

use layout::Disk;

// Whether one of an entry's granules is taken.
fn entry_taken(disk: &Disk, s: usize) -> bool
    requires { RunsOnDisk disk.now.g disk.now.image.now s }
    ensures { result ≡ some (taken disk.now.g disk.now.image.now) (entry_granules disk.now.g disk.now.image.now s) }
{
    let n = disk.runs(s);
    (0..n).any(|j| space::run_taken(disk, disk.run_start(s, j), disk.run_length(s, j)))
}

// Whether one of the granules of these entries is taken.
pub fn any_taken(disk: &Disk, entries: &[usize]) -> bool
    requires { Listed disk.now.g disk.now.image.now entries.now (length entries.now) }
    ensures { result ≡ some (taken disk.now.g disk.now.image.now) (each (entry_granules disk.now.g disk.now.image.now) entries.now) }
{
    entries.iter().any(|s| entry_taken(disk, *s))
}
