// Names: that no two files have the same one.
#![tactic(auto)]

ghost use Rattle.std.specs.Prelude.{◌≡◌, true, ◌+◌, ◌*◌, ◌<◌, ◌≤◌, length, get_or};
ghost use Rattle.meaning.specs.Lists.{every};
ghost use Rattle.meaning.specs.Layout.{entry_at};
ghost use Rattle.meaning.specs.Entries.{in_use_primary};
ghost use Rattle.meaning.specs.Chain.{files};
ghost use Rattle.meaning.specs.Consistent.{names_differ};
ghost use Rattle.layout.specs.Room.{Slot, Below};
ghost use Rattle.check_names.specs.Buckets.{key, key_of, Buckets, Linked, bucket, unlike, Joined, Differing, BucketsVisited};

use layout::Disk;

// Whether no entry of a list has the name of slot s, whose entry is at `at`. The list starts at `first`: a slot's number plus 1, or 0 where
// it ends; `next` tells what follows a slot. An `Option` of a slot takes twice the bytes.
fn alone(disk: &Disk, s: usize, at: usize, first: usize, next: &[u16]) -> bool
    requires { Slot disk.now.g disk.now.image.now s × (at ≡ entry_at disk.now.g s)
        × Linked disk.now.g disk.now.image.now next.now first (bucket disk.now.g disk.now.image.now (key_of disk.now.g disk.now.image.now s) s)
        × (length next.now ≡ 256) × ((k : _) → get_or next.now k 0 ≤ k) }
    ensures { result ≡ every (unlike disk.now.g disk.now.image.now s) (bucket disk.now.g disk.now.image.now (key_of disk.now.g disk.now.image.now s) s) }
{
    let a = at + layout::NAME;
    let name = &disk.image[a..a + 11];
    let mut x = first;
    // The list goes from slot to slot: no range counts its steps.
    while 0 < x {
        let q = x - 1;
        if layout::same_name(disk.image, layout::name_at(disk.image, disk.g, q), name) {
            return false;
        }
        x = usize::from(next[q]);
    }
    true
}

// The number of a name. A prime that a machine divides by with one product.
fn key(name: &[u8]) -> usize
    requires { length name.now ≡ 11 }
    ensures { Below 229 (key name.now) result }
{
    ((layout::eight(name, 0) ^ layout::eight(name, 3)) % 229) as usize
}

// Puts slot s into the list of its number, unless an entry with its name is there. A slot's number plus 1 is a byte: no row has all 32 slots.
fn joins(disk: &Disk, s: usize, at: usize, head: &mut [u8], next: &mut [u16]) -> bool
    requires { Slot disk.now.g disk.now.image.now s × (at ≡ entry_at disk.now.g s) × (in_use_primary disk.now.g disk.now.image.now s ≡ true)
        × Buckets disk.now.g disk.now.image.now s head.old next.old }
    ensures { Joined disk.now.g disk.now.image.now s head.new next.new result }
{
    let a = at + layout::NAME;
    let b = key(&disk.image[a..a + 11]);
    let first = usize::from(head[b]);
    if !alone(disk, s, at, first, next) {
        return false;
    }
    next[s] = first as u16;
    head[b] = (s + 1) as u8;
    true
}

// Slot s, after all slots below it: false if it is a file whose name one of those has.
fn visit(disk: &Disk, s: usize, at: usize, head: &mut [u8], next: &mut [u16]) -> bool
    requires { Slot disk.now.g disk.now.image.now s × (at ≡ entry_at disk.now.g s)
        × Differing disk.now.g disk.now.image.now s head.old next.old }
    ensures { BucketsVisited disk.now.g disk.now.image.now (s + 1) head.new next.new result }
{
    !disk.primary_at(s, at) || joins(disk, s, at, head, next)
}

// The slots of one row, after those of all rows before it.
fn row_differs(disk: &Disk, row: usize, head: &mut [u8], next: &mut [u16]) -> bool
    requires { (row < 8) × Differing disk.now.g disk.now.image.now (32 * row) head.old next.old }
    ensures { BucketsVisited disk.now.g disk.now.image.now (32 * (row + 1)) head.new next.new result }
{
    let first = 32 * row;
    let at = layout::entry_at(disk.image, disk.g, first);
    for column in 0..disk.columns() {
        if !visit(disk, first + column, at + 256 * column, head, next) {
            return false;
        }
    }
    true
}

// Whether no two files have the same name. Names are compared only where their numbers agree.
pub fn names_differ(disk: &Disk) -> bool
    ensures { result ≡ names_differ disk.now.g disk.now.image.now (files disk.now.g disk.now.image.now) }
{
    let mut head = [0u8; 256];
    let mut next = [0u16; 256];
    for row in 0..8 {
        if !row_differs(disk, row, &mut head, &mut next) {
            return false;
        }
    }
    true
}
