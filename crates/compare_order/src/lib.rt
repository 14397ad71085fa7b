// The names of two disks, rising. The files of either disk are put into the order of their names once, as a table of slots; then the two
// tables are gone along side by side.
#![tactic(auto)]

ghost use Rattle.std.specs.Prelude.{◌≡◌, ◌+◌, ◌<◌, ◌≤◌, length, get_or, MatchOption};
ghost use Rattle.meaning.specs.Entries.{name_of};
ghost use Rattle.layout.specs.Room.{Slot};
ghost use Rattle.differences.specs.Compare.{before};
ghost use Rattle.compare_order.specs.Whole.{WholeDisk, StartsFile};
ghost use Rattle.compare_order.specs.Walk.{Merges, MergesNone};
ghost use Rattle.compare_order.specs.Table.{InOrder, GoesTo, PutIn};

use layout::Disk;
use std::cmp::Ordering;

// The files of one name, by their slots: only the first disk has one, only the second has, or both have.
#[derive(Clone, Copy)]
pub enum Pair {
    First(usize),
    Second(usize),
    Both(usize, usize),
}

// The name of slot s.
fn name<'a>(disk: &Disk<'a>, s: usize) -> &'a [u8]
    requires { Slot disk.now.g disk.now.image.now s }
    ensures { result.now ≡ name_of disk.now.g disk.now.image.now s }
{
    let p = layout::name_at(disk.image, disk.g, s);
    &disk.image[p..p + 11]
}

// Whether the name of slot s comes before that of slot t.
fn slot_before(disk: &Disk, s: usize, t: usize) -> bool
    requires { Slot disk.now.g disk.now.image.now s × Slot disk.now.g disk.now.image.now t }
    ensures { result ≡ before (name_of disk.now.g disk.now.image.now s) (name_of disk.now.g disk.now.image.now t) }
{
    name(disk, s) < name(disk, t)
}

// Where slot s goes among the files of a table: behind those with an earlier name, found by halving. `partition_point` asks more: that its
// test may be made of any byte, not only of a slot.
fn place_for(disk: &Disk, order: &[u8], s: usize) -> usize
    requires { WholeDisk disk.now.g disk.now.image.now × StartsFile disk.now.g disk.now.image.now s
        × InOrder disk.now.g disk.now.image.now order.now (length order.now) s }
    ensures { GoesTo disk.now.g disk.now.image.now order.now (length order.now) s result }
{
    let mut low = 0;
    let mut high = order.len();
    while low < high {
        let mid = (low + high) / 2;
        if slot_before(disk, usize::from(order[mid]), s) {
            low = mid + 1;
        } else {
            high = mid;
        }
    }
    low
}

// Puts x at place i of the table. What stands from there on, up to place n, moves up by one place.
fn put_at(order: &mut [u8], n: usize, i: usize, x: u8)
    requires { (i ≤ n) × (n < length order.old) }
    ensures { PutIn order.old n i x order.new }
{
    // one by one, since `copy_within` is a `memmove`
    let mut carried = x;
    for k in i..n {
        let next = order[k];
        order[k] = carried;
        carried = next;
    }
    order[n] = carried;
}

// Slot s, after all slots below it: a file goes to its place in the table. How many are there then.
fn visit(disk: &Disk, order: &mut [u8], n: usize, s: usize) -> usize
    requires { WholeDisk disk.now.g disk.now.image.now × Slot disk.now.g disk.now.image.now s × InOrder disk.now.g disk.now.image.now order.old n s
        × (length order.old ≡ 256) }
    ensures { InOrder disk.now.g disk.now.image.now order.new result (s + 1) × (length order.new ≡ 256) }
{
    if !disk.primary(s) {
        return n;
    }
    let i = place_for(disk, &order[..n], s);
    put_at(order, n, i, s as u8);
    n + 1
}

// The slots of all files, by rising names, in the table's first places; how many they are.
pub fn sort(disk: &Disk, order: &mut [u8]) -> usize
    requires { WholeDisk disk.now.g disk.now.image.now × (length order.old ≡ 256) }
    ensures { InOrder disk.now.g disk.now.image.now order.new result 256 × (length order.new ≡ 256) }
{
    let columns = disk.columns();
    let mut n = 0;
    for row in 0..8 {
        let start = 32 * row;
        for s in start..start + columns {
            n = visit(disk, order, n, s);
        }
    }
    n
}

// The slot at place i of a table; none past its end.
fn slot_at(order: &[u8], i: usize) -> Option<usize>
    ensures { MatchOption result (length order.now ≤ i) (λ s. (i < length order.now) × (s ≡ get_or order.now i 0)) }
{
    order.get(i).map(|s| usize::from(*s))
}

// The next name of either disk, where the files of i and j places of the two tables were met; none past the last.
pub fn next_pair(
    first: &Disk,
    second: &Disk,
    ours: &[u8],
    i: usize,
    theirs: &[u8],
    j: usize,
) -> Option<Pair>
    requires { WholeDisk first.now.g first.now.image.now × WholeDisk second.now.g second.now.image.now
        × InOrder first.now.g first.now.image.now ours.now (length ours.now) 256
        × InOrder second.now.g second.now.image.now theirs.now (length theirs.now) 256 }
    ensures { MatchOption result (MergesNone first.now.g first.now.image.now second.now.g second.now.image.now ours.now (length ours.now) i theirs.now
        (length theirs.now) j)
        (λ p. Merges first.now.g first.now.image.now second.now.g second.now.image.now ours.now (length ours.now) i theirs.now (length theirs.now) j p) }
{
    match (slot_at(ours, i), slot_at(theirs, j)) {
        (None, None) => None,
        (Some(s), None) => Some(Pair::First(s)),
        (None, Some(t)) => Some(Pair::Second(t)),
        (Some(s), Some(t)) => match name(first, s).cmp(&name(second, t)) {
            Ordering::Less => Some(Pair::First(s)),
            Ordering::Greater => Some(Pair::Second(t)),
            Ordering::Equal => Some(Pair::Both(s, t)),
        },
    }
}
