// The kinds of fault at one slot (02), but for those of its HIT byte and its name. What the walks come to is written down once for all slots.
#![tactic(auto)]

ghost use Rattle.std.specs.Prelude.{◌≡◌, true, false, not, [], ◌∷◌, ◌+◌, ◌<◌, ◌≤◌, length, get_or, set, MatchOption};
ghost use Rattle.meaning.specs.Lists.{count, every, some, each, has, all, any};
ghost use Rattle.meaning.specs.Layout.{granules, taken, slots, is_slot};
ghost use Rattle.meaning.specs.Entries.{runs, entry_granules, in_use, extension};
ghost use Rattle.meaning.specs.Chain.{chain};
ghost use Rattle.meaning.specs.Consistent.{pairs_hold, runs_hold, gat_holds, size_holds};
ghost use Rattle.meaning.specs.Fault.{used_extension, hands_on, ends, bad_entry, walked, file_of, good_extension, chain_fault, run_fault, gat_fault};
ghost use Rattle.meaning.specs.Fault.{shared_fault, size_fault, directory_fault};
ghost use Rattle.layout.specs.Room.{Slot, Below};
ghost use Rattle.fault_kinds.specs.Reach.{reach};
ghost use Rattle.fault_kinds.specs.Overlap.{runs_meet, run_meets, entries_meet, meets_earlier};
ghost use Rattle.fault_kinds.specs.Tests.{pair_holds, first_file, leads, tally, run_holds, run_in, earlier, shares};
ghost use Rattle.fault_kinds.specs.Noted.{noted, notes, again, WalkNoted, FileNoted, Leading, Told};

use layout::Disk;
use meaning::Geometry;

fn pair_holds(disk: &Disk, s: usize, n: usize, k: usize) -> bool
    requires { Slot disk.now.g disk.now.image.now s × (n ≡ runs disk.now.g disk.now.image.now s) × (k < 4) }
    ensures { result ≡ pair_holds disk.now.g disk.now.image.now s k }
{
    k < n || disk.field(s, layout::BLOCKS + 2 * k) == layout::ENDS
}

// After an FFH block every later pair starts with FFH.
fn pairs_hold(disk: &Disk, s: usize) -> bool
    requires { Slot disk.now.g disk.now.image.now s }
    ensures { result ≡ pairs_hold disk.now.g disk.now.image.now s }
{
    let n = disk.runs(s);
    (0..4).all(|k| pair_holds(disk, s, n, k))
}

// Whether an entry in use is at x.
#[tactic(auto, unfolding(meaning::specs::Lists::all))]
fn used(disk: &Disk, x: usize) -> bool
    ensures { result ≡ all (is_slot disk.now.g disk.now.image.now x ∷ in_use disk.now.g disk.now.image.now x ∷ []) }
{
    disk.is_slot(x) && disk.flag(x, layout::IN_USE)
}

// Whether an extension in use is at x.
#[tactic(auto, unfolding(meaning::specs::Fault::used_extension, meaning::specs::Lists::all))]
fn used_extension(disk: &Disk, x: usize) -> bool
    ensures { result ≡ used_extension disk.now.g disk.now.image.now x }
{
    used(disk, x) && disk.flag(x, layout::EXTENSION)
}

// Whether an entry hands on to the next of its chain. Of four runs the pairs need not be asked: none is empty.
fn hands_on(disk: &Disk, s: usize) -> bool
    requires { Slot disk.now.g disk.now.image.now s }
    ensures { result ≡ hands_on disk.now.g disk.now.image.now s }
{
    disk.field(s, layout::MARKER) == layout::HANDS_ON
        && disk.runs(s) == 4
        && used_extension(disk, disk.field(s, layout::LINK))
}

// Whether an entry is the last of its chain.
fn ends(disk: &Disk, s: usize) -> bool
    requires { Slot disk.now.g disk.now.image.now s }
    ensures { result ≡ ends disk.now.g disk.now.image.now s }
{
    disk.field(s, layout::MARKER) == layout::ENDS && pairs_hold(disk, s)
}

// Whether an entry has a bad marker, pairs or link.
fn bad_entry(disk: &Disk, s: usize) -> bool
    requires { Slot disk.now.g disk.now.image.now s }
    ensures { result ≡ bad_entry disk.now.g disk.now.image.now s }
{
    !ends(disk, s) && !hands_on(disk, s)
}

// How many slots the directory has. Beside `Disk::slots`, since this promises the length of the list that the definitions count.
fn slots(disk: &Disk) -> usize
    ensures { Below 257 (length (slots disk.now.g disk.now.image.now)) result }
{
    disk.slots()
}

// Walks ------------------------------------------------------------------------------------------------------------------

// For slot s: p + 1, unless something is written down for it already. A byte a slot, 0 for none, in memory that the caller lends: there is no
// heap, and `WalkNoted` speaks of these bytes.
fn note(files: &mut [u8; 256], s: usize, p: usize)
    requires { (s < 256) × (p + 1 < 256) }
    ensures { files.new ≡ noted files.old (p + 1) s }
{
    if files[s] == 0 {
        files[s] = (p + 1) as u8;
    }
}

// The entries from slot p on, at most n of them, written down with p.
fn note_walk(disk: &Disk, p: usize, n: usize, files: &mut [u8; 256])
    requires { Slot disk.now.g disk.now.image.now p }
    ensures { files.new ≡ notes files.old (p + 1) (reach disk.now.g disk.now.image.now n p) }
{
    let mut s = p;
    for _ in 0..n {
        note(files, s, p);
        if !hands_on(disk, s) {
            return;
        }
        s = disk.field(s, layout::LINK);
    }
}

// Slot p, after all slots below it: its walk, if a file starts there.
fn note_file(disk: &Disk, p: usize, n: usize, files: &mut [u8; 256])
    requires { (p < 256) × (n ≡ length (slots disk.now.g disk.now.image.now)) × WalkNoted disk.now.g disk.now.image.now p files.old }
    ensures { WalkNoted disk.now.g disk.now.image.now (p + 1) files.new }
{
    if disk.is_slot(p) && disk.primary(p) {
        note_walk(disk, p, n, files);
    }
}

// For each slot the first file whose walk meets it: its number plus 1, or 0 where there is none.
pub fn note_files(disk: &Disk, files: &mut [u8; 256])
    requires { WalkNoted disk.now.g disk.now.image.now 0 files.old }
    ensures { FileNoted disk.now.g disk.now.image.now files.new }
{
    let n = slots(disk);
    for p in 0..256 {
        note_file(disk, p, n, files);
    }
}

// The first file whose walk meets x. What was noted of the disk answers this, as it answers `walked`, `file_of` and `good_extension`: they look at
// no byte of the image, and ask nothing of it.
fn first_file(image: &[u8], g: Geometry, files: &[u8], x: usize) -> Option<usize>
    requires { FileNoted g image.now files.now × (x < 256) }
    ensures { MatchOption result (first_file g image.now x ≡ 256) (λ p. (p ≡ first_file g image.now x) × (p < 256)) }
{
    usize::from(files[x]).checked_sub(1)
}

// Whether some file's walk meets x.
fn walked(image: &[u8], g: Geometry, files: &[u8], x: usize) -> bool
    requires { FileNoted g image.now files.now × (x < 256) }
    ensures { result ≡ has (walked g image.now) x }
{
    first_file(image, g, files, x).is_some()
}

// The file that an entry in use belongs to; s itself where no walk meets it.
pub fn file_of(image: &[u8], g: Geometry, files: &[u8], s: usize) -> usize
    requires { FileNoted g image.now files.now × Slot g image.now s }
    ensures { (result ≡ file_of g image.now s) × Slot g image.now result }
{
    first_file(image, g, files, s).unwrap_or(s)
}

// 1 where x, which a walk comes to from b, follows it, 2 where it does not: the bytes of `goods`, as `Leading` tells them.
fn tally(disk: &Disk, x: usize, b: usize) -> usize
    requires { leads disk.now.g disk.now.image.now x b ≡ true }
    ensures { (result ≡ tally disk.now.g disk.now.image.now x b) × (1 ≤ result) × (result ≤ 2) }
{
    if entry::follows(disk, 0x90, b, x) {
        1
    } else {
        2
    }
}

// For slot x: t, or 2 where something is told of it already.
fn tell(goods: &mut [u8; 256], x: usize, t: usize)
    requires { (x < 256) × (t < 256) }
    ensures { goods.new ≡ set goods.old x (again (get_or goods.old x 0) t) }
{
    goods[x] = if goods[x] == 0 { t as u8 } else { 2 };
}

// Slot b, after all slots below it: what a walk comes to from there.
fn tell_from(disk: &Disk, files: &[u8], b: usize, goods: &mut [u8; 256])
    requires { FileNoted disk.now.g disk.now.image.now files.now × (b < 256) × Leading disk.now.g disk.now.image.now b goods.old }
    ensures { Leading disk.now.g disk.now.image.now (b + 1) goods.new }
{
    if disk.is_slot(b) && hands_on(disk, b) && walked(disk.image, disk.g, files, b) {
        let x = disk.field(b, layout::LINK);
        let t = tally(disk, x, b);
        tell(goods, x, t);
    }
}

// For each slot 1 where an extension there is met in some file's chain, not twice, and well formed.
pub fn note_goods(disk: &Disk, files: &[u8], goods: &mut [u8; 256])
    requires { FileNoted disk.now.g disk.now.image.now files.now × Leading disk.now.g disk.now.image.now 0 goods.old }
    ensures { Told disk.now.g disk.now.image.now goods.new }
{
    for b in 0..256 {
        tell_from(disk, files, b, goods);
    }
}

// Whether an extension is met in some file's chain, not twice, and well formed.
pub fn good_extension(image: &[u8], g: Geometry, goods: &[u8], x: usize) -> bool
    requires { Told g image.now goods.now × (x < 256) }
    ensures { result ≡ good_extension g image.now x }
{
    goods[x] == 1
}

// Chain -----------------------------------------------------------------------------------------------------------------

// Whether an entry is primary, or an extension that is in order.
pub fn linked(disk: &Disk, goods: &[u8], s: usize) -> bool
    requires { Slot disk.now.g disk.now.image.now s × Told disk.now.g disk.now.image.now goods.now }
    ensures { result ≡ any (not (extension disk.now.g disk.now.image.now s) ∷ good_extension disk.now.g disk.now.image.now s ∷ []) }
{
    !disk.flag(s, layout::EXTENSION) || good_extension(disk.image, disk.g, goods, s)
}

pub fn chain_fault(disk: &Disk, goods: &[u8], s: usize) -> bool
    requires { Slot disk.now.g disk.now.image.now s × Told disk.now.g disk.now.image.now goods.now }
    ensures { result ≡ chain_fault disk.now.g disk.now.image.now s }
{
    disk.flag(s, layout::IN_USE) && (bad_entry(disk, s) || !linked(disk, goods, s))
}

// Runs ------------------------------------------------------------------------------------------------------------------

// Whether run k lies on the disk, its first unit below units per block.
fn run_holds(disk: &Disk, s: usize, k: usize) -> bool
    requires { Slot disk.now.g disk.now.image.now s × (k < 4) }
    ensures { result ≡ run_holds disk.now.g disk.now.image.now s k }
{
    disk.field(s, layout::SECONDS + 2 * k) / 32 < disk.g.units
        && disk.run_start(s, k) + disk.run_length(s, k) <= layout::granules(disk.g)
}

fn runs_hold(disk: &Disk, s: usize) -> bool
    requires { Slot disk.now.g disk.now.image.now s }
    ensures { result ≡ runs_hold disk.now.g disk.now.image.now s }
{
    let n = disk.runs(s);
    (0..n).all(|k| run_holds(disk, s, k))
}

pub fn run_fault(disk: &Disk, s: usize) -> bool
    requires { Slot disk.now.g disk.now.image.now s }
    ensures { result ≡ run_fault disk.now.g disk.now.image.now s }
{
    disk.flag(s, layout::IN_USE) && !runs_hold(disk, s)
}

// Whether the GAT bits of n granules from a on are set.
pub fn all_taken(disk: &Disk, a: usize, n: usize) -> bool
    requires { a + n ≤ granules disk.now.g }
    ensures { result ≡ every (taken disk.now.g disk.now.image.now) (count a n) }
{
    (a..a + n).all(|i| disk.taken(i))
}

// A `for`, and not `all` of a closure: that a run lies on the disk, which all_taken asks, is said of one run at a time.
fn gat_holds(disk: &Disk, s: usize) -> bool
    requires { Slot disk.now.g disk.now.image.now s × (runs_hold disk.now.g disk.now.image.now s ≡ true) }
    ensures { result ≡ gat_holds disk.now.g disk.now.image.now s }
{
    let n = disk.runs(s);
    for k in 0..n {
        let a = disk.run_start(s, k);
        let m = disk.run_length(s, k);
        if !all_taken(disk, a, m) {
            return false;
        }
    }
    true
}

// Of an entry whose runs lie on the disk.
pub fn gat_fault(disk: &Disk, s: usize) -> bool
    requires { Slot disk.now.g disk.now.image.now s × (run_fault disk.now.g disk.now.image.now s ≡ false) }
    ensures { result ≡ gat_fault disk.now.g disk.now.image.now s }
{
    disk.flag(s, layout::IN_USE) && !gat_holds(disk, s)
}

// Shared granules -------------------------------------------------------------------------------------------------------

// Whether run k has a granule among the m from b on.
fn run_in(disk: &Disk, s: usize, k: usize, b: usize, m: usize) -> bool
    requires { Slot disk.now.g disk.now.image.now s × (k < 4) × (b < 65536) × (m < 65536) }
    ensures { result ≡ run_in disk.now.g disk.now.image.now b m s k }
{
    let a = disk.run_start(s, k);
    a < b + m && b < a + disk.run_length(s, k)
}

// Whether an entry has a granule among the m from b on.
fn entry_in(disk: &Disk, s: usize, b: usize, m: usize) -> bool
    requires { Slot disk.now.g disk.now.image.now s × (b < 65536) × (m < 65536) }
    ensures { result ≡ some (run_in disk.now.g disk.now.image.now b m s) (count 0 (runs disk.now.g disk.now.image.now s)) }
{
    let n = disk.runs(s);
    (0..n).any(|k| run_in(disk, s, k, b, m))
}

// Whether run k of s and run l of t have a granule in common.
fn runs_meet(disk: &Disk, s: usize, k: usize, t: usize, l: usize) -> bool
    requires { Slot disk.now.g disk.now.image.now s × (k < 4) × Slot disk.now.g disk.now.image.now t × (l < 4) }
    ensures { result ≡ runs_meet disk.now.g disk.now.image.now s k t l }
{
    let b = disk.run_start(t, l);
    let m = disk.run_length(t, l);
    run_in(disk, s, k, b, m)
}

// Whether run k of s has a granule in common with some run of t.
fn run_meets(disk: &Disk, s: usize, t: usize, k: usize) -> bool
    requires { Slot disk.now.g disk.now.image.now s × Slot disk.now.g disk.now.image.now t × (k < 4) }
    ensures { result ≡ run_meets disk.now.g disk.now.image.now s t k }
{
    let n = disk.runs(t);
    (0..n).any(|l| runs_meet(disk, s, k, t, l))
}

// Whether the entries of two slots have a granule in common.
fn entries_meet(disk: &Disk, s: usize, t: usize) -> bool
    requires { Slot disk.now.g disk.now.image.now s × Slot disk.now.g disk.now.image.now t }
    ensures { result ≡ entries_meet disk.now.g disk.now.image.now s t }
{
    let n = disk.runs(s);
    (0..n).any(|k| run_meets(disk, s, t, k))
}

// Whether run l of an entry comes before run k and has a granule in common with it.
fn earlier(disk: &Disk, s: usize, k: usize, l: usize) -> bool
    requires { Slot disk.now.g disk.now.image.now s × (k < 4) × (l < 4) }
    ensures { result ≡ earlier disk.now.g disk.now.image.now s k l }
{
    l < k && runs_meet(disk, s, k, s, l)
}

// Whether run k has a granule in common with an earlier run of its entry.
fn meets_earlier(disk: &Disk, s: usize, k: usize) -> bool
    requires { Slot disk.now.g disk.now.image.now s × (k < 4) }
    ensures { result ≡ meets_earlier disk.now.g disk.now.image.now s k }
{
    let n = disk.runs(s);
    (0..n).any(|l| earlier(disk, s, k, l))
}

// Whether two runs of an entry have a granule in common.
fn twice(disk: &Disk, s: usize) -> bool
    requires { Slot disk.now.g disk.now.image.now s }
    ensures { result ≡ some (meets_earlier disk.now.g disk.now.image.now s) (count 0 (runs disk.now.g disk.now.image.now s)) }
{
    let n = disk.runs(s);
    (0..n).any(|k| meets_earlier(disk, s, k))
}

// Whether the entry of slot t, in use, has a granule with that of s.
#[tactic(auto, unfolding(crate::specs::Tests::shares, meaning::specs::Lists::all))]
fn shares(disk: &Disk, s: usize, t: usize) -> bool
    requires { Slot disk.now.g disk.now.image.now s }
    ensures { result ≡ shares disk.now.g disk.now.image.now s t }
{
    used(disk, t) && entries_meet(disk, s, t)
}

// Whether an entry in a lower slot has a granule of that of s.
fn shared_below(disk: &Disk, s: usize) -> bool
    requires { Slot disk.now.g disk.now.image.now s }
    ensures { result ≡ some (shares disk.now.g disk.now.image.now s) (count 0 s) }
{
    (0..s).any(|t| shares(disk, s, t))
}

pub fn shared_fault(disk: &Disk, s: usize) -> bool
    requires { Slot disk.now.g disk.now.image.now s }
    ensures { result ≡ shared_fault disk.now.g disk.now.image.now s }
{
    disk.flag(s, layout::IN_USE) && (twice(disk, s) || shared_below(disk, s))
}

// Size ------------------------------------------------------------------------------------------------------------------

// Whether no entry from slot p on, of at most n, has a chain fault.
fn whole_from(disk: &Disk, goods: &[u8], p: usize, n: usize) -> bool
    requires { Slot disk.now.g disk.now.image.now p × Told disk.now.g disk.now.image.now goods.now }
    ensures { result ≡ every (λ s. not (chain_fault disk.now.g disk.now.image.now s)) (reach disk.now.g disk.now.image.now n p) }
{
    let mut s = p;
    for _ in 0..n {
        if chain_fault(disk, goods, s) {
            return false;
        }
        if !hands_on(disk, s) {
            return true;
        }
        s = disk.field(s, layout::LINK);
    }
    true
}

// How many granules the entries from slot p on name, at most n of them.
fn count_from(disk: &Disk, p: usize, n: usize) -> usize
    requires { Slot disk.now.g disk.now.image.now p × (n < 257) }
    ensures { Below 65536 (length (each (entry_granules disk.now.g disk.now.image.now) (reach disk.now.g disk.now.image.now n p))) result }
{
    let mut s = p;
    let mut c = 0;
    for _ in 0..n {
        c += extent::entry_length(disk, s);
        if !hands_on(disk, s) {
            return c;
        }
        s = disk.field(s, layout::LINK);
    }
    c
}

// Of a file whose chain its walk meets: n = 0 only with e = 0; the size fits the granules owned.
fn size_holds(disk: &Disk, p: usize, n: usize) -> bool
    requires { Slot disk.now.g disk.now.image.now p × (n < 257) × (reach disk.now.g disk.now.image.now n p ≡ chain disk.now.g disk.now.image.now p) }
    ensures { result ≡ size_holds disk.now.g disk.now.image.now p }
{
    let c = count_from(disk, p, n);
    entry::size_holds(disk, p, c)
}

pub fn size_fault(disk: &Disk, goods: &[u8], p: usize) -> bool
    requires { Slot disk.now.g disk.now.image.now p × Told disk.now.g disk.now.image.now goods.now }
    ensures { result ≡ size_fault disk.now.g disk.now.image.now p }
{
    let n = slots(disk);
    disk.primary(p) && whole_from(disk, goods, p, n) && !size_holds(disk, p, n)
}

// Directory -------------------------------------------------------------------------------------------------------------

pub fn directory_fault(disk: &Disk, files: &[u8], s: usize) -> bool
    requires { Slot disk.now.g disk.now.image.now s × FileNoted disk.now.g disk.now.image.now files.now }
    ensures { result ≡ directory_fault disk.now.g disk.now.image.now s }
{
    let p = file_of(disk.image, disk.g, files, s);
    let b = disk.g.start / layout::granule_sectors(disk.g);
    let m = disk.directory_granules();
    disk.flag(s, layout::IN_USE) && !disk.flag(p, layout::SYSTEM) && entry_in(disk, s, b, m)
}
