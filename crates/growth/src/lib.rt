// A file grows: granules are taken run by run, first on paper, then on the disk.
#![tactic(auto)]

ghost use Rattle.std.specs.Prelude.{◌≡◌, true, false, cond, ◌+◌, ◌*◌, ◌/◌, ◌%◌, ◌<◌, ◌≤◌, length};
ghost use Rattle.meaning.specs.Layout.{granules, field, set_field, take_granule, entry_at};
ghost use Rattle.meaning.specs.Entries.{no_growth};
ghost use Rattle.meaning.specs.Free.{free_granules};
ghost use Rattle.meaning.specs.Growth.{with_extension, tail, grow_by, fails, with_granules, lacking};
ghost use Rattle.meaning.specs.Refusals.{first, accepted, cannot_grow};
ghost use Rattle.laws.specs.Steps.{Ready};
ghost use Rattle.layout.specs.Room.{Room, Slot};
ghost use Rattle.growth.specs.Inside.{Inside};
ghost use Rattle.growth.specs.Choose.{choice_by, Known, Picked, Leaves};
ghost use Rattle.refusal.specs.Why.{number_of};
ghost use Rattle.growth.specs.Longer.{longer, Further};

use layout::Disk;
use meaning::Geometry;
use refusal::Why;

// Where a new run starts; by the second choice, how long the stretch there is.
#[derive(Clone, Copy)]
pub struct Chosen {
    pub at: usize,
    pub most: usize,
}

// m further granules, from a on, in pair k of the entry at slot e: in the GAT, and in the entry where it writes.
fn put_longer(image: &mut [u8], g: Geometry, e: usize, k: usize, a: usize, m: usize, writes: bool)
    requires { Room g image.old × (entry_at g e + 32 ≤ length image.old) × (a + m ≤ granules g) × (k < 4)
        × (writes ≡ true → field g image.old e (0x17 + 2 * k) % 32 + m < 32) }
    ensures { image.new ≡ longer g writes e (0x17 + 2 * k) a m image.old }
{
    let second = layout::entry_byte(image, g, e, layout::SECONDS + 2 * k);
    space::take_run(image, g, a, m);
    if !writes {
        return;
    }
    layout::set_field(image, g, e, layout::SECONDS + 2 * k, second + m);
}

// Granule n as a run of its own, pair k of the entry at slot e: in the GAT, and in the entry where it writes.
fn put_pair(image: &mut [u8], g: Geometry, e: usize, k: usize, n: usize, writes: bool)
    requires { Inside g (length image.old) e n × (k < 4) }
    ensures { image.new ≡ take_granule g
        (cond writes (set_field g (set_field g image.old e (0x16 + 2 * k) (n / g.units)) e (0x17 + 2 * k) (n % g.units * 32)) image.old)
        n }
{
    if !writes {
        layout::take_granule(image, g, n);
        return;
    }
    layout::set_pair(image, g, e, k, n / g.units, n % g.units * 32);
    layout::take_granule(image, g, n);
}

// Slot x as an extension after the entry at slot e of the file at slot p.
fn put_extension(image: &mut [u8], g: Geometry, p: usize, e: usize, x: usize, writes: bool)
    requires { (entry_at g e + 32 ≤ length image.old) × (entry_at g x + 32 ≤ length image.old) × (p < 256) × (e < 256) × (x < 256) }
    ensures { image.new ≡ cond writes (with_extension g p image.old e x) image.old }
{
    if !writes {
        return;
    }
    let hash = usize::from(image[layout::hit_at(image, g, p)]);
    layout::set_link(image, g, e, layout::HANDS_ON, x);
    let entry: [u8; 32] = [
        0x90, e as u8, 0, 0, 0, 0, 0, 0, 0, 0, 0, 0, 0, 0, 0, 0, 0, 0, 0, 0, 0, 0, 0xff, 0xff,
        0xff, 0xff, 0xff, 0xff, 0xff, 0xff, 0xff, 0xff,
    ];
    entry::put(image, g, x, &entry, hash);
}

// Where a new run starts: at the lowest free granule, of which none is below `next`; or at the low end of the longest free stretch, of which none
// has more than `most` granules, and none of so many starts below `next`. No stretch gets longer as granules are taken: so the next one as long
// is looked for upwards, and all of the disk only where there is none.
fn choose(disk: &Disk, next: usize, most: usize, lowest: bool) -> Chosen
    requires { (1 ≤ length (free_granules disk.now.g disk.now.image.now)) × Known disk.now.g disk.now.image.now lowest next most }
    ensures { Picked disk.now.g disk.now.image.now lowest result }
{
    if lowest {
        return Chosen {
            at: growth_search::next_free(disk, next),
            most,
        };
    }
    let s = growth_search::longest_from(disk, next, most);
    if most <= s.long {
        return Chosen {
            at: s.low,
            most: s.long,
        };
    }
    let t = growth_search::longest_from(disk, 0, most);
    Chosen {
        at: t.low,
        most: t.long,
    }
}

// How many granules of `left` the last run takes at once: it ends before granule `after` and has `long`, and up to 32 of them.
fn further(disk: &Disk, after: usize, long: usize, left: usize) -> usize
    ensures { Further disk.now.g disk.now.image.now after long left result }
{
    let total = layout::granules(disk.g);
    if layout::MOST_RUN <= long {
        return 0;
    }
    if total <= after {
        return 0;
    }
    let most = left.min((layout::MOST_RUN - long).min(total - after));
    growth_search::clear_from(disk, after, most)
}

// k further granules for the file at slot p, whose last entry is at slot e, by 01's choice or by the second; whether that finds too few slots.
// Those that lengthen a run are taken at once. The growth on paper and the one on the disk are this one loop: where it does not write, only
// the GAT shows what it took. A step takes as many granules as there are free behind the run, or one: no `for`. `lowest` is a bool as it is
// in `choice_by`.
fn take_granules(
    image: &mut [u8],
    g: Geometry,
    p: usize,
    e: usize,
    k: usize,
    lowest: bool,
    writes: bool,
) -> bool
    requires { Ready g image.old p × (e ≡ tail g p image.old) × (k ≤ length (free_granules g image.old))
        × (writes ≡ true → fails (grow_by g p (choice_by g lowest) k image.old) ≡ false) }
    ensures { Leaves g p k lowest writes image.old result image.new }
{
    let end = growth_search::last_run(&Disk { image, g }, e);
    let mut last = e;
    let mut runs = end.runs;
    let mut after = end.after;
    let mut long = end.long;
    let mut next = 0;
    let mut most = layout::MOST_GRANULES;
    let mut slot = 0;
    let mut left = k;
    while 0 < left {
        let m = further(&Disk { image, g }, after, long, left);
        if 0 < m {
            put_longer(image, g, last, runs - 1, after, m, writes);
            after += m;
            long += m;
            left -= m;
            continue;
        }
        left -= 1;
        let c = choose(&Disk { image, g }, next, most, lowest);
        let n = c.at;
        next = n;
        most = c.most;
        after = n + 1;
        long = 1;
        if runs < layout::PAIRS {
            put_pair(image, g, last, runs, n, writes);
            runs += 1;
            continue;
        }
        let x = match growth_search::next_slot(&Disk { image, g }, slot) {
            Some(x) => x,
            None => return true,
        };
        put_extension(image, g, p, last, x, writes);
        put_pair(image, g, x, 0, n, writes);
        last = x;
        slot = x + 1;
        runs = 1;
    }
    false
}

// Whether k further granules find too few slots by that choice: the growth on paper. The GAT is put back as it was. Nothing is tried where the
// last entry has a pair for each of them, but for those that lengthen the last run.
fn too_few_slots(image: &mut [u8], g: Geometry, p: usize, e: usize, k: usize, lowest: bool) -> bool
    requires { Ready g image.old p × (e ≡ tail g p image.old) × (k ≤ length (free_granules g image.old)) }
    ensures { (result ≡ fails (grow_by g p (choice_by g lowest) k image.old)) × (image.new ≡ image.old) }
{
    let disk = Disk { image, g };
    let pairs = layout::PAIRS - disk.runs(e);
    if k <= pairs {
        return false;
    }
    let end = growth_search::last_run(&disk, e);
    if k - pairs <= layout::MOST_RUN - end.long {
        if growth_search::all_clear(&disk, end.after, k - pairs) {
            return false;
        }
    }
    let mut gat = [0u8; 192];
    let at = layout::gat_at(image, g, 0);
    gat.copy_from_slice(&image[at..at + 192]);
    let r = take_granules(image, g, p, e, k, lowest, false);
    image[at..at + 192].copy_from_slice(&gat);
    r
}

// E: no growth.
fn no_growth(disk: &Disk, s: usize) -> bool
    requires { Slot disk.now.g disk.now.image.now s }
    ensures { result ≡ no_growth disk.now.g disk.now.image.now s }
{
    layout::is_set(disk.field(s, layout::DAY), layout::NO_GROWTH)
}

// The file at slot p gets what it lacks of the granules wanted, or nothing is changed.
pub fn grow(image: &mut [u8], g: Geometry, p: usize, wanted: usize) -> Result<(), Why>
    requires { Ready g image.old p }
    ensures { (number_of result ≡ first (cannot_grow g image.old p (lacking g image.old p wanted)))
        × (image.new ≡ cond (accepted (number_of result)) (with_granules g image.old p (lacking g image.old p wanted)) image.old) }
{
    let disk = Disk { image, g };
    let x = extent::measure(&disk, p);
    if wanted <= x.owned {
        return Ok(());
    }
    let k = wanted - x.owned;
    if no_growth(&disk, p) {
        return Err(Why::NoGrowth);
    }
    if growth_search::too_few(&disk, k) {
        return Err(Why::TooFewGranules);
    }
    if !too_few_slots(image, g, p, x.last, k, true) {
        take_granules(image, g, p, x.last, k, true, true);
        return Ok(());
    }
    if too_few_slots(image, g, p, x.last, k, false) {
        return Err(Why::TooFewSlots);
    }
    take_granules(image, g, p, x.last, k, false, true);
    Ok(())
}
