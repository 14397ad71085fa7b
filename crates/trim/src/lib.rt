// Trim: the granules that a file has no need of are dropped, the last ones first, run by run.
#![tactic(auto)]

ghost use Rattle.std.specs.Prelude.{◌≡◌, ◌+◌, ◌-◌, ◌*◌, ◌/◌, ◌<◌, ◌≤◌, length};
ghost use Rattle.meaning.specs.Lists.{times};
ghost use Rattle.meaning.specs.Layout.{field, set_field, entry_at};
ghost use Rattle.meaning.specs.Chain.{owned};
ghost use Rattle.meaning.specs.Growth.{tail};
ghost use Rattle.meaning.specs.Drop.{unhooked, drop_one};
ghost use Rattle.meaning.specs.Refusals.{check};
ghost use Rattle.meaning.specs.Trim.{trim};
ghost use Rattle.trim.specs.Last.{Last, Dropping};

use layout::Disk;
use meaning::{Answer, Geometry, Handle, Refusal};

// Pair k of the entry at slot e, shorter by m.
fn shorten(image: &mut [u8], g: Geometry, e: usize, k: usize, m: usize)
    requires { (entry_at g e + 32 ≤ length image.old) × (k < 4) × (m ≤ field g image.old e (0x17 + 2 * k)) }
    ensures { image.new ≡ set_field g image.old e (0x17 + 2 * k) (field g image.old e (0x17 + 2 * k) - m) }
{
    let second = layout::entry_byte(image, g, e, layout::SECONDS + 2 * k);
    layout::set_field(image, g, e, layout::SECONDS + 2 * k, second - m);
}

// Pair k of the entry at slot e, emptied.
fn empty_pair(image: &mut [u8], g: Geometry, e: usize, k: usize)
    requires { (entry_at g e + 32 ≤ length image.old) × (k < 4) }
    ensures { image.new ≡ set_field g (set_field g image.old e (0x16 + 2 * k) 0xff) e (0x17 + 2 * k) 0xff }
{
    layout::set_pair(image, g, e, k, layout::ENDS, layout::ENDS);
}

// An emptied extension at slot e, and the entry before it.
fn unhook(image: &mut [u8], g: Geometry, p: usize, e: usize, before: usize)
    requires { (entry_at g e + 32 ≤ length image.old) × (entry_at g before + 32 ≤ length image.old) × (e < 256) }
    ensures { image.new ≡ unhooked g image.old e before }
{
    layout::set_field(image, g, e, layout::FLAGS, 0x80);
    layout::set_hit(image, g, e, 0);
    layout::set_link(image, g, e, layout::ENDS, layout::ENDS);
    layout::set_link(image, g, before, layout::ENDS, layout::ENDS);
}

// The last entry of a file that loses granules, and how many it has still to lose.
#[derive(Clone, Copy)]
pub struct Dropped {
    pub last: usize,
    pub left: usize,
}

// The file at slot p, whose last entry is at slot e, loses n granules of its last run, or all of that where it has no more.
fn drop_run(image: &mut [u8], g: Geometry, p: usize, e: usize, n: usize) -> Dropped
    requires { Last g image.old p e n × (0 < n) }
    ensures { Dropping g p image.old n image.new result.last result.left × (result.left < n) }
{
    let disk = Disk { image, g };
    let k = disk.runs(e) - 1;
    // read once, as in `space::mark_entry`
    let block = disk.field(e, layout::BLOCKS + 2 * k);
    let second = disk.field(e, layout::SECONDS + 2 * k);
    let len = 1 + second % 32;
    let a = block * g.units + second / 32;
    let extension = disk.flag(e, layout::EXTENSION);
    let before = disk.field(e, layout::BACK);
    if n < len {
        space::free_run(image, g, a + len - n, n);
        shorten(image, g, e, k, n);
        return Dropped { last: e, left: 0 };
    }
    space::free_run(image, g, a, len);
    empty_pair(image, g, e, k);
    if extension && k == 0 {
        unhook(image, g, p, e, before);
        return Dropped {
            last: before,
            left: n - len,
        };
    }
    Dropped {
        last: e,
        left: n - len,
    }
}

// The file at slot p, whose last entry is at slot e, loses its last n granules.
fn drop_last(image: &mut [u8], g: Geometry, p: usize, e: usize, n: usize)
    requires { Last g image.old p e n }
    ensures { image.new ≡ times n (drop_one g p) image.old }
{
    let mut rest = Dropped { last: e, left: n };
    // a step drops as many granules as a run has: no `for`
    while 0 < rest.left {
        rest = drop_run(image, g, p, rest.last, rest.left);
    }
}

// Trim of a disk whose check answered `checked`.
pub fn trim_checked(image: &mut [u8], g: Geometry, h: Handle, checked: Refusal) -> Answer
    requires { checked ≡ check g image.old }
    ensures { (result, image.new) ≡ trim g image.old h }
{
    let ranged = handle::in_range(g, h);
    if let Err(refusal) = handle::admits_changing(image, g, h, ranged, 4, checked) {
        return Answer { refusal, handle: h };
    }
    let disk = Disk { image, g };
    let keeps = disk.field(h.slot, layout::DAY);
    if !layout::is_set(keeps, layout::KEEPS_SPACE) {
        let needed = extent::granules_for(g, disk.size_of(h.slot));
        let extent = extent::measure(&disk, h.slot);
        drop_last(image, g, h.slot, extent.last, extent.owned - needed);
    }
    Answer {
        refusal: refusal::accepted(checked),
        handle: h,
    }
}
