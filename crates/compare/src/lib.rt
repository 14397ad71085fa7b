// Compare: the differences of two disks by rising names, one told a call.
#![tactic(auto)]

ghost use Rattle.std.specs.Prelude.{◌≡◌, drop};
ghost use Rattle.meaning.specs.Entries.{name_of};
ghost use Rattle.meaning.specs.Refusals.{check};
ghost use Rattle.meaning.specs.Plain.{file_at};
ghost use Rattle.layout.specs.Room.{Slot};
ghost use Rattle.differences.specs.Compare.{name_only, unlike, difference, tells_none, tell_first, differences, compare};
ghost use Rattle.compare_order.specs.Whole.{WholeDisk, StartsFile};
ghost use Rattle.compare_order.specs.Walk.{Files, name_at, on_first, on_second};
ghost use Rattle.compare.specs.Kind.{contents_differ, kind_of};

use compare_order::Pair;
use differences::Difference;
use layout::Disk;
use meaning::{Geometry, Refusal};

// Whether two contents differ that part at `at`.
fn contents_differ(at: usize, n: usize, m: usize) -> bool
    ensures { result ≡ contents_differ at n m }
{
    n != m || at != n
}

#[tactic(auto, unfolding(crate::specs::Kind::kind_of, meaning::specs::Lists::any))]
fn kind_of(contents: bool, size: bool, date: bool, other: bool) -> u8
    ensures { result ≡ kind_of contents size date other }
{
    if contents || size || date || other {
        3
    } else {
        0
    }
}

// A difference, or none, of which only the name counts.
fn name_only(disk: &Disk, s: usize, kind: u8) -> Difference
    requires { Slot disk.now.g disk.now.image.now s }
    ensures { result ≡ name_only (name_of disk.now.g disk.now.image.now s) kind }
{
    Difference {
        kind,
        name: entry::name_of(disk, s),
        ..tells_none(refusal::none())
    }
}

// Two files of one name, neither of them a system file.
fn unlike(first: &Disk, second: &Disk, s: usize, t: usize) -> Difference
    requires { WholeDisk first.now.g first.now.image.now × WholeDisk second.now.g second.now.image.now × StartsFile first.now.g first.now.image.now s
        × StartsFile second.now.g second.now.image.now t }
    ensures { result ≡ unlike (name_of first.now.g first.now.image.now s) (file_at first.now.g first.now.image.now s)
        (file_at second.now.g second.now.image.now t) }
{
    let n = first.size_of(s);
    let m = second.size_of(t);
    let at = compare_bytes::parting_at(first, second, s, t, n, m);
    let contents = contents_differ(at, n, m);
    let size = n != m;
    let date = compare_attributes::dates_differ(first, second, s, t);
    let other = compare_attributes::others_differ(first, second, s, t);
    let kind = kind_of(contents, size, date, other);
    Difference {
        refusal: refusal::none(),
        kind,
        name: entry::name_of(first, s),
        at,
        contents,
        size,
        date,
        other,
    }
}

// What stands under one name, on the first disk and on the second.
fn difference_at(first: &Disk, second: &Disk, p: Pair) -> Difference
    requires { WholeDisk first.now.g first.now.image.now × WholeDisk second.now.g second.now.image.now
        × Files first.now.g first.now.image.now second.now.g second.now.image.now p }
    ensures { result ≡ difference (name_at first.now.g first.now.image.now second.now.g second.now.image.now p)
        (on_first first.now.g first.now.image.now second.now.g second.now.image.now p)
        (on_second first.now.g first.now.image.now second.now.g second.now.image.now p) }
{
    match p {
        Pair::First(s) => name_only(first, s, 1),
        Pair::Second(t) => name_only(second, t, 2),
        Pair::Both(s, t) => {
            if first.system(s) || second.system(t) {
                name_only(first, s, 0)
            } else {
                unlike(first, second, s, t)
            }
        }
    }
}

// Nothing told: a refusal with the image it names, or "no more".
pub fn tells_none(c: Refusal) -> Difference
    ensures { result ≡ tells_none c }
{
    Difference {
        refusal: c,
        kind: 0,
        name: [0u8; 11],
        at: 0,
        contents: false,
        size: false,
        date: false,
        other: false,
    }
}

// The difference of that number, by rising names; or "no more".
fn told(first: &Disk, second: &Disk, number: usize) -> Difference
    requires { WholeDisk first.now.g first.now.image.now × WholeDisk second.now.g second.now.image.now }
    ensures { result ≡ tell_first (drop number (differences first.now.g first.now.image.now second.now.g second.now.image.now)) }
{
    let mut ours = [0u8; 256];
    let mut theirs = [0u8; 256];
    let n = compare_order::sort(first, &mut ours);
    let m = compare_order::sort(second, &mut theirs);
    let mut left = number;
    let mut i = 0;
    let mut j = 0;
    while let Some(p) = compare_order::next_pair(first, second, &ours[..n], i, &theirs[..m], j) {
        let x = difference_at(first, second, p);
        if x.kind != 0 {
            if left == 0 {
                return x;
            }
            left -= 1;
        }
        match p {
            Pair::First(_) => i += 1,
            Pair::Second(_) => j += 1,
            Pair::Both(_, _) => {
                i += 1;
                j += 1;
            }
        }
    }
    tells_none(refusal::none())
}

// Compare, of two disks whose checks answered `checked` and `checked2`.
pub fn compare_checked(
    first: &[u8],
    g: Geometry,
    second: &[u8],
    h: Geometry,
    number: usize,
    checked: Refusal,
    checked2: Refusal,
) -> Difference
    requires { (checked ≡ check g first.now) × (checked2 ≡ check h second.now) }
    ensures { result ≡ compare g first.now h second.now number }
{
    if checked.number != 0 {
        return tells_none(refusal::naming(1, checked));
    }
    if checked2.number != 0 {
        return tells_none(refusal::naming(2, checked2));
    }
    let first = Disk { image: first, g };
    let second = Disk {
        image: second,
        g: h,
    };
    told(&first, &second, number)
}
