// Where the contents of two files part.
#![tactic(auto)]

ghost use Rattle.std.specs.Prelude.{◌≡◌, ◌<◌, ◌≤◌, length};
ghost use Rattle.meaning.specs.Lists.{same};
ghost use Rattle.meaning.specs.Entries.{size_of};
ghost use Rattle.meaning.specs.Read.{fetch};
ghost use Rattle.differences.specs.Compare.{parting};
ghost use Rattle.compare_order.specs.Whole.{WholeDisk, StartsFile};

use layout::Disk;

// Whether two parts of one length are the same. It goes to their end whatever it finds, so that a machine that can compares many bytes at
// once. `==` would do so by a function of C's, which whoever links the library would have to have.
fn equal(a: &[u8], b: &[u8]) -> bool
    requires { length a.now ≡ length b.now }
    ensures { result ≡ same a.now b.now }
{
    let mut same = true;
    for i in 0..a.len() {
        same = same & (a[i] == b[i]);
    }
    same
}

// How many bytes at the start of two parts are alike.
fn alike(a: &[u8], b: &[u8]) -> usize
    requires { length a.now ≡ length b.now }
    ensures { (result ≡ parting a.now b.now) × (result ≤ length a.now) }
{
    if equal(a, b) {
        return a.len();
    }
    a.iter().zip(b).position(|(x, y)| x != y).unwrap_or(a.len())
}

// So many bytes are compared in one turn, at the most: where two files part at once, no more of a long run is looked at.
const PART: usize = 4096;

// How many bytes are compared in one turn, where so many are left of the runs and of the files.
fn part(x: usize, y: usize, z: usize) -> usize
    requires { (0 < x) × (0 < y) × (0 < z) }
    ensures { (0 < result) × (result ≤ x) × (result ≤ y) × (result ≤ z) }
{
    x.min(y).min(z).min(PART)
}

// The first position where the contents of two files part, or the smaller size: by as many bytes as lie in one run of both.
pub fn parting_at(first: &Disk, second: &Disk, s: usize, t: usize, n: usize, m: usize) -> usize
    requires { WholeDisk first.now.g first.now.image.now × WholeDisk second.now.g second.now.image.now × StartsFile first.now.g first.now.image.now s
        × StartsFile second.now.g second.now.image.now t
        × (n ≡ size_of first.now.g first.now.image.now s) × (m ≡ size_of second.now.g second.now.image.now t) × (n < 16777216) × (m < 16777216) }
    ensures { result ≡ parting (fetch first.now.g first.now.image.now s 0 n) (fetch second.now.g second.now.image.now t 0 m) }
{
    let end = n.min(m);
    let mut a = file_runs::begin(first, s);
    let mut b = file_runs::begin(second, t);
    let mut i = 0;
    // a turn goes on by as many bytes as lie in one run of both
    while i < end {
        a = file_runs::reach(first, s, a, i);
        b = file_runs::reach(second, t, b, i);
        let len = part(a.to - i, b.to - i, end - i);
        let p = a.at + (i - a.from);
        let q = b.at + (i - b.from);
        let pe = p + len;
        let qe = q + len;
        let c = alike(&first.image[p..pe], &second.image[q..qe]);
        if c != len {
            return i + c;
        }
        i += len;
    }
    i
}
