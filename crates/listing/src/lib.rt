// The listing: one file a call, and the counts FILES and FREE. `checked` is the answer of the check of the whole disk.
#![tactic(auto)]

ghost use Rattle.std.specs.Prelude.{◌≡◌, [], ◌∷◌, ◌+◌, ◌≤◌, length, drop, MatchOption};
ghost use Rattle.std.proofs.lemmas.List.Edits.{sets};
ghost use Rattle.meaning.specs.Lists.{all};
ghost use Rattle.meaning.specs.Layout.{entry_at};
ghost use Rattle.meaning.specs.Entries.{in_use_primary};
ghost use Rattle.meaning.specs.Listing.{no_file, shown, listed, tell_first, list, counts};
ghost use Rattle.meaning.specs.Refusals.{check};
ghost use Rattle.list_rows.specs.Rows.{row, rows_from, list_from};
ghost use Rattle.layout.specs.Room.{Slot};
ghost use Rattle.seek.specs.Seek.{Walkable, Used};
ghost use Rattle.listing.specs.From.{listed_from, NextListed};

use layout::Disk;
use list_rows::Rows;
use meaning::{Counts, Geometry, Listed, Refusal};
use refusal::Why;

const ROW_BYTES: usize = 20;

// Whether a file that is listed starts at slot s, whose entry is at `at`: a primary entry in use, without the system flag. One byte is read.
fn tells(disk: &Disk, s: usize, at: usize) -> bool
    requires { Slot disk.now.g disk.now.image.now s × (at ≡ entry_at disk.now.g s) }
    ensures { result ≡ all (in_use_primary disk.now.g disk.now.image.now s ∷ shown disk.now.g disk.now.image.now s ∷ []) }
{
    disk.primary_at(s, at) && !layout::is_set(usize::from(disk.image[at]), layout::SYSTEM)
}

// The first slot from `from` on at which a file that is listed starts. Row by row, so that the next entry is 256 bytes on.
fn next_listed(disk: &Disk, from: usize) -> Option<usize>
    ensures { MatchOption result (listed_from disk.now.g disk.now.image.now from ≡ []) (λ s. NextListed disk.now.g disk.now.image.now from s) }
{
    let columns = disk.columns();
    let mut s = from;
    while s < 256 {
        let row = 32 * (s / 32);
        let end = row + columns;
        let mut at = layout::entry_at(disk.image, disk.g, row) + 256 * (s - row);
        while s < end {
            if tells(disk, s, at) {
                return Some(s);
            }
            s += 1;
            at += 256;
        }
        // behind a row's last slot the next row begins
        s = row + 32;
    }
    None
}

// Nothing told of a file: a refusal, or "no more".
fn no_file(c: Refusal) -> Listed
    ensures { result ≡ no_file c }
{
    Listed {
        refusal: c,
        more: false,
        name: [0u8; 11],
        size: 0,
        granules: 0,
    }
}

// The file at slot s: name, size, granules owned.
fn tell(disk: &Disk, s: usize) -> Listed
    requires { Walkable disk.now.g disk.now.image.now × Used disk.now.g disk.now.image.now s }
    ensures { result ≡ tell_first disk.now.g disk.now.image.now (s ∷ []) }
{
    Listed {
        refusal: refusal::none(),
        more: true,
        name: entry::name_of(disk, s),
        size: disk.size_of(s),
        granules: extent::measure(disk, s).owned,
    }
}

// The listed file of that number, by rising slot number; or "no more".
fn told(disk: &Disk, number: usize) -> Listed
    requires { Walkable disk.now.g disk.now.image.now }
    ensures { result ≡ tell_first disk.now.g disk.now.image.now (drop number (listed disk.now.g disk.now.image.now)) }
{
    let mut left = number;
    let mut from = 0;
    while let Some(s) = next_listed(disk, from) {
        if left == 0 {
            return tell(disk, s);
        }
        left -= 1;
        from = s + 1;
    }
    no_file(refusal::none())
}

// List, of a disk whose check answered `checked`.
pub fn list_checked(image: &[u8], g: Geometry, number: usize, checked: Refusal) -> Listed
    requires { checked ≡ check g image.now }
    ensures { result ≡ list g image.now number }
{
    if checked.number != 0 {
        return no_file(checked);
    }
    told(&Disk { image, g }, number)
}

// FILES: how many files are listed.
fn files_count(disk: &Disk) -> usize
    ensures { result ≡ length (listed disk.now.g disk.now.image.now) }
{
    let mut n = 0;
    let mut from = 0;
    while let Some(s) = next_listed(disk, from) {
        n += 1;
        from = s + 1;
    }
    n
}

// The counts FILES and FREE, of a disk whose check answered `checked`.
pub fn counts_checked(image: &[u8], g: Geometry, checked: Refusal) -> Counts
    requires { checked ≡ check g image.now }
    ensures { result ≡ counts g image.now }
{
    if checked.number != 0 {
        return Counts {
            refusal: checked,
            files: 0,
            free: 0,
        };
    }
    let disk = Disk { image, g };
    Counts {
        refusal: checked,
        files: files_count(&disk),
        free: space::free_count(&disk),
    }
}

// The row of the file at slot s goes to the table's 20 bytes from `to` on.
fn put_row(disk: &Disk, s: usize, table: &mut [u8], to: usize)
    requires { Walkable disk.now.g disk.now.image.now × Used disk.now.g disk.now.image.now s × (to + 20 ≤ length table.old) }
    ensures { table.new ≡ sets table.old to (row disk.now.g disk.now.image.now s) }
{
    let size = disk.size_of(s).to_le_bytes();
    let granules = extent::measure(disk, s).owned.to_le_bytes();
    let numbers = [
        s as u8,
        size[0],
        size[1],
        size[2],
        size[3],
        granules[0],
        granules[1],
        0,
        0,
    ];
    let name = entry::name_of(disk, s);
    copy::put_part(table, to, &name, 0, 11);
    copy::put_part(table, to + 11, &numbers, 0, 9);
}

// The rows of the listed files from that number on, as many as fit; how many.
fn put_rows(disk: &Disk, number: usize, table: &mut [u8]) -> usize
    requires { Walkable disk.now.g disk.now.image.now }
    ensures { (result, table.new) ≡ rows_from disk.now.g disk.now.image.now number table.old }
{
    let mut left = number;
    let mut n = 0;
    let mut from = 0;
    while let Some(s) = next_listed(disk, from) {
        if left == 0 {
            if table.len() < ROW_BYTES * n + ROW_BYTES {
                return n;
            }
            put_row(disk, s, table, ROW_BYTES * n);
            n += 1;
        } else {
            left -= 1;
        }
        from = s + 1;
    }
    n
}

// The listing in one call, of a disk whose check answered `checked`.
pub fn list_from_checked(
    image: &[u8],
    g: Geometry,
    number: usize,
    table: &mut [u8],
    checked: Refusal,
) -> Rows
    requires { checked ≡ check g image.now }
    ensures { (result, table.new) ≡ list_from g image.now number table.old }
{
    if checked.number != 0 {
        return Rows {
            refusal: checked,
            told: 0,
        };
    }
    if table.len() < ROW_BYTES {
        return Rows {
            refusal: Why::OutOfRange.refusal(),
            told: 0,
        };
    }
    Rows {
        refusal: checked,
        told: put_rows(&Disk { image, g }, number, table),
    }
}
