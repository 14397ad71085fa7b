// The fault of a disk (02): what is inconsistent, and where. It is looked for only where the fast check says no.
#![tactic(auto)]

ghost use Rattle.std.specs.Prelude.{◌≡◌, length};
ghost use Rattle.meaning.specs.Lists.{count, some};
ghost use Rattle.meaning.specs.Layout.{slots};
ghost use Rattle.meaning.specs.Entries.{name_of};
ghost use Rattle.meaning.specs.Consistent.{hit_holds};
ghost use Rattle.meaning.specs.Fault.{hit_fault, name_fault, duplicate_fault, run_fault, gat_fault, shared_fault, fault_at, lowest, fault};
ghost use Rattle.meaning.specs.Refusals.{check};
ghost use Rattle.layout.specs.Room.{Slot};
ghost use Rattle.check_whole.specs.Slots.{FitsImage};
ghost use Rattle.fault_clear.specs.Clear.{NamesClear, RunsClear};
ghost use Rattle.fault_kinds.specs.Noted.{FileNoted, Told};
ghost use Rattle.fault_diagnosis.specs.Told.{hash_differs, same_file, fault_in, after_slots, number_of, number_told};

use layout::Disk;
use meaning::{Geometry, Refusal};
use refusal::Why;

// A slot's HIT byte is nonzero exactly if its entry is in use.
fn hit_holds(disk: &Disk, s: usize) -> bool
    requires { Slot disk.now.g disk.now.image.now s }
    ensures { result ≡ hit_holds disk.now.g disk.now.image.now s }
{
    (disk.hit(s) != 0) == disk.flag(s, layout::IN_USE)
}

// Whether the HIT byte is not the hash of the name of the entry's file.
fn hash_differs(disk: &Disk, files: &[u8], s: usize) -> bool
    requires { Slot disk.now.g disk.now.image.now s × FileNoted disk.now.g disk.now.image.now files.now }
    ensures { result ≡ hash_differs disk.now.g disk.now.image.now s }
{
    let p = fault_kinds::file_of(disk.image, disk.g, files, s);
    let name = entry::name_of(disk, p);
    disk.hit(s) != name_hash::hash(&name)
}

fn hit_fault(disk: &Disk, files: &[u8], goods: &[u8], s: usize) -> bool
    requires { Slot disk.now.g disk.now.image.now s × FileNoted disk.now.g disk.now.image.now files.now × Told disk.now.g disk.now.image.now goods.now }
    ensures { result ≡ hit_fault disk.now.g disk.now.image.now s }
{
    !hit_holds(disk, s)
        || disk.flag(s, layout::IN_USE)
            && fault_kinds::linked(disk, goods, s)
            && hash_differs(disk, files, s)
}

fn name_fault(disk: &Disk, p: usize) -> bool
    requires { Slot disk.now.g disk.now.image.now p }
    ensures { result ≡ name_fault disk.now.g disk.now.image.now p }
{
    disk.primary(p) && !entry::name_holds(disk, p)
}

// Whether a file of that name starts at slot q.
fn same_file(disk: &Disk, name: &[u8], q: usize) -> bool
    requires { length name.now ≡ 11 }
    ensures { result ≡ same_file disk.now.g disk.now.image.now name.now q }
{
    disk.is_slot(q)
        && disk.primary(q)
        && layout::same_name(disk.image, layout::name_at(disk.image, disk.g, q), name)
}

// Whether a file in a lower slot has the name of that at p.
fn name_below(disk: &Disk, p: usize) -> bool
    requires { Slot disk.now.g disk.now.image.now p }
    ensures { result ≡ some (same_file disk.now.g disk.now.image.now (name_of disk.now.g disk.now.image.now p)) (count 0 p) }
{
    let name = entry::name_of(disk, p);
    (0..p).any(|q| same_file(disk, &name, q))
}

// Below slot `clear` there is none.
fn duplicate_fault(disk: &Disk, p: usize, clear: usize) -> bool
    requires { Slot disk.now.g disk.now.image.now p × NamesClear disk.now.g disk.now.image.now clear }
    ensures { result ≡ duplicate_fault disk.now.g disk.now.image.now p }
{
    clear <= p && disk.primary(p) && name_below(disk, p)
}

// The kinds of fault at a slot, in 02's order.
#[derive(Clone, Copy)]
enum Kind {
    Hit,
    Name,
    DuplicateName,
    Chain,
    Run,
    Gat,
    SharedGranule,
    Size,
    Directory,
}

impl Kind {
    // The number that a refusal tells.
    fn number(self) -> u8
        ensures { result ≡ number_of self }
    {
        match self {
            Kind::Hit => 22,
            Kind::Name => 23,
            Kind::DuplicateName => 24,
            Kind::Chain => 25,
            Kind::Run => 26,
            Kind::Gat => 27,
            Kind::SharedGranule => 28,
            Kind::Size => 29,
            Kind::Directory => 30,
        }
    }
}

// The first kind at a slot. Slots below `names` are clear of duplicate names, those below `runs` of the
// kinds of runs.
fn fault_at(
    disk: &Disk,
    files: &[u8],
    goods: &[u8],
    s: usize,
    names: usize,
    runs: usize,
) -> Option<Kind>
    requires { Slot disk.now.g disk.now.image.now s × NamesClear disk.now.g disk.now.image.now names × RunsClear disk.now.g disk.now.image.now runs
        × FileNoted disk.now.g disk.now.image.now files.now × Told disk.now.g disk.now.image.now goods.now }
    ensures { number_told result ≡ fault_at disk.now.g disk.now.image.now s }
{
    if hit_fault(disk, files, goods, s) {
        return Some(Kind::Hit);
    }
    if name_fault(disk, s) {
        return Some(Kind::Name);
    }
    if duplicate_fault(disk, s, names) {
        return Some(Kind::DuplicateName);
    }
    if fault_kinds::chain_fault(disk, goods, s) {
        return Some(Kind::Chain);
    }
    if runs <= s && fault_kinds::run_fault(disk, s) {
        return Some(Kind::Run);
    }
    if runs <= s && fault_kinds::gat_fault(disk, s) {
        return Some(Kind::Gat);
    }
    if runs <= s && fault_kinds::shared_fault(disk, s) {
        return Some(Kind::SharedGranule);
    }
    if fault_kinds::size_fault(disk, goods, s) {
        return Some(Kind::Size);
    }
    if fault_kinds::directory_fault(disk, files, s) {
        return Some(Kind::Directory);
    }
    None
}

// The same, and none where the directory has no slot s.
fn fault_in(
    disk: &Disk,
    files: &[u8],
    goods: &[u8],
    s: usize,
    names: usize,
    runs: usize,
) -> Option<Kind>
    requires { NamesClear disk.now.g disk.now.image.now names × RunsClear disk.now.g disk.now.image.now runs
        × FileNoted disk.now.g disk.now.image.now files.now × Told disk.now.g disk.now.image.now goods.now }
    ensures { number_told result ≡ fault_in disk.now.g disk.now.image.now s }
{
    if !disk.is_slot(s) {
        return None;
    }
    fault_at(disk, files, goods, s, names, runs)
}

// What is told where no slot is at fault.
fn after_slots(disk: &Disk) -> Refusal
    ensures { result ≡ after_slots disk.now.g disk.now.image.now }
{
    let a = disk.g.start / layout::granule_sectors(disk.g);
    let n = disk.directory_granules();
    if fault_kinds::all_taken(disk, a, n) {
        refusal::none()
    } else {
        refusal::unplaced(Kind::Directory.number())
    }
}

// The lowest slot at fault, and what is told after the slots.
fn slots_fault(disk: &Disk) -> Refusal
    ensures { result ≡ lowest disk.now.g disk.now.image.now (after_slots disk.now.g disk.now.image.now) (slots disk.now.g disk.now.image.now) }
{
    let names = fault_clear::names_clear(disk);
    let runs = fault_clear::runs_clear(disk);
    let mut files = [0u8; 256];
    fault_kinds::note_files(disk, &mut files);
    let mut goods = [0u8; 256];
    fault_kinds::note_goods(disk, &files, &mut goods);
    for s in 0..256 {
        if let Some(kind) = fault_in(disk, &files, &goods, s, names, runs) {
            return refusal::placed(kind.number(), s);
        }
    }
    after_slots(disk)
}

// The fault of a disk whose geometry and image length fit.
pub fn fault_of(image: &[u8], g: Geometry) -> Refusal
    requires { FitsImage g image.now }
    ensures { result ≡ fault g image.now }
{
    if !check_whole::length_holds(image, g) {
        return Why::DirectoryLength.refusal();
    }
    slots_fault(&Disk { image, g })
}

// The check of a whole disk: 1 where the geometry or the image's length does not fit, else the fault with its slot.
pub fn check(image: &[u8], g: Geometry) -> Refusal
    ensures { result ≡ check g image.now }
{
    if !layout::fits_geometry(image, g) {
        return Why::WrongGeometry.refusal();
    }
    if check_whole::consistent(image, g) {
        return refusal::none();
    }
    fault_of(image, g)
}
