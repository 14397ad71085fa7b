// The calls that change a disk, with every refusal number that each can give. A line tells the call and its number; a number that is not
// the one that 01's table gives is marked. (The calls that look: look_at_disks.)
#![tactic(auto)]

use meaning::{Geometry, Handle, Mode, NewFile};

// A disk of so many blocks and units, its directory at a sector; code 0 stands for "no password".
fn disk(blocks: usize, units: usize, start: usize) -> Geometry {
    Geometry {
        blocks,
        units,
        start,
        noPassword: 0,
        system: true,
        granule: 5,
    }
}

// 12 blocks of 2 units, directory of 10 sectors at sector 0.
fn small() -> Geometry {
    disk(12, 2, 0)
}

// Not the geometry of a disk of 30,720 bytes.
fn other() -> Geometry {
    disk(13, 2, 0)
}

// Granules 0 and 1 hold the directory, every other odd one is reserved, so that each granule taken starts a run; 11 are free.
fn reserve(image: &mut [u8; 30720]) {
    image[..12].copy_from_slice(b"\x03\x02\x02\x02\x02\x02\x02\x02\x02\x02\x02\x02");
}

// A HIT byte without an entry, at slot 5 (22), and without it again.
fn damage(image: &mut [u8; 30720]) {
    image[261] = 7;
}

fn repair(image: &mut [u8; 30720]) {
    image[261] = 0;
}

fn told(words: &[u8], number: u8, should: u8) {
    io::write_all(1, words);
    io::write_all(1, b": ");
    io::print_decimal(1, u64::from(number));
    if number != should {
        io::write_all(1, b" WRONG");
    }
    io::write_all(1, b"\n");
}

// Records of 16 bytes, a main and a worker code.
fn new_file(len: usize, main: u16) -> NewFile {
    NewFile {
        day: 9,
        month: 10,
        year: 3,
        len,
        main,
        worker: 0x2222,
    }
}

// A handle changed in one of its numbers.
fn placed(h: Handle, at: usize) -> Handle {
    Handle { at, ..h }
}

fn levelled(h: Handle, level: usize) -> Handle {
    Handle { level, ..h }
}

fn elsewhere(h: Handle) -> Handle {
    Handle { slot: 0x81, ..h }
}

// Create -----------------------------------------------------------------------------------------------------------------

fn created(
    image: &mut [u8; 30720],
    g: Geometry,
    name: &[u8],
    f: NewFile,
    words: &[u8],
    should: u8,
) {
    let c = calls::create(image, g, name, f, true);
    told(words, c.refusal.number, should);
}

fn creates(image: &mut [u8; 30720]) {
    let f = new_file(16, 0x1111);
    created(
        image,
        other(),
        b"PULS01  DAT",
        f,
        b"create, image length not as stated",
        1,
    );
    damage(image);
    created(
        image,
        small(),
        b"PULS01  DAT",
        f,
        b"create, disk not consistent",
        22,
    );
    repair(image);
    created(
        image,
        small(),
        b"PULS01  DAT",
        new_file(257, 0),
        b"create, length 257",
        12,
    );
    created(
        image,
        small(),
        b"PULS 01 DAT",
        f,
        b"create, a blank inside the name",
        3,
    );
}

fn creates_old(image: &mut [u8; 30720]) {
    created(
        image,
        small(),
        b"PULS01  DAT",
        new_file(16, 0x1112),
        b"create, old file, wrong code",
        5,
    );
    created(
        image,
        small(),
        b"PULS01  DAT",
        new_file(16, 0x1111),
        b"create, old file",
        0,
    );
}

fn first_file(image: &mut [u8; 30720]) -> Handle {
    let c = calls::create(image, small(), b"PULS01  DAT", new_file(16, 0x1111), true);
    told(b"create", c.refusal.number, 0);
    c.handle
}

// Write and allot --------------------------------------------------------------------------------------------------------

fn written(image: &mut [u8; 30720], g: Geometry, h: Handle, words: &[u8], should: u8) {
    let record = [0x55u8; 16];
    let a = calls::write_record(image, g, Mode::Random, h, &record);
    told(words, a.refusal.number, should);
}

fn writes(image: &mut [u8; 30720], h: Handle) {
    written(image, other(), h, b"write, image length not as stated", 1);
    damage(image);
    written(image, small(), h, b"write, disk not consistent", 22);
    repair(image);
    written(
        image,
        small(),
        placed(h, 1966065),
        b"write, past the highest position",
        12,
    );
    written(image, small(), elsewhere(h), b"write, handle stale", 7);
}

// No growth (E) set in the entry, and clear again.
fn no_growth(image: &mut [u8; 30720]) {
    image[641] = 0x49;
}

fn growth(image: &mut [u8; 30720]) {
    image[641] = 0x09;
}

fn writes_more(image: &mut [u8; 30720], h: Handle) {
    written(image, small(), levelled(h, 5), b"write, level 5", 6);
    no_growth(image);
    written(image, small(), h, b"write, E set", 11);
    growth(image);
    written(
        image,
        small(),
        placed(h, 14080),
        b"write, a twelfth granule of 11",
        9,
    );
    written(image, small(), h, b"write", 0);
}

fn allotted(image: &mut [u8; 30720], g: Geometry, h: Handle, k: usize, words: &[u8], should: u8) {
    let a = calls::allot(image, g, h, k);
    told(words, a.refusal.number, should);
}

fn allots(image: &mut [u8; 30720], h: Handle) {
    allotted(
        image,
        other(),
        h,
        0,
        b"allot, image length not as stated",
        1,
    );
    damage(image);
    allotted(image, small(), h, 0, b"allot, disk not consistent", 22);
    repair(image);
    allotted(image, small(), h, 7680, b"allot, sector 7,680", 12);
    allotted(image, small(), elsewhere(h), 0, b"allot, handle stale", 7);
}

fn allots_more(image: &mut [u8; 30720], h: Handle) {
    allotted(image, small(), levelled(h, 5), 0, b"allot, level 5", 6);
    no_growth(image);
    allotted(image, small(), h, 5, b"allot, E set", 11);
    growth(image);
    allotted(image, small(), h, 7679, b"allot, sector 7,679", 9);
    allotted(image, small(), h, 19, b"allot, four granules", 0);
}

// No slot left -----------------------------------------------------------------------------------------------------------

// A file whose name is one letter or digit.
fn one_letter(image: &mut [u8; 30720], letter: u8) -> u8 {
    let mut name = [0x20u8; 11];
    name[0] = letter;
    let c = calls::create(image, small(), &name, new_file(16, 0), true);
    c.refusal.number
}

// A file for each letter that a name may have.
fn letters(image: &mut [u8; 30720]) {
    for letter in 0x41..0x5e {
        one_letter(image, letter);
    }
}

// With PULS01/DAT there are 32 files then: as many as the permitted slots.
fn fill_slots(image: &mut [u8; 30720]) {
    letters(image);
    one_letter(image, 0x30);
    let last = one_letter(image, 0x31);
    told(b"create, the last permitted slot", last, 0);
}

fn without_slots(image: &mut [u8; 30720], h: Handle) {
    let more = one_letter(image, 0x32);
    told(b"create, no slot left", more, 8);
    allotted(image, small(), h, 20, b"allot, a fifth run and no slot", 8);
    written(
        image,
        small(),
        placed(h, 5120),
        b"write, a fifth run and no slot",
        8,
    );
}

// Trim and kill ----------------------------------------------------------------------------------------------------------

fn trimmed(image: &mut [u8; 30720], g: Geometry, h: Handle, words: &[u8], should: u8) {
    let a = calls::trim(image, g, h);
    told(words, a.refusal.number, should);
}

fn trims(image: &mut [u8; 30720], h: Handle) {
    trimmed(image, other(), h, b"trim, image length not as stated", 1);
    damage(image);
    trimmed(image, small(), h, b"trim, disk not consistent", 22);
    repair(image);
    trimmed(
        image,
        small(),
        placed(h, 1966081),
        b"trim, position out of range",
        12,
    );
    trimmed(image, small(), elsewhere(h), b"trim, handle stale", 7);
}

// The system flag set in the entry, and clear again.
fn system(image: &mut [u8; 30720]) {
    image[640] = 0x50;
}

fn plain(image: &mut [u8; 30720]) {
    image[640] = 0x10;
}

fn trims_more(image: &mut [u8; 30720], h: Handle) {
    system(image);
    trimmed(image, small(), h, b"trim, system file", 6);
    plain(image);
    trimmed(image, small(), h, b"trim", 0);
}

fn killed(image: &mut [u8; 30720], g: Geometry, h: Handle, words: &[u8], should: u8) {
    let a = calls::kill(image, g, h);
    told(words, a.refusal.number, should);
}

fn kills(image: &mut [u8; 30720], h: Handle) {
    killed(image, other(), h, b"kill, image length not as stated", 1);
    damage(image);
    killed(image, small(), h, b"kill, disk not consistent", 22);
    repair(image);
    killed(image, small(), levelled(h, 8), b"kill, level 8", 12);
    killed(image, small(), elsewhere(h), b"kill, handle stale", 7);
}

fn kills_more(image: &mut [u8; 30720], h: Handle) {
    killed(image, small(), levelled(h, 2), b"kill, level 2", 6);
    killed(image, small(), levelled(h, 1), b"kill, level 1", 0);
    killed(image, small(), h, b"kill, handle stale since", 7);
}

// Bring back -------------------------------------------------------------------------------------------------------------

fn brought(image: &mut [u8; 30720], g: Geometry, s: usize, words: &[u8], should: u8) {
    let b = calls::bring_back(image, g, s);
    told(words, b.refusal.number, should);
}

// PULS01/DAT was killed in slot 80H, whose entry is at byte 640; the files of one letter are there.
fn brings(image: &mut [u8; 30720]) {
    brought(
        image,
        other(),
        0x80,
        b"bring back, image length not as stated",
        1,
    );
    damage(image);
    brought(image, small(), 0x80, b"bring back, disk not consistent", 22);
    repair(image);
    brought(image, small(), 0x1f, b"bring back, no slot", 12);
    brought(image, small(), 0x81, b"bring back, slot in use", 17);
    image[640] = 0x40;
    brought(image, small(), 0x80, b"bring back, system file", 6);
    image[640] = 0x20;
    brought(image, small(), 0x80, b"bring back, bit 5", 18);
    image[640] = 0;
    brought(image, small(), 0, b"bring back, nothing there", 18);
}

// Its name in use, then all granules taken, then neither.
fn brings_more(image: &mut [u8; 30720]) {
    image[645..656].copy_from_slice(b"A          ");
    brought(image, small(), 0x80, b"bring back, name in use", 19);
    image[645..656].copy_from_slice(b"PULS01  DAT");
    image[..12].copy_from_slice(b"\x03\x03\x03\x03\x03\x03\x03\x03\x03\x03\x03\x03");
    brought(image, small(), 0x80, b"bring back, granules taken", 20);
    reserve(image);
    brought(image, small(), 0x80, b"bring back", 0);
    brought(image, small(), 0x80, b"bring back, slot in use again", 17);
}

// Larger granules --------------------------------------------------------------------------------------------------------

// The same image as 6 blocks of 2 units with so many sectors to a granule (02 §10): 10 is its length.
fn larger(start: usize, granule: usize) -> Geometry {
    Geometry {
        blocks: 6,
        units: 2,
        start,
        noPassword: 0,
        system: true,
        granule,
    }
}

// PULS01/DAT owns granule 2, which is so under both geometries; granules 4, 6, 8 and 10 are free.
fn larger_granules(image: &mut [u8; 30720], h: Handle) {
    allotted(image, larger(0, 15), h, 0, b"15 sectors to a granule", 1);
    allotted(image, larger(0, 0), h, 0, b"no sector to a granule", 1);
    allotted(
        image,
        larger(5, 10),
        h,
        0,
        b"10 sectors to a granule, directory at sector 5",
        1,
    );
    allotted(
        image,
        larger(0, 10),
        h,
        15360,
        b"allot, sector 15,360 of granules of 10",
        12,
    );
    allotted(
        image,
        larger(0, 10),
        h,
        15359,
        b"allot, sector 15,359 of granules of 10",
        9,
    );
}

fn larger_sizes(image: &mut [u8; 30720], h: Handle) {
    allotted(
        image,
        larger(0, 10),
        h,
        39,
        b"allot, the fourth granule of 10",
        0,
    );
    allotted(
        image,
        larger(0, 10),
        h,
        40,
        b"allot, a fifth granule of 10 and no slot",
        8,
    );
    trimmed(
        image,
        larger(0, 10),
        placed(h, 3932161),
        b"trim, position over 3,932,160",
        12,
    );
    trimmed(
        image,
        larger(0, 10),
        placed(h, 3932160),
        b"trim, granules of 10 sectors",
        0,
    );
}

fn bytes(image: &mut [u8; 30720], h: Handle) {
    writes(image, h);
    writes_more(image, h);
}

fn granules(image: &mut [u8; 30720], h: Handle) {
    allots(image, h);
    allots_more(image, h);
    fill_slots(image);
    without_slots(image, h);
    trims(image, h);
    trims_more(image, h);
}

fn main() {
    let mut image = [0u8; 30720];
    reserve(&mut image);
    creates(&mut image);
    let h = first_file(&mut image);
    creates_old(&mut image);
    bytes(&mut image, h);
    granules(&mut image, h);
    kills(&mut image, h);
    kills_more(&mut image, h);
    brings(&mut image);
    brings_more(&mut image);
    larger_granules(&mut image, h);
    larger_sizes(&mut image, h);
}
