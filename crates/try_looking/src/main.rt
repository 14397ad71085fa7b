// The calls that look, on a small disk. Each line tells what was asked, the number and what came back; every refusal number that a call can
// give occurs.
#![tactic(auto)]

use meaning::{Geometry, Handle};

// Where the entry of slot 3 stands: in directory sector 2 + 3, and the directory starts at sector 0.
const SLOT_3: usize = 256 * (2 + 3);

// A disk of so many blocks and units, its directory at a sector; code 0 stands for "no password".
fn disk(blocks: usize, units: usize, start: usize) -> Geometry {
    Geometry {
        blocks,
        units,
        start,
        noPassword: 0,
        system: true,
        granule: 5,
    }
}

// 8 blocks of 2 units, directory of 10 sectors at sector 0.
fn small() -> Geometry {
    disk(8, 2, 0)
}

// 9 units a block: no geometry.
fn nine_units() -> Geometry {
    disk(8, 9, 0)
}

// 9 blocks: not the geometry of a disk of 20,480 bytes.
fn nine_blocks() -> Geometry {
    disk(9, 2, 0)
}

// GAT: granules 0 to 6, 8 and 15 are taken, the last one reserved; bits past the last unit are set in block 5. HIT: four slots.
fn put_maps(image: &mut [u8; 20480]) {
    image[0] = 0x03;
    image[1] = 0x03;
    image[2] = 0x03;
    image[3] = 0x01;
    image[4] = 0x01;
    image[5] = 0xfc;
    image[7] = 0x02;
    image[256] = 0xc1;
    image[257] = 0xc1;
    image[258] = 0xc4;
    image[259] = 0x70;
}

// Slot 1: PULS01/DAT, level 5, main code 1234H, worker code 5678H, granules 2, 8, 3, 4, 6, and 5 by the extension at slot 0; n = 26, e = 3, so
// 6,403 bytes. Slot 2: DIR/SYS, a system file, granules 0 and 1. Slot 3: LEER, invisible, level 6, the same codes, empty.
fn put_entries(image: &mut [u8; 20480]) {
    image[512..544].copy_from_slice(
        b"\x90\x01\x00\x00\x00\x00\x00\x00\x00\x00\x00\x00\x00\x00\x00\x00\x00\x00\x00\x00\x00\x00\x02\x20\xff\xff\xff\xff\xff\xff\xff\xff",
    );
    image[768..800].copy_from_slice(
        b"\x15\x00\x00\x03\x05PULS01  DAT\x34\x12\x78\x56\x1a\x00\x01\x00\x04\x00\x01\x21\x03\x00\xfe\x00",
    );
    image[1024..1056].copy_from_slice(
        b"\x50\x00\x00\x00\x00DIR     SYS\x00\x00\x00\x00\x0a\x00\x00\x01\xff\xff\xff\xff\xff\xff\xff\xff",
    );
    image[SLOT_3..SLOT_3 + 32].copy_from_slice(
        b"\x1e\x00\x00\x00\x00LEER       \x34\x12\x78\x56\x00\x00\xff\xff\xff\xff\xff\xff\xff\xff\xff\xff",
    );
}

// Some bytes of PULS01/DAT: at the start of its sectors 0, 9, 14, 15 and 25, and at the end of its sector 24.
fn put_bytes(image: &mut [u8; 20480]) {
    image[2560..2568].copy_from_slice(b"SECTOR00");
    image[11264..11272].copy_from_slice(b"SECTOR09");
    image[4864..4872].copy_from_slice(b"SECTOR14");
    image[5120..5128].copy_from_slice(b"SECTOR15");
    image[8958..8960].copy_from_slice(b"PU");
    image[6400..6403].copy_from_slice(b"LS!");
}

// What was asked, and the number.
fn said(words: &[u8], number: u8) {
    io::write_all(1, words);
    io::write_all(1, b": ");
    io::print_decimal(1, u64::from(number));
}

// A word and a number.
fn told(word: &[u8], n: usize) {
    io::write_all(1, b" ");
    io::write_all(1, word);
    io::write_all(1, b" ");
    io::print_decimal(1, n as u64);
}

fn ended() {
    io::write_all(1, b"\n");
}

// Bytes as they are, a zero as a hyphen.
fn shown(bytes: &[u8]) {
    io::write_all(1, b" ");
    for &byte in bytes {
        let shown = if byte == 0 { b'-' } else { byte };
        io::write_all(1, &[shown]);
    }
}

// At most the first eight bytes.
fn first_shown(bytes: &[u8]) {
    if !bytes.is_empty() {
        shown(&bytes[..bytes.len().min(8)]);
    }
}

fn handle_told(h: Handle) {
    let name = h.name;
    shown(&name);
    told(b"slot", h.slot);
    told(b"position", h.at);
    told(b"length", h.len);
    told(b"level", h.level);
}

fn look_up(image: &[u8], g: Geometry, words: &[u8], name: &[u8]) {
    let r = calls::look_up(image, g, name);
    said(words, r.refusal.number);
    told(b"slot", r.slot);
    told(b"compared", r.compared);
    ended();
}

fn open_file(
    image: &[u8],
    g: Geometry,
    words: &[u8],
    name: &[u8],
    len: usize,
    checking: bool,
    code: u16,
) -> Handle {
    let r = calls::open_file(image, g, name, len, checking, code);
    said(words, r.refusal.number);
    handle_told(r.handle);
    ended();
    r.handle
}

fn read_into(image: &[u8], g: Geometry, words: &[u8], h: Handle, buffer: &mut [u8]) {
    let r = calls::read_record(image, g, h, buffer);
    said(words, r.refusal.number);
    handle_told(r.handle);
    io::write_all(1, b" buffer");
    shown(buffer);
    ended();
}

// Into a buffer of eight dots.
fn read_record(image: &[u8], g: Geometry, words: &[u8], h: Handle) {
    let mut buffer = [0x2eu8; 8];
    read_into(image, g, words, h, &mut buffer);
}

// Into a buffer of four dots.
fn read_short(image: &[u8], g: Geometry, words: &[u8], h: Handle) {
    let mut buffer = [0x2eu8; 4];
    read_into(image, g, words, h, &mut buffer);
}

fn read_sector(image: &[u8], g: Geometry, words: &[u8], h: Handle, k: usize) {
    let mut number = 0u8;
    let mut at = 0;
    let part = calls::read_sector(image, g, h, k, &mut number, &mut at);
    said(words, number);
    let place = calls::sector_part(image, g, h, k);
    told(b"from", place.from);
    told(b"to", place.to);
    told(b"bytes", part.len());
    first_shown(part);
    ended();
}

fn list(image: &[u8], g: Geometry, words: &[u8], number: usize) {
    let r = calls::list(image, g, number);
    said(words, r.refusal.number);
    if r.more {
        io::write_all(1, b" a file");
    } else {
        io::write_all(1, b" no more");
    }
    let name = r.name;
    shown(&name);
    told(b"size", r.size);
    told(b"granules", r.granules);
    ended();
}

fn counts(image: &[u8], g: Geometry, words: &[u8]) {
    let r = calls::counts(image, g);
    said(words, r.refusal.number);
    told(b"FILES", r.files);
    told(b"FREE", r.free);
    ended();
}

fn free_space(image: &[u8], g: Geometry, words: &[u8]) {
    let r = calls::free_space(image, g);
    said(words, r.refusal.number);
    told(b"free", r.free);
    told(b"longest", r.longest);
    ended();
}

// The handle at another position.
fn placed(h: Handle, at: usize) -> Handle {
    Handle { at, ..h }
}

// The handle with another slot.
fn slotted(h: Handle, slot: usize) -> Handle {
    Handle { slot, ..h }
}

// The handle with another level.
fn levelled(h: Handle, level: usize) -> Handle {
    Handle { level, ..h }
}

// The handle with record length 0.
fn without_length(h: Handle) -> Handle {
    Handle { len: 0, ..h }
}

// Every call, asked alike: on the good disk each is accepted, else each is refused; but free space looks at the GAT alone.
fn every_call(image: &[u8], g: Geometry, words: &[u8], h: Handle) {
    io::write_all(1, words);
    ended();
    look_up(image, g, b"look up", b"PULS01  DAT");
    open_file(image, g, b"open", b"PULS01  DAT", 5, true, 0x5678);
    read_record(image, g, b"read record", h);
    read_sector(image, g, b"read sector", h, 25);
    list(image, g, b"list", 0);
    counts(image, g, b"counts");
    free_space(image, g, b"free space");
}

fn look_ups(image: &[u8]) {
    look_up(image, small(), b"look up LEER", b"LEER       ");
    look_up(image, small(), b"look up DIR/SYS", b"DIR     SYS");
    look_up(
        image,
        small(),
        b"look up PULS13/DAT, of the same hash",
        b"PULS13  DAT",
    );
    look_up(image, small(), b"look up FEHLT/DAT", b"FEHLT   DAT");
    look_up(image, small(), b"look up puls01/dat", b"puls01  dat");
    look_up(image, small(), b"look up ten bytes", b"PULS01  DA");
}

// By several codes.
fn codes(image: &[u8]) {
    let puls = b"PULS01  DAT";
    open_file(
        image,
        small(),
        b"open by the main code",
        puls,
        5,
        true,
        0x1234,
    );
    open_file(
        image,
        small(),
        b"open by another code",
        puls,
        5,
        true,
        0x1235,
    );
    open_file(
        image,
        small(),
        b"open by another code, checking off",
        puls,
        256,
        false,
        0x1235,
    );
    open_file(
        image,
        small(),
        b"open DIR/SYS, no password",
        b"DIR     SYS",
        256,
        true,
        0x1235,
    );
}

// Lengths out of range, and names.
fn opens(image: &[u8]) {
    let puls = b"PULS01  DAT";
    open_file(image, small(), b"open for length 0", puls, 0, true, 0x1234);
    open_file(
        image,
        small(),
        b"open for length 257",
        puls,
        257,
        true,
        0x1234,
    );
    open_file(
        image,
        small(),
        b"open PULS.01/DAT",
        b"PULS.01 DAT",
        5,
        true,
        0x1234,
    );
    open_file(
        image,
        small(),
        b"open FEHLT/DAT",
        b"FEHLT   DAT",
        5,
        true,
        0x1234,
    );
}

fn records(image: &[u8], h: Handle) {
    read_record(image, small(), b"record at 0", placed(h, 0));
    read_record(image, small(), b"record past the size", placed(h, 6399));
    read_record(
        image,
        small(),
        b"record at the last position",
        placed(h, 1966080),
    );
    read_record(image, small(), b"record out of range", placed(h, 1966081));
    read_record(image, small(), b"record at level 8", levelled(h, 8));
    read_record(image, small(), b"record of length 0", without_length(h));
    read_short(image, small(), b"record, buffer too short", h);
    read_record(image, small(), b"record, slot of LEER", slotted(h, 3));
    read_record(
        image,
        small(),
        b"record, slot of the extension",
        slotted(h, 0),
    );
}

fn sectors(image: &[u8], h: Handle) {
    read_sector(image, small(), b"sector 0", h, 0);
    read_sector(image, small(), b"sector 9", h, 9);
    read_sector(image, small(), b"sector 14", h, 14);
    read_sector(image, small(), b"sector 15", h, 15);
    read_sector(image, small(), b"sector 26", h, 26);
    read_sector(image, small(), b"sector 7679", h, 7679);
    read_sector(image, small(), b"sector 7680", h, 7680);
    read_sector(image, small(), b"sector 0, slot of LEER", slotted(h, 3), 0);
}

// LEER by its worker code, so at level 6, and by its main code.
fn levels(image: &[u8]) {
    let six = open_file(
        image,
        small(),
        b"open LEER by the worker code",
        b"LEER       ",
        1,
        true,
        0x5678,
    );
    read_record(image, small(), b"record of LEER", six);
    read_sector(image, small(), b"sector 0 of LEER", six, 0);
    let full = open_file(
        image,
        small(),
        b"open LEER by the main code",
        b"LEER       ",
        1,
        true,
        0x1234,
    );
    read_record(image, small(), b"record of LEER", full);
    read_sector(image, small(), b"sector 0 of LEER", full, 0);
}

fn lists(image: &[u8]) {
    list(image, small(), b"list 1", 1);
    list(image, small(), b"list 2", 2);
    list(
        image,
        small(),
        b"list the largest number",
        18446744073709551615,
    );
}

fn good(image: &[u8], h: Handle) {
    every_call(image, small(), b"the good disk", h);
    look_ups(image);
    codes(image);
    opens(image);
    records(image, h);
    sectors(image, h);
    levels(image);
    lists(image);
}

// The good disk, two wrong geometries, and a HIT byte that is not the hash: 22.
fn looks(image: &mut [u8; 20480]) {
    let opened = open_file(
        image,
        small(),
        b"open by the worker code",
        b"PULS01  DAT",
        5,
        true,
        0x5678,
    );
    let h = placed(opened, 6398);
    good(image, h);
    every_call(image, nine_units(), b"9 units", h);
    every_call(image, nine_blocks(), b"image length not as stated", h);
    image[259] = 0x71;
    every_call(image, small(), b"a HIT byte that is not the hash", h);
}

fn main() {
    let mut image = [0u8; 20480];
    put_maps(&mut image);
    put_entries(&mut image);
    put_bytes(&mut image);
    looks(&mut image);
}
