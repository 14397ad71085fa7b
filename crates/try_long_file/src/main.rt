// A file driven through four runs, into a first and a second extension, by trim back to none, through the same again by a write, and
// killed. What the directory should hold is written out beside each call, byte for byte; each step compares all ten sectors with it,
// and tells the number of the call and the directory's bytes.
#![tactic(auto)]

ghost use Rattle.std.specs.Prelude.{◌+◌, ◌<◌, ◌≤◌, length};

use meaning::{Geometry, Handle, Mode, NewFile};

// 12 blocks of 2 units, directory of 10 sectors at sector 0. Slots 80H to 83H have their entries at bytes 640, 896, 1152 and 1408.
fn disk() -> Geometry {
    Geometry {
        blocks: 12,
        units: 2,
        start: 0,
        noPassword: 0,
        system: true,
        granule: 5,
    }
}

// The empty disk: granules 0 and 1 hold the directory, and every odd one up to 21 is reserved, so that a run of two can start at 22 only.
fn reserve(part: &mut [u8]) {
    if part.len() < 2560 {
        return;
    }
    // (the search does not find that twelve bytes of a part of any length are twelve)
    copy::put_part(
        part,
        0,
        b"\x03\x02\x02\x02\x02\x02\x02\x02\x02\x02\x02\x00",
        0,
        12,
    );
}

// Bytes that the directory should have from a place on.
fn put(should: &mut [u8; 2560], at: usize, bytes: &[u8])
    requires { at + length bytes.now ≤ 2560 }
{
    should[at..at + bytes.len()].copy_from_slice(bytes);
}

// The bytes of a part, in hexadecimal.
fn show(part: &[u8]) {
    for &byte in part {
        io::print_hex(1, u64::from(byte), 2);
    }
}

// An entry: its 32 bytes on a line.
fn show_entry(image: &[u8; 30720], slot: &[u8], at: usize)
    requires { at < 2000 }
{
    io::write_all(1, slot);
    show(&image[at..at + 32]);
    io::write_all(1, b"\n");
}

// The bytes that the steps change: the GAT, the HIT bytes and the entries of slots 80H to 83H.
fn show_directory(image: &[u8; 30720]) {
    io::write_all(1, b"  GAT ");
    show(&image[..12]);
    io::write_all(1, b"  HIT 80 ");
    show(&image[384..388]);
    io::write_all(1, b"\n");
    show_entry(image, b"  80 ", 640);
    show_entry(image, b"  81 ", 896);
    show_entry(image, b"  82 ", 1152);
    show_entry(image, b"  83 ", 1408);
}

// One step: what was called, the number that it gave, and whether all ten sectors of the directory are as they should be.
fn told(image: &[u8; 30720], should: &[u8; 2560], words: &[u8], number: u8) {
    io::write_all(1, words);
    io::write_all(1, b": ");
    io::print_decimal(1, u64::from(number));
    if image[..2560] == should[..] {
        io::write_all(1, b", as it should be\n");
    } else {
        io::write_all(1, b", NOT AS IT SHOULD BE\n");
    }
    show_directory(image);
}

// PULS01/DAT: 9 October 1983, records of 256 bytes, both codes given.
fn create_pulses(image: &mut [u8; 30720], should: &mut [u8; 2560]) -> Handle {
    let f = NewFile {
        day: 9,
        month: 10,
        year: 3,
        len: 256,
        main: 0x1234,
        worker: 0x5678,
    };
    let c = calls::create(image, disk(), b"PULS01  DAT", f, true);
    should[384] = 0xc1;
    put(
        should,
        640,
        b"\x10\x09\x3a\x00\x00PULS01  DAT\x34\x12\x78\x56\x00\x00\xff\xff\xff\xff\xff\xff\xff\xff\xff\xff",
    );
    told(image, should, b"create PULS01/DAT", c.refusal.number);
    c.handle
}

// LEER: 1 January 1984, records of 16 bytes.
fn create_empty(image: &mut [u8; 30720], should: &mut [u8; 2560]) -> Handle {
    let f = NewFile {
        day: 1,
        month: 1,
        year: 4,
        len: 16,
        main: 0,
        worker: 0,
    };
    let c = calls::create(image, disk(), b"LEER       ", f, true);
    should[385] = 0x70;
    put(
        should,
        896,
        b"\x10\x01\x41\x00\x10LEER       \x00\x00\x00\x00\x00\x00\xff\xff\xff\xff\xff\xff\xff\xff\xff\xff",
    );
    told(image, should, b"create LEER", c.refusal.number);
    c.handle
}

// A granule for each file: 2 for PULS01/DAT, 4 for LEER.
fn first_granules(image: &mut [u8; 30720], should: &mut [u8; 2560], pulses: Handle, empty: Handle) {
    let a = calls::allot(image, disk(), pulses, 0);
    should[1] = 0x03;
    put(should, 640 + 0x16, b"\x01\x00");
    told(
        image,
        should,
        b"allot PULS01/DAT to sector 0",
        a.refusal.number,
    );
    let b = calls::allot(image, disk(), empty, 4);
    should[2] = 0x03;
    put(should, 896 + 0x16, b"\x02\x00");
    told(image, should, b"allot LEER to sector 4", b.refusal.number);
}

// Four runs, then a fifth in an extension at slot 82H.
fn first_extension(image: &mut [u8; 30720], should: &mut [u8; 2560], pulses: Handle) {
    let a = calls::allot(image, disk(), pulses, 19);
    put(should, 3, b"\x03\x03\x03");
    put(should, 640 + 0x18, b"\x03\x00\x04\x00\x05\x00");
    told(
        image,
        should,
        b"allot PULS01/DAT to sector 19",
        a.refusal.number,
    );
    let b = calls::allot(image, disk(), pulses, 20);
    should[6] = 0x03;
    should[386] = 0xc1;
    put(should, 640 + 0x1e, b"\xfe\x82");
    put_extension(should);
    told(
        image,
        should,
        b"allot PULS01/DAT to sector 20",
        b.refusal.number,
    );
}

// The extension at slot 82H as it is made, with granule 12.
fn put_extension(should: &mut [u8; 2560]) {
    put(
        should,
        1152,
        b"\x90\x80\x00\x00\x00\x00\x00\x00\x00\x00\x00\x00\x00\x00\x00\x00\x00\x00\x00\x00\x00\x00\x06\x00\xff\xff\xff\xff\xff\xff\xff\xff",
    );
}

// The extension at slot 82H full, and a second one at slot 83H with granule 20.
fn put_second(should: &mut [u8; 2560]) {
    put(should, 7, b"\x03\x03\x03\x03");
    should[387] = 0xc1;
    put(should, 1152 + 0x18, b"\x07\x00\x08\x00\x09\x00\xfe\x83");
    put(
        should,
        1408,
        b"\x90\x82\x00\x00\x00\x00\x00\x00\x00\x00\x00\x00\x00\x00\x00\x00\x00\x00\x00\x00\x00\x00\x0a\x00\xff\xff\xff\xff\xff\xff\xff\xff",
    );
}

// The second extension; then a run of two granules in it, 22 and 23; then more than there are.
fn second_extension(image: &mut [u8; 30720], should: &mut [u8; 2560], pulses: Handle) {
    let a = calls::allot(image, disk(), pulses, 40);
    put_second(should);
    told(
        image,
        should,
        b"allot PULS01/DAT to sector 40",
        a.refusal.number,
    );
    let b = calls::allot(image, disk(), pulses, 54);
    should[11] = 0x03;
    put(should, 1408 + 0x18, b"\x0b\x01");
    told(
        image,
        should,
        b"allot PULS01/DAT to sector 54",
        b.refusal.number,
    );
    let c = calls::allot(image, disk(), pulses, 55);
    told(
        image,
        should,
        b"allot PULS01/DAT to sector 55",
        c.refusal.number,
    );
}

// Of the size 0 no granule is kept: both extensions go.
fn trim_to_none(image: &mut [u8; 30720], should: &mut [u8; 2560], pulses: Handle) {
    let a = calls::trim(image, disk(), pulses);
    put(
        should,
        0,
        b"\x03\x02\x03\x02\x02\x02\x02\x02\x02\x02\x02\x00",
    );
    put(should, 386, b"\x00\x00");
    put_unused(should, 640 + 0x16);
    should[1152] = 0x80;
    put_unused(should, 1152 + 0x16);
    should[1408] = 0x80;
    put_unused(should, 1408 + 0x16);
    told(image, should, b"trim PULS01/DAT", a.refusal.number);
}

// Pairs, marker and link unused.
fn put_unused(should: &mut [u8; 2560], at: usize)
    requires { at < 2000 }
{
    put(should, at, b"\xff\xff\xff\xff\xff\xff\xff\xff\xff\xff");
}

// A record of 256 bytes at position 5,120: 5 granules, so an extension again; then space for a second one.
fn write_far(image: &mut [u8; 30720], should: &mut [u8; 2560], pulses: Handle) {
    let record = [0x55u8; 256];
    let h = Handle { at: 5120, ..pulses };
    let a = calls::write_record(image, disk(), Mode::Random, h, &record);
    should[1] = 0x03;
    put(should, 3, b"\x03\x03\x03\x03");
    should[386] = 0xc1;
    should[641] = 0x29;
    should[640 + 0x14] = 0x15;
    put(
        should,
        640 + 0x16,
        b"\x01\x00\x03\x00\x04\x00\x05\x00\xfe\x82",
    );
    put_extension(should);
    told(
        image,
        should,
        b"write PULS01/DAT at 5120, random",
        a.refusal.number,
    );
    let b = calls::allot(image, disk(), pulses, 40);
    put_second(should);
    told(
        image,
        should,
        b"allot PULS01/DAT to sector 40",
        b.refusal.number,
    );
}

// Trim keeps 5 granules, and one extension. A write at the start makes the size 256; trim keeps one granule, and no extension.
fn trim_to_one(image: &mut [u8; 30720], should: &mut [u8; 2560], pulses: Handle) {
    let a = calls::trim(image, disk(), pulses);
    put(should, 7, b"\x02\x02\x02\x02");
    should[387] = 0;
    put(should, 1152 + 0x18, b"\xff\xff\xff\xff\xff\xff\xff\xff");
    should[1408] = 0x80;
    put_unused(should, 1408 + 0x16);
    told(image, should, b"trim PULS01/DAT", a.refusal.number);
    let record = [0x66u8; 256];
    let b = calls::write_record(image, disk(), Mode::Sequential, pulses, &record);
    should[640 + 0x14] = 0x01;
    told(
        image,
        should,
        b"write PULS01/DAT at 0, sequential",
        b.refusal.number,
    );
    let c = calls::trim(image, disk(), pulses);
    put(should, 3, b"\x02\x02\x02\x02");
    should[386] = 0;
    put_unused(should, 640 + 0x16);
    put(should, 640 + 0x16, b"\x01\x00");
    should[1152] = 0x80;
    put_unused(should, 1152 + 0x16);
    told(image, should, b"trim PULS01/DAT", c.refusal.number);
}

// Kill; the handle is stale then. LEER has stood untouched all the while, and goes last.
fn kill_both(image: &mut [u8; 30720], should: &mut [u8; 2560], pulses: Handle, empty: Handle) {
    let a = calls::kill(image, disk(), pulses);
    should[1] = 0x02;
    should[384] = 0;
    should[640] = 0;
    told(image, should, b"kill PULS01/DAT", a.refusal.number);
    let b = calls::kill(image, disk(), pulses);
    told(image, should, b"kill PULS01/DAT", b.refusal.number);
    let c = calls::kill(image, disk(), empty);
    should[2] = 0x02;
    should[385] = 0;
    should[896] = 0;
    told(image, should, b"kill LEER", c.refusal.number);
}

fn main() {
    let mut image = [0u8; 30720];
    let mut should = [0u8; 2560];
    reserve(&mut image);
    reserve(&mut should);
    let pulses = create_pulses(&mut image, &mut should);
    let empty = create_empty(&mut image, &mut should);
    first_granules(&mut image, &mut should, pulses, empty);
    first_extension(&mut image, &mut should, pulses);
    second_extension(&mut image, &mut should, pulses);
    trim_to_none(&mut image, &mut should, pulses);
    write_far(&mut image, &mut should, pulses);
    trim_to_one(&mut image, &mut should, pulses);
    kill_both(&mut image, &mut should, pulses, empty);
}
