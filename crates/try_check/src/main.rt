// The check on small disks, good and damaged: one damage for each clause of "A consistent disk". Each line tells what was done, what the
// check answers and, where there is one, the slot of the fault; a wrong answer is marked.
#![tactic(auto)]

ghost use Rattle.std.specs.Prelude.{◌<◌};

use meaning::Geometry;

// Where the entry of slot 3 stands: in directory sector 2 + 3, and the directory starts at sector 0.
const SLOT_3: usize = 256 * (2 + 3);

// A disk of so many blocks and units, its directory at a sector; code 0 stands for "no password".
fn disk(blocks: usize, units: usize, start: usize) -> Geometry {
    Geometry {
        blocks,
        units,
        start,
        noPassword: 0,
        system: true,
        granule: 5,
    }
}

// 8 blocks of 2 units, directory of 10 sectors at sector 0.
fn small() -> Geometry {
    disk(8, 2, 0)
}

// The number and the slot that the check should tell; slot 256 is none.
fn told(image: &[u8], g: Geometry, words: &[u8], number: u8, slot: usize) {
    let f = fault_diagnosis::check(image, g);
    io::write_all(1, words);
    io::write_all(1, b": ");
    io::print_decimal(1, u64::from(f.number));
    if f.at < refusal::NOWHERE {
        io::write_all(1, b" slot ");
        io::print_decimal(1, f.at as u64);
    }
    if f.number != number {
        io::write_all(1, b" WRONG");
    }
    if f.at != slot {
        io::write_all(1, b" WRONG SLOT");
    }
    io::write_all(1, b"\n");
}

// The disk as it is.
fn whole(image: &[u8; 20480], words: &[u8], number: u8, slot: usize) {
    told(image, small(), words, number, slot);
}

// The disk with one byte changed, and back again.
fn with_byte(image: &mut [u8; 20480], at: usize, v: u8, words: &[u8], number: u8, slot: usize)
    requires { at < 20480 }
{
    let was = image[at];
    image[at] = v;
    told(image, small(), words, number, slot);
    image[at] = was;
}

// The disk with two bytes changed, and back again.
fn with_bytes(
    image: &mut [u8; 20480],
    at: usize,
    v: u8,
    also: usize,
    w: u8,
    words: &[u8],
    number: u8,
    slot: usize,
)
    requires { (at < 20480) × (also < 20480) }
{
    let was = image[at];
    image[at] = v;
    with_byte(image, also, w, words, number, slot);
    image[at] = was;
}

// The good disk. Granules 0 and 1 hold the directory and are a system file's. Slot 0: PULS01/DAT, granules 2, 4, 6 and 3, and 5 by the
// extension at slot 1. Slot 2: DIR/SYS. Slot 3: LEER. Granules 7 to 15 are free.
fn fill(image: &mut [u8; 20480]) {
    image[0] = 0x03;
    image[1] = 0x03;
    image[2] = 0x03;
    image[3] = 0x01;
    image[256] = 0xc1;
    image[257] = 0xc1;
    image[258] = 0xc4;
    image[259] = 0x70;
    image[512..544].copy_from_slice(
        b"\x10\x00\x00\x00\x00PULS01  DAT\x00\x00\x00\x00\x05\x00\x01\x00\x02\x00\x03\x00\x01\x20\xfe\x01",
    );
    image[768..800].copy_from_slice(
        b"\x90\x00\x00\x00\x00\x00\x00\x00\x00\x00\x00\x00\x00\x00\x00\x00\x00\x00\x00\x00\x00\x00\x02\x20\xff\xff\xff\xff\xff\xff\xff\xff",
    );
    image[1024..1056].copy_from_slice(
        b"\x50\x00\x00\x00\x00DIR     SYS\x00\x00\x00\x00\x0a\x00\x00\x01\xff\xff\xff\xff\xff\xff\xff\xff",
    );
    image[SLOT_3..SLOT_3 + 32].copy_from_slice(
        b"\x10\x00\x00\x00\x00LEER       \x00\x00\x00\x00\x00\x00\xff\xff\xff\xff\xff\xff\xff\xff\xff\xff",
    );
}

fn geometries(image: &[u8; 20480]) {
    told(
        &image[1..],
        small(),
        b"an image one byte short",
        1,
        refusal::NOWHERE,
    );
    told(image, disk(0, 2, 0), b"no block", 1, refusal::NOWHERE);
    told(image, disk(2, 9, 0), b"9 units", 1, refusal::NOWHERE);
    told(
        image,
        disk(
            18446744073709551615,
            18446744073709551615,
            18446744073709551615,
        ),
        b"the largest numbers",
        1,
        refusal::NOWHERE,
    );
    told(
        image,
        disk(8, 2, 4),
        b"a start that is no multiple of 5",
        1,
        refusal::NOWHERE,
    );
    told(
        image,
        disk(8, 2, 75),
        b"5 sectors behind the start",
        1,
        refusal::NOWHERE,
    );
    told(
        image,
        disk(16, 1, 0),
        b"one unit a block on the same disk",
        26,
        0,
    );
}

// Damages to the HIT and the GAT.
fn maps(image: &mut [u8; 20480]) {
    with_byte(image, 287, 3, b"length byte 3", 21, refusal::NOWHERE);
    with_byte(image, 287, 25, b"length byte 25", 21, refusal::NOWHERE);
    with_byte(image, 260, 7, b"a HIT byte without an entry", 22, 4);
    with_byte(image, 259, 0, b"an entry without a HIT byte", 22, 3);
    with_byte(image, 259, 0x71, b"a HIT byte that is not the hash", 22, 3);
    with_byte(
        image,
        257,
        0xc0,
        b"an extension's HIT byte that is not the hash",
        22,
        1,
    );
    // it is in a run of DIR/SYS, and slots come before the directory
    with_byte(image, 0, 0x01, b"a directory granule that is clear", 27, 2);
    with_byte(image, 2, 0x01, b"a granule of a run that is clear", 27, 1);
}

// Damages to a primary entry.
fn files(image: &mut [u8; 20480]) {
    with_bytes(
        image,
        1289,
        0x2e,
        259,
        0x77,
        b"a name that is not well formed",
        23,
        3,
    );
    with_byte(image, SLOT_3, 0x30, b"bit 5 set", 23, 3);
    with_byte(image, SLOT_3 + 3, 1, b"n = 0 with e = 1", 29, 3);
    with_byte(image, 532, 26, b"a size over the granules owned", 29, 0);
    with_byte(
        image,
        1024,
        0x10,
        b"the directory in a file without the system flag",
        30,
        2,
    );
    with_byte(
        image,
        541,
        0x00,
        b"a granule in two runs of one entry",
        28,
        0,
    );
    with_byte(image, 534, 0x08, b"a run behind the disk", 26, 0);
    with_bytes(
        image,
        534,
        0x07,
        535,
        0x21,
        b"a run over the disk's end",
        26,
        0,
    );
    with_byte(
        image,
        535,
        0x40,
        b"a first unit that the block has not",
        26,
        0,
    );
    with_byte(
        image,
        1304,
        0x06,
        b"a run behind a pair that is none",
        25,
        3,
    );
    with_byte(
        image,
        542,
        0xfd,
        b"a marker that is neither FEH nor FFH",
        25,
        0,
    );
}

// Damages to a chain.
fn chains(image: &mut [u8; 20480]) {
    with_byte(
        image,
        768,
        0x98,
        b"an extension's byte 00 that is not 90H",
        25,
        1,
    );
    with_byte(
        image,
        769,
        2,
        b"an extension that points back elsewhere",
        25,
        1,
    );
    with_byte(image, 790, 0xff, b"an extension without a run", 25, 1);
    with_byte(
        image,
        791,
        0x00,
        b"a granule in two runs of one file",
        28,
        1,
    );
    with_bytes(
        image,
        1302,
        0x01,
        1303,
        0x00,
        b"a granule in runs of two files",
        28,
        3,
    );
    // slot 1 comes before slot 2, which has the granule too
    with_bytes(
        image,
        790,
        0x00,
        791,
        0x00,
        b"a granule of the directory in runs of two files",
        30,
        1,
    );
    with_byte(image, 540, 0xff, b"three runs before an extension", 25, 0);
    with_byte(image, 542, 0xff, b"an extension in no chain", 25, 1);
    with_byte(
        image,
        543,
        0x08,
        b"a link to a place that is no slot",
        25,
        0,
    );
    with_byte(image, 543, 0x03, b"a link to a primary entry", 25, 0);
    with_byte(image, 543, 0x04, b"a link to an entry not in use", 25, 0);
}

// What is not tested.
fn untested(image: &mut [u8; 20480]) {
    with_byte(image, 3, 0x03, b"a granule reserved", 0, refusal::NOWHERE);
    with_byte(
        image,
        2,
        0xff,
        b"GAT bits past the last unit",
        0,
        refusal::NOWHERE,
    );
    with_byte(
        image,
        8,
        0xff,
        b"a GAT byte past the last block",
        0,
        refusal::NOWHERE,
    );
    with_byte(
        image,
        264,
        9,
        b"a HIT place that is no slot",
        0,
        refusal::NOWHERE,
    );
    with_byte(
        image,
        1536,
        0x8f,
        b"an entry not in use",
        0,
        refusal::NOWHERE,
    );
    with_byte(image, 799, 9, b"a link behind FFH", 0, refusal::NOWHERE);
    with_byte(
        image,
        793,
        9,
        b"the second byte of a pair that is none",
        0,
        refusal::NOWHERE,
    );
    with_byte(
        image,
        770,
        9,
        b"an extension's byte 02",
        0,
        refusal::NOWHERE,
    );
    with_byte(
        image,
        SLOT_3,
        0x1f,
        b"invisible, level 7",
        0,
        refusal::NOWHERE,
    );
    with_byte(
        image,
        1281,
        0xff,
        b"F, E, B and the day",
        0,
        refusal::NOWHERE,
    );
    with_byte(image, 1300, 0, b"n = 0 with e = 0", 0, refusal::NOWHERE);
    with_byte(
        image,
        532,
        25,
        b"a size that fills the granules owned",
        0,
        refusal::NOWHERE,
    );
}

// A second file LEER at slot 4.
fn twice(image: &mut [u8; 20480]) {
    image[1536..1568].copy_from_slice(
        b"\x10\x00\x00\x00\x00LEER       \x00\x00\x00\x00\x00\x00\xff\xff\xff\xff\xff\xff\xff\xff\xff\xff",
    );
    with_byte(image, 260, 0x70, b"two files of one name", 24, 4);
    with_bytes(
        image,
        1545,
        0x41,
        260,
        0xc0,
        b"two files of two names",
        0,
        refusal::NOWHERE,
    );
}

// An extension at slot 4 that is its own next, with granules 8 to 11.
fn ring(image: &mut [u8; 20480]) {
    image[4] = 0x03;
    image[5] = 0x03;
    image[1536..1568].copy_from_slice(
        b"\x90\x04\x00\x00\x00\x00\x00\x00\x00\x00\x00\x00\x00\x00\x00\x00\x00\x00\x00\x00\x00\x00\x04\x00\x04\x20\x05\x00\x05\x20\xfe\x04",
    );
    with_byte(image, 260, 0xc1, b"a ring of extensions", 25, 4);
}

fn main() {
    let mut image = [0u8; 20480];
    whole(&image, b"an empty image", 30, refusal::NOWHERE);
    fill(&mut image);
    whole(&image, b"the good disk", 0, refusal::NOWHERE);
    geometries(&image);
    maps(&mut image);
    files(&mut image);
    chains(&mut image);
    untested(&mut image);
    twice(&mut image);
    ring(&mut image);
}
