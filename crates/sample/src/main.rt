// The worked listing: its disk made through the calls, and the listing written. A refusal is told and ends the run.
#![tactic(auto)]

ghost use Rattle.std.specs.Prelude.{◌≤◌, length};

use meaning::{Geometry, Handle, Mode, NewFile};

// 16 blocks of 2 units, directory of 10 sectors at sector 80.
fn disk() -> Geometry {
    Geometry {
        blocks: 16,
        units: 2,
        start: 80,
        noPassword: 0,
        system: true,
        granule: 5,
    }
}

// The empty disk: granules 0, 16 and 17 reserved, no slot in use.
fn reserve(image: &mut [u8; 40960]) {
    image[20480] = 0x01;
    image[20488] = 0x03;
}

// Whether a call was accepted; the number of a refusal is told.
fn accepted(number: u8) -> bool {
    if number == 0 {
        return true;
    }
    io::write_all(1, b"REFUSED ");
    io::print_decimal(1, number as u64);
    io::write_all(1, b"\n");
    false
}

// 9 October 1983, with no password.
fn new_file(len: usize) -> NewFile {
    NewFile {
        day: 9,
        month: 10,
        year: 3,
        len,
        main: 0,
        worker: 0,
    }
}

// A record written at a position, of the handle's length.
fn write_at(image: &mut [u8; 40960], h: Handle, at: usize, record: &[u8; 256]) -> bool {
    let mut there = h;
    there.at = at;
    let a = calls::write_record(image, disk(), Mode::Sequential, there, record);
    accepted(a.refusal.number)
}

// PULS01/DAT: 257 bytes, a record of 256 and, opened anew, one of a byte.
fn make_pulses(image: &mut [u8; 40960]) -> bool {
    let record = [0x55u8; 256];
    let c = calls::create(image, disk(), b"PULS01  DAT", new_file(256), true);
    if !accepted(c.refusal.number) {
        return false;
    }
    if !write_at(image, c.handle, 0, &record) {
        return false;
    }
    let a = calls::open_file(image, disk(), b"PULS01  DAT", 1, true, 0);
    if !accepted(a.refusal.number) {
        return false;
    }
    write_at(image, a.handle, 256, &record)
}

// LEER: no byte.
fn make_empty(image: &mut [u8; 40960]) -> bool {
    let c = calls::create(image, disk(), b"LEER       ", new_file(256), true);
    accepted(c.refusal.number)
}

// The first n bytes of a text.
fn write_text(text: &[u8], n: usize)
    requires { n ≤ length text.now }
{
    io::write_all(1, &text[0..n]);
}

fn show_count(files: usize) {
    let mut text = [0u8; 55];
    let n = listing_text::put_files(&mut text, 0, files);
    write_text(&text, n);
}

// The line of one file.
fn show_file(image: &[u8; 40960], number: usize) -> bool {
    let f = calls::list(image, disk(), number);
    if !accepted(f.refusal.number) {
        return false;
    }
    let mut text = [0u8; 55];
    let name = f.name;
    let n = listing_text::put_line(&mut text, 0, &name, f.size, f.granules);
    write_text(&text, n);
    true
}

fn show_files(image: &[u8; 40960], files: usize) -> bool {
    for i in 0..files {
        if !show_file(image, i) {
            return false;
        }
    }
    true
}

fn show_free(free: usize) {
    let mut text = [0u8; 55];
    let n = listing_text::put_free(&mut text, 0, free);
    write_text(&text, n);
}

// The whole listing.
fn show(image: &[u8; 40960]) {
    let c = calls::counts(image, disk());
    if !accepted(c.refusal.number) {
        return;
    }
    show_count(c.files);
    if !show_files(image, c.files) {
        return;
    }
    show_free(c.free);
}

fn main() {
    let mut image = [0u8; 40960];
    reserve(&mut image);
    if !make_pulses(&mut image) {
        return;
    }
    if !make_empty(&mut image) {
        return;
    }
    show(&image);
}
