// Playing back a recorded session (02 §6). The trace is read through before anything runs; then its calls are made one after the other. The disk is
// checked once, before the first of them: a call leaves a consistent disk consistent (promises: EveryCall), so that what the check answered is what
// it would answer before each call after it.
#![tactic(auto)]

ghost use Rattle.std.specs.Prelude.{◌≡◌, false, ◌≤◌, length, replicate};
ghost use Rattle.meaning.specs.Refusals.{check};
ghost use Rattle.meaning.specs.Handles.{moved_to};
ghost use Rattle.meaning.specs.Amount.{one_record};
ghost use Rattle.meaning.specs.Calls.Call.{creates, reads, writes, allots, trims, kills};
ghost use Rattle.play_trace.specs.Reading.{read_trace, steps_of};
ghost use Rattle.play_session.specs.Playing.{longest, undated, single, after_open, made, play};
ghost use Rattle.play.specs.Told.{told};
ghost use Rattle.play.specs.Opened.{Opened};

use meaning::{Geometry, Handle, Mode, NewFile, Refusal};
use play_session::Played;
use play_trace::{Call, ReadWith, WriteWith};
use refusal::Why;

// the record length of an open before a call that uses none
const LONGEST: usize = 256;

// Create, with date and codes 0, checking off.
fn create_file(image: &mut [u8], g: Geometry, name: &[u8], len: usize, checked: Refusal) -> u8
    requires { checked ≡ check g image.old }
    ensures { (result, image.new) ≡ single g image.old (creates name.now (undated len) false) }
{
    let f = NewFile {
        day: 0,
        month: 0,
        year: 0,
        len,
        main: 0,
        worker: 0,
    };
    create::create_checked(image, g, name, f, false, checked)
        .refusal
        .number
}

// A fresh open, checking off: the handle, or the number of the refusal.
fn opened(
    image: &[u8],
    g: Geometry,
    name: &[u8],
    len: usize,
    checked: Refusal,
) -> Result<Handle, u8>
    requires { checked ≡ check g image.now }
    ensures { Opened g image.now name.now len result }
{
    let o = look_up::open_checked(image, g, name, len, false, 0, checked);
    match o.refusal.number {
        0 => Ok(o.handle),
        number => Err(number),
    }
}

// A write of the fill byte, as many as the record length says.
fn write_fill(
    image: &mut [u8],
    g: Geometry,
    name: &[u8],
    mode: Mode,
    a: WriteWith,
    checked: Refusal,
) -> u8
    requires { checked ≡ check g image.old }
    ensures { (result, image.new) ≡ after_open g image.old name.now a.length
        (λ h. writes one_record mode (moved_to h a.position) (replicate longest a.fill)) }
{
    let mut h = match opened(image, g, name, a.length, checked) {
        Ok(h) => h,
        Err(number) => return number,
    };
    h.at = a.position;
    let fill = a.fill;
    let buffer = [fill; 256];
    write::write_checked(image, g, mode, h, h.len, &buffer, checked)
        .refusal
        .number
}

fn allot_to(image: &mut [u8], g: Geometry, name: &[u8], sector: usize, checked: Refusal) -> u8
    requires { checked ≡ check g image.old }
    ensures { (result, image.new) ≡ after_open g image.old name.now longest (λ h. allots h sector) }
{
    match opened(image, g, name, LONGEST, checked) {
        Ok(h) => allot::allot_checked(image, g, h, sector, checked)
            .refusal
            .number,
        Err(number) => number,
    }
}

fn trim_file(image: &mut [u8], g: Geometry, name: &[u8], checked: Refusal) -> u8
    requires { checked ≡ check g image.old }
    ensures { (result, image.new) ≡ after_open g image.old name.now longest trims }
{
    match opened(image, g, name, LONGEST, checked) {
        Ok(h) => trim::trim_checked(image, g, h, checked).refusal.number,
        Err(number) => number,
    }
}

fn kill_file(image: &mut [u8], g: Geometry, name: &[u8], checked: Refusal) -> u8
    requires { checked ≡ check g image.old }
    ensures { (result, image.new) ≡ after_open g image.old name.now longest kills }
{
    match opened(image, g, name, LONGEST, checked) {
        Ok(h) => kill::kill_checked(image, g, h, checked).refusal.number,
        Err(number) => number,
    }
}

// A read: its bytes are told nowhere.
fn read_through(image: &[u8], g: Geometry, name: &[u8], a: ReadWith, checked: Refusal) -> u8
    requires { checked ≡ check g image.now }
    ensures { (result, image.now) ≡ after_open g image.now name.now a.length
        (λ h. reads one_record (moved_to h a.position) (replicate longest 0)) }
{
    let mut h = match opened(image, g, name, a.length, checked) {
        Ok(h) => h,
        Err(number) => return number,
    };
    h.at = a.position;
    let mut buffer = [0u8; 256];
    read::read_checked(image, g, h, h.len, &mut buffer, checked)
        .refusal
        .number
}

// One call of the trace on the file of that name.
fn make(image: &mut [u8], g: Geometry, name: [u8; 11], call: Call, checked: Refusal) -> u8
    requires { checked ≡ check g image.old }
    ensures { (result, image.new) ≡ made g image.old name call }
{
    match call {
        Call::Create(a) => create_file(image, g, &name, a.length, checked),
        Call::SequentialWrite(a) => write_fill(image, g, &name, Mode::Sequential, a, checked),
        Call::RandomWrite(a) => write_fill(image, g, &name, Mode::Random, a, checked),
        Call::Allot(a) => allot_to(image, g, &name, a.sector, checked),
        Call::Trim => trim_file(image, g, &name, checked),
        Call::Kill => kill_file(image, g, &name, checked),
        Call::Read(a) => read_through(image, g, &name, a, checked),
    }
}

// The calls of a well-formed trace, each with its result.
fn run(
    image: &mut [u8],
    g: Geometry,
    bytes: &[u8],
    results: &mut [u8],
    calls: usize,
    checked: Refusal,
)
    requires { (checked ≡ check g image.old) × (checked.number ≡ 0) × (calls ≡ length (steps_of (read_trace bytes.now)))
        × (calls ≤ length results.old) }
    ensures { (results.new, image.new) ≡ told g (read_trace bytes.now) image.old results.old }
{
    for i in 0..calls {
        let s = play_trace::step_at(bytes, i);
        let name = play_trace::name_at(bytes, s.file);
        results[i] = make(image, g, name, s.call, checked);
    }
}

// Play back, on a disk whose check answered `checked`.
pub fn play_checked(
    image: &mut [u8],
    g: Geometry,
    bytes: &[u8],
    results: &mut [u8],
    checked: Refusal,
) -> Played
    requires { checked ≡ check g image.old }
    ensures { (result, image.new, results.new) ≡ play g image.old bytes.now results.old }
{
    if checked.number != 0 {
        return Played {
            refusal: checked,
            calls: 0,
            byte: 0,
            bit: 0,
        };
    }
    let c = play_trace::check_trace(bytes);
    if !c.well {
        return Played {
            refusal: Why::BadTrace.after(checked),
            calls: 0,
            byte: c.byte,
            bit: c.bit,
        };
    }
    let calls = c.calls;
    if results.len() < calls {
        return Played {
            refusal: Why::NoRoom.after(checked),
            calls: 0,
            byte: 0,
            bit: 0,
        };
    }
    run(image, g, bytes, results, calls, checked);
    Played {
        refusal: checked,
        calls,
        byte: 0,
        bit: 0,
    }
}
