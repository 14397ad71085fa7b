// The exported functions, for hosts in C and Rust: numbers and byte slices only (host/include/genie.h). Each tests what it is lent.
#![tactic(auto)]

ghost use Rattle.std.specs.Prelude.{◌≡◌};
ghost use Rattle.genie_codec.specs.Words.{geometry};
ghost use Rattle.genie.specs.Exports.{new_file, too_short, exported_name, exported_check, exported_look_up, exported_open, exported_create};
ghost use Rattle.genie.specs.Exports.{exported_read_record, exported_read_bytes, exported_read_sector, exported_write_record, exported_write_bytes};
ghost use Rattle.genie.specs.Exports.{exported_allot, exported_trim, exported_kill, exported_bring_back, exported_play, exported_list, exported_count};
ghost use Rattle.genie.specs.Exports.{exported_free};
ghost use Rattle.genie.specs.Compared.{exported_compare};
ghost use Rattle.genie.specs.Program.{exported_load_record};
ghost use Rattle.genie.specs.Table.{exported_list_from};
ghost use Rattle.drives.specs.Pair.{pair};
ghost use Rattle.genie.specs.Drives.{drives_look_up, drives_open, drives_create, drives_read_record, drives_read_sector};
ghost use Rattle.genie.specs.Drives.{drives_write_record, drives_allot, drives_trim, drives_kill};

use meaning::{Geometry, NewFile};

// What goes out where a slice is lent too short: 12, after 1 and the faults.
fn short(image: &[u8], g: Geometry, fault_slot: &mut usize) -> u8
    ensures { (result ≡ (too_short g image.now).number) × (fault_slot.new ≡ (too_short g image.now).at) }
{
    let c = refusal::short(calls::check(image, g));
    *fault_slot = c.at;
    c.number
}

// The check of a name, without a disk.
#[unsafe(no_mangle)]
pub extern "C" fn genie_name(name: &[u8], folded: &mut [u8], place: &mut usize) -> u8
    ensures { (result, place.new, folded.new) ≡ exported_name name.now folded.old }
{
    if folded.len() < genie_codec::NAME_BYTES {
        *place = name_spelling::NO_PLACE;
        return 12;
    }
    let n = name_spelling::incoming(name);
    *place = n.place;
    if n.place != name_spelling::NO_PLACE {
        return 3;
    }
    let taken = n.name;
    genie_codec::put_name(folded, 0, taken);
    0
}

#[unsafe(no_mangle)]
pub extern "C" fn genie_check(
    image: &[u8],
    blocks: usize,
    units: usize,
    start: usize,
    open_code: u16,
    system_disk: bool,
    granule_sectors: usize,
    fault_slot: &mut usize,
) -> u8
    ensures { (result, fault_slot.new)
        ≡ exported_check (geometry blocks units start open_code system_disk granule_sectors) image.now }
{
    let g = genie_codec::geometry(
        blocks,
        units,
        start,
        open_code,
        system_disk,
        granule_sectors,
    );
    let f = calls::check(image, g);
    *fault_slot = f.at;
    f.number
}

#[unsafe(no_mangle)]
pub extern "C" fn genie_look_up(
    image: &[u8],
    blocks: usize,
    units: usize,
    start: usize,
    open_code: u16,
    system_disk: bool,
    granule_sectors: usize,
    name: &[u8],
    slot: &mut usize,
    compared: &mut usize,
    place: &mut usize,
    fault_slot: &mut usize,
) -> u8
    ensures { (result, fault_slot.new, place.new, slot.new, compared.new)
        ≡ exported_look_up (geometry blocks units start open_code system_disk granule_sectors) image.now name.now }
{
    let g = genie_codec::geometry(
        blocks,
        units,
        start,
        open_code,
        system_disk,
        granule_sectors,
    );
    let l = calls::look_up(image, g, name);
    *fault_slot = refusal::slot_told(l.refusal);
    *place = name_spelling::place_of(l.refusal);
    *slot = l.slot;
    *compared = l.compared;
    l.refusal.number
}

#[unsafe(no_mangle)]
pub extern "C" fn genie_open(
    image: &[u8],
    blocks: usize,
    units: usize,
    start: usize,
    open_code: u16,
    system_disk: bool,
    granule_sectors: usize,
    name: &[u8],
    length: usize,
    checking: bool,
    code: u16,
    handle: &mut [u8],
    place: &mut usize,
    fault_slot: &mut usize,
) -> u8
    ensures { (result, fault_slot.new, place.new, handle.new)
        ≡ exported_open (geometry blocks units start open_code system_disk granule_sectors) image.now name.now length checking code
        handle.old }
{
    let g = genie_codec::geometry(
        blocks,
        units,
        start,
        open_code,
        system_disk,
        granule_sectors,
    );
    if handle.len() < genie_codec::HANDLE_BYTES {
        *place = name_spelling::NO_PLACE;
        return short(image, g, fault_slot);
    }
    let a = calls::open_file(image, g, name, length, checking, code);
    *fault_slot = refusal::slot_told(a.refusal);
    *place = name_spelling::place_of(a.refusal);
    genie_codec::put_handle(handle, a.handle);
    a.refusal.number
}

#[unsafe(no_mangle)]
pub extern "C" fn genie_create(
    image: &mut [u8],
    blocks: usize,
    units: usize,
    start: usize,
    open_code: u16,
    system_disk: bool,
    granule_sectors: usize,
    name: &[u8],
    day: usize,
    month: usize,
    year: usize,
    length: usize,
    main: u16,
    worker: u16,
    checking: bool,
    old: &mut usize,
    handle: &mut [u8],
    place: &mut usize,
    fault_slot: &mut usize,
) -> u8
    ensures { (result, fault_slot.new, place.new, old.new, handle.new, image.new)
        ≡ exported_create (geometry blocks units start open_code system_disk granule_sectors) image.old name.now
        (new_file day month year length main worker) checking handle.old }
{
    let g = genie_codec::geometry(
        blocks,
        units,
        start,
        open_code,
        system_disk,
        granule_sectors,
    );
    if handle.len() < genie_codec::HANDLE_BYTES {
        *old = 0;
        *place = name_spelling::NO_PLACE;
        return short(image, g, fault_slot);
    }
    let f = NewFile {
        day,
        month,
        year,
        len: length,
        main,
        worker,
    };
    let c = calls::create(image, g, name, f, checking);
    *fault_slot = refusal::slot_told(c.refusal);
    *place = name_spelling::place_of(c.refusal);
    *old = genie_codec::told(c.old);
    genie_codec::put_handle(handle, c.handle);
    c.refusal.number
}

#[unsafe(no_mangle)]
pub extern "C" fn genie_read_record(
    image: &[u8],
    blocks: usize,
    units: usize,
    start: usize,
    open_code: u16,
    system_disk: bool,
    granule_sectors: usize,
    handle: &mut [u8],
    buffer: &mut [u8],
    fault_slot: &mut usize,
) -> u8
    ensures { (result, fault_slot.new, handle.new, buffer.new)
        ≡ exported_read_record (geometry blocks units start open_code system_disk granule_sectors) image.now handle.old
        buffer.old }
{
    let g = genie_codec::geometry(
        blocks,
        units,
        start,
        open_code,
        system_disk,
        granule_sectors,
    );
    if handle.len() < genie_codec::HANDLE_BYTES {
        return short(image, g, fault_slot);
    }
    let h = genie_codec::handle_of(handle);
    let record = calls::read_record(image, g, h, buffer);
    *fault_slot = record.refusal.at;
    if record.refusal.number != 0 {
        return record.refusal.number;
    }
    genie_codec::put_handle(handle, record.handle);
    0
}

#[unsafe(no_mangle)]
pub extern "C" fn genie_read_bytes(
    image: &[u8],
    blocks: usize,
    units: usize,
    start: usize,
    open_code: u16,
    system_disk: bool,
    granule_sectors: usize,
    handle: &mut [u8],
    buffer: &mut [u8],
    fault_slot: &mut usize,
) -> u8
    ensures { (result, fault_slot.new, handle.new, buffer.new)
        ≡ exported_read_bytes (geometry blocks units start open_code system_disk granule_sectors) image.now handle.old
        buffer.old }
{
    let g = genie_codec::geometry(
        blocks,
        units,
        start,
        open_code,
        system_disk,
        granule_sectors,
    );
    if handle.len() < genie_codec::HANDLE_BYTES {
        return short(image, g, fault_slot);
    }
    let h = genie_codec::handle_of(handle);
    let read = calls::read_bytes(image, g, h, buffer);
    *fault_slot = read.refusal.at;
    if read.refusal.number != 0 {
        return read.refusal.number;
    }
    genie_codec::put_handle(handle, read.handle);
    0
}

#[unsafe(no_mangle)]
pub extern "C" fn genie_read_sector(
    image: &[u8],
    blocks: usize,
    units: usize,
    start: usize,
    open_code: u16,
    system_disk: bool,
    granule_sectors: usize,
    handle: &[u8],
    k: usize,
    from: &mut usize,
    to: &mut usize,
    fault_slot: &mut usize,
) -> u8
    ensures { (result, fault_slot.new, from.new, to.new)
        ≡ exported_read_sector (geometry blocks units start open_code system_disk granule_sectors) image.now handle.now k }
{
    let g = genie_codec::geometry(
        blocks,
        units,
        start,
        open_code,
        system_disk,
        granule_sectors,
    );
    if handle.len() < genie_codec::HANDLE_BYTES {
        *from = 0;
        *to = 0;
        return short(image, g, fault_slot);
    }
    let h = genie_codec::handle_of(handle);
    let p = calls::sector_part(image, g, h, k);
    *fault_slot = p.refusal.at;
    *from = p.from;
    *to = p.to;
    p.refusal.number
}

#[unsafe(no_mangle)]
pub extern "C" fn genie_write_record(
    image: &mut [u8],
    blocks: usize,
    units: usize,
    start: usize,
    open_code: u16,
    system_disk: bool,
    granule_sectors: usize,
    handle: &mut [u8],
    sequential: bool,
    buffer: &[u8],
    fault_slot: &mut usize,
) -> u8
    ensures { (result, fault_slot.new, handle.new, image.new)
        ≡ exported_write_record (geometry blocks units start open_code system_disk granule_sectors)
        image.old handle.old sequential buffer.now }
{
    let g = genie_codec::geometry(
        blocks,
        units,
        start,
        open_code,
        system_disk,
        granule_sectors,
    );
    if handle.len() < genie_codec::HANDLE_BYTES {
        return short(image, g, fault_slot);
    }
    let h = genie_codec::handle_of(handle);
    let m = genie_codec::mode_of(sequential);
    let put = calls::write_record(image, g, m, h, buffer);
    *fault_slot = put.refusal.at;
    if put.refusal.number != 0 {
        return put.refusal.number;
    }
    genie_codec::put_handle(handle, put.handle);
    0
}

#[unsafe(no_mangle)]
pub extern "C" fn genie_write_bytes(
    image: &mut [u8],
    blocks: usize,
    units: usize,
    start: usize,
    open_code: u16,
    system_disk: bool,
    granule_sectors: usize,
    handle: &mut [u8],
    sequential: bool,
    buffer: &[u8],
    fault_slot: &mut usize,
) -> u8
    ensures { (result, fault_slot.new, handle.new, image.new)
        ≡ exported_write_bytes (geometry blocks units start open_code system_disk granule_sectors) image.old handle.old sequential
        buffer.now }
{
    let g = genie_codec::geometry(
        blocks,
        units,
        start,
        open_code,
        system_disk,
        granule_sectors,
    );
    if handle.len() < genie_codec::HANDLE_BYTES {
        return short(image, g, fault_slot);
    }
    let h = genie_codec::handle_of(handle);
    let m = genie_codec::mode_of(sequential);
    let written = calls::write_bytes(image, g, m, h, buffer);
    *fault_slot = written.refusal.at;
    if written.refusal.number != 0 {
        return written.refusal.number;
    }
    genie_codec::put_handle(handle, written.handle);
    0
}

#[unsafe(no_mangle)]
pub extern "C" fn genie_allot(
    image: &mut [u8],
    blocks: usize,
    units: usize,
    start: usize,
    open_code: u16,
    system_disk: bool,
    granule_sectors: usize,
    handle: &[u8],
    k: usize,
    fault_slot: &mut usize,
) -> u8
    ensures { (result, fault_slot.new, image.new)
        ≡ exported_allot (geometry blocks units start open_code system_disk granule_sectors) image.old handle.now k }
{
    let g = genie_codec::geometry(
        blocks,
        units,
        start,
        open_code,
        system_disk,
        granule_sectors,
    );
    if handle.len() < genie_codec::HANDLE_BYTES {
        return short(image, g, fault_slot);
    }
    let h = genie_codec::handle_of(handle);
    let allotted = calls::allot(image, g, h, k);
    *fault_slot = allotted.refusal.at;
    allotted.refusal.number
}

#[unsafe(no_mangle)]
pub extern "C" fn genie_trim(
    image: &mut [u8],
    blocks: usize,
    units: usize,
    start: usize,
    open_code: u16,
    system_disk: bool,
    granule_sectors: usize,
    handle: &[u8],
    fault_slot: &mut usize,
) -> u8
    ensures { (result, fault_slot.new, image.new)
        ≡ exported_trim (geometry blocks units start open_code system_disk granule_sectors) image.old handle.now }
{
    let g = genie_codec::geometry(
        blocks,
        units,
        start,
        open_code,
        system_disk,
        granule_sectors,
    );
    if handle.len() < genie_codec::HANDLE_BYTES {
        return short(image, g, fault_slot);
    }
    let h = genie_codec::handle_of(handle);
    let trimmed = calls::trim(image, g, h);
    *fault_slot = trimmed.refusal.at;
    trimmed.refusal.number
}

#[unsafe(no_mangle)]
pub extern "C" fn genie_kill(
    image: &mut [u8],
    blocks: usize,
    units: usize,
    start: usize,
    open_code: u16,
    system_disk: bool,
    granule_sectors: usize,
    handle: &[u8],
    fault_slot: &mut usize,
) -> u8
    ensures { (result, fault_slot.new, image.new)
        ≡ exported_kill (geometry blocks units start open_code system_disk granule_sectors) image.old handle.now }
{
    let g = genie_codec::geometry(
        blocks,
        units,
        start,
        open_code,
        system_disk,
        granule_sectors,
    );
    if handle.len() < genie_codec::HANDLE_BYTES {
        return short(image, g, fault_slot);
    }
    let h = genie_codec::handle_of(handle);
    let killed = calls::kill(image, g, h);
    *fault_slot = killed.refusal.at;
    killed.refusal.number
}

#[unsafe(no_mangle)]
pub extern "C" fn genie_bring_back(
    image: &mut [u8],
    blocks: usize,
    units: usize,
    start: usize,
    open_code: u16,
    system_disk: bool,
    granule_sectors: usize,
    slot: usize,
    slots: &mut usize,
    granules: &mut usize,
    fault_slot: &mut usize,
) -> u8
    ensures { (result, fault_slot.new, slots.new, granules.new, image.new)
        ≡ exported_bring_back (geometry blocks units start open_code system_disk granule_sectors) image.old slot }
{
    let g = genie_codec::geometry(
        blocks,
        units,
        start,
        open_code,
        system_disk,
        granule_sectors,
    );
    let b = calls::bring_back(image, g, slot);
    *fault_slot = b.refusal.at;
    *slots = b.slots;
    *granules = b.granules;
    b.refusal.number
}

#[unsafe(no_mangle)]
pub extern "C" fn genie_play(
    image: &mut [u8],
    blocks: usize,
    units: usize,
    start: usize,
    open_code: u16,
    system_disk: bool,
    granule_sectors: usize,
    trace: &[u8],
    results: &mut [u8],
    calls: &mut usize,
    byte: &mut usize,
    bit: &mut usize,
    fault_slot: &mut usize,
) -> u8
    ensures { (result, fault_slot.new, calls.new, byte.new, bit.new, results.new, image.new)
        ≡ exported_play (geometry blocks units start open_code system_disk granule_sectors) image.old trace.now
        results.old }
{
    let g = genie_codec::geometry(
        blocks,
        units,
        start,
        open_code,
        system_disk,
        granule_sectors,
    );
    let p = calls::play(image, g, trace, results);
    *fault_slot = p.refusal.at;
    *calls = p.calls;
    *byte = p.byte;
    *bit = p.bit;
    p.refusal.number
}

#[unsafe(no_mangle)]
pub extern "C" fn genie_list(
    image: &[u8],
    blocks: usize,
    units: usize,
    start: usize,
    open_code: u16,
    system_disk: bool,
    granule_sectors: usize,
    number: usize,
    name: &mut [u8],
    size: &mut usize,
    granules: &mut usize,
    more: &mut usize,
    fault_slot: &mut usize,
) -> u8
    ensures { (result, fault_slot.new, size.new, granules.new, more.new, name.new)
        ≡ exported_list (geometry blocks units start open_code system_disk granule_sectors) image.now number name.old }
{
    let g = genie_codec::geometry(
        blocks,
        units,
        start,
        open_code,
        system_disk,
        granule_sectors,
    );
    if name.len() < genie_codec::NAME_BYTES {
        *size = 0;
        *granules = 0;
        *more = 0;
        return short(image, g, fault_slot);
    }
    let l = calls::list(image, g, number);
    *fault_slot = l.refusal.at;
    *size = l.size;
    *granules = l.granules;
    if !l.more {
        *more = 0;
        return l.refusal.number;
    }
    *more = 1;
    let file = l.name;
    genie_codec::put_name(name, 0, file);
    l.refusal.number
}

#[unsafe(no_mangle)]
pub extern "C" fn genie_list_from(
    image: &[u8],
    blocks: usize,
    units: usize,
    start: usize,
    open_code: u16,
    system_disk: bool,
    granule_sectors: usize,
    number: usize,
    table: &mut [u8],
    told: &mut usize,
    fault_slot: &mut usize,
) -> u8
    ensures { (result, fault_slot.new, told.new, table.new)
        ≡ exported_list_from (geometry blocks units start open_code system_disk granule_sectors) image.now number table.old }
{
    let g = genie_codec::geometry(
        blocks,
        units,
        start,
        open_code,
        system_disk,
        granule_sectors,
    );
    let r = calls::list_from(image, g, number, table);
    *fault_slot = r.refusal.at;
    *told = r.told;
    r.refusal.number
}

#[unsafe(no_mangle)]
pub extern "C" fn genie_count(
    image: &[u8],
    blocks: usize,
    units: usize,
    start: usize,
    open_code: u16,
    system_disk: bool,
    granule_sectors: usize,
    files: &mut usize,
    free: &mut usize,
    fault_slot: &mut usize,
) -> u8
    ensures { (result, fault_slot.new, files.new, free.new)
        ≡ exported_count (geometry blocks units start open_code system_disk granule_sectors) image.now }
{
    let g = genie_codec::geometry(
        blocks,
        units,
        start,
        open_code,
        system_disk,
        granule_sectors,
    );
    let c = calls::counts(image, g);
    *fault_slot = c.refusal.at;
    *files = c.files;
    *free = c.free;
    c.refusal.number
}

#[unsafe(no_mangle)]
pub extern "C" fn genie_free(
    image: &[u8],
    blocks: usize,
    units: usize,
    start: usize,
    open_code: u16,
    system_disk: bool,
    granule_sectors: usize,
    free: &mut usize,
    longest: &mut usize,
) -> u8
    ensures { (result, free.new, longest.new)
        ≡ exported_free (geometry blocks units start open_code system_disk granule_sectors) image.now }
{
    let g = genie_codec::geometry(
        blocks,
        units,
        start,
        open_code,
        system_disk,
        granule_sectors,
    );
    let s = calls::free_space(image, g);
    *free = s.free;
    *longest = s.longest;
    s.refusal.number
}

#[unsafe(no_mangle)]
pub extern "C" fn genie_compare(
    first: &[u8],
    blocks: usize,
    units: usize,
    start: usize,
    open_code: u16,
    system_disk: bool,
    granule_sectors: usize,
    second: &[u8],
    blocks2: usize,
    units2: usize,
    start2: usize,
    open_code2: u16,
    system_disk2: bool,
    granule_sectors2: usize,
    number: usize,
    name: &mut [u8],
    image: &mut usize,
    kind: &mut usize,
    position: &mut usize,
    flags: &mut usize,
    fault_slot: &mut usize,
) -> u8
    ensures { (result, fault_slot.new, image.new, kind.new, position.new, flags.new, name.new)
        ≡ exported_compare (geometry blocks units start open_code system_disk granule_sectors) first.now
        (geometry blocks2 units2 start2 open_code2 system_disk2 granule_sectors2) second.now number name.old }
{
    let g = genie_codec::geometry(
        blocks,
        units,
        start,
        open_code,
        system_disk,
        granule_sectors,
    );
    let h = genie_codec::geometry(
        blocks2,
        units2,
        start2,
        open_code2,
        system_disk2,
        granule_sectors2,
    );
    if name.len() < genie_codec::NAME_BYTES {
        *kind = 0;
        *position = 0;
        *flags = 0;
        let c = refusal::short_of_two(calls::check(first, g), calls::check(second, h));
        *image = usize::from(c.image);
        *fault_slot = c.at;
        return c.number;
    }
    let x = calls::compare(first, g, second, h, number);
    *image = usize::from(x.refusal.image);
    *fault_slot = x.refusal.at;
    *kind = usize::from(x.kind);
    *position = x.at;
    *flags = genie_codec::flags_of(x);
    if x.kind == 0 {
        return x.refusal.number;
    }
    let file = x.name;
    genie_codec::put_name(name, 0, file);
    x.refusal.number
}

#[unsafe(no_mangle)]
pub extern "C" fn genie_load_record(
    image: &[u8],
    blocks: usize,
    units: usize,
    start: usize,
    open_code: u16,
    system_disk: bool,
    granule_sectors: usize,
    handle: &mut [u8],
    buffer: &mut [u8],
    kind: &mut usize,
    address: &mut usize,
    count: &mut usize,
    position: &mut usize,
    fault_slot: &mut usize,
) -> u8
    ensures { (
      result,
      fault_slot.new,
      kind.new,
      address.new,
      count.new,
      position.new,
      handle.new,
      buffer.new,
    )
        ≡ exported_load_record (geometry blocks units start open_code system_disk granule_sectors) image.now handle.old
        buffer.old }
{
    let g = genie_codec::geometry(
        blocks,
        units,
        start,
        open_code,
        system_disk,
        granule_sectors,
    );
    if handle.len() < genie_codec::HANDLE_BYTES {
        *kind = 0;
        *address = 0;
        *count = 0;
        *position = 0;
        return short(image, g, fault_slot);
    }
    let h = genie_codec::handle_of(handle);
    let a = calls::load_record(image, g, h, buffer);
    *fault_slot = a.refusal.at;
    *kind = a.kind;
    *address = a.address;
    *count = a.count;
    *position = a.position;
    if a.kind != 1 {
        return a.refusal.number;
    }
    genie_codec::put_handle(handle, a.handle);
    a.refusal.number
}

// Two drives (02 §9): the image and geometry of drive 0, then of drive 1. A handle has 20 bytes; fewer are taken for zeros.
#[unsafe(no_mangle)]
pub extern "C" fn genie_drives_look_up(
    image0: &[u8],
    blocks0: usize,
    units0: usize,
    start0: usize,
    open_code0: u16,
    system_disk0: bool,
    granule_sectors0: usize,
    image1: &[u8],
    blocks1: usize,
    units1: usize,
    start1: usize,
    open_code1: u16,
    system_disk1: bool,
    granule_sectors1: usize,
    numbered: bool,
    drive: usize,
    name: &[u8],
    found_drive: &mut usize,
    slot: &mut usize,
    compared: &mut usize,
    place: &mut usize,
    fault_drive: &mut usize,
    fault_slot: &mut usize,
) -> u8
    ensures { (
      result,
      fault_drive.new,
      fault_slot.new,
      place.new,
      found_drive.new,
      slot.new,
      compared.new,
    )
        ≡ drives_look_up (pair (geometry blocks0 units0 start0 open_code0 system_disk0 granule_sectors0) image0.now
        (geometry blocks1 units1 start1 open_code1 system_disk1 granule_sectors1) image1.now)
        numbered drive name.now }
{
    let g0 = genie_codec::geometry(
        blocks0,
        units0,
        start0,
        open_code0,
        system_disk0,
        granule_sectors0,
    );
    let g1 = genie_codec::geometry(
        blocks1,
        units1,
        start1,
        open_code1,
        system_disk1,
        granule_sectors1,
    );
    let found = drives_calls::look_up(image0, g0, image1, g1, numbered, drive, name);
    *fault_drive = drives_told::fault_drive(found.refusal);
    *fault_slot = refusal::slot_told(found.refusal);
    *place = name_spelling::place_of(found.refusal);
    *found_drive = found.drive;
    *slot = found.slot;
    *compared = found.compared;
    found.refusal.number
}

#[unsafe(no_mangle)]
pub extern "C" fn genie_drives_open(
    image0: &[u8],
    blocks0: usize,
    units0: usize,
    start0: usize,
    open_code0: u16,
    system_disk0: bool,
    granule_sectors0: usize,
    image1: &[u8],
    blocks1: usize,
    units1: usize,
    start1: usize,
    open_code1: u16,
    system_disk1: bool,
    granule_sectors1: usize,
    numbered: bool,
    drive: usize,
    name: &[u8],
    length: usize,
    checking: bool,
    code: u16,
    handle: &mut [u8],
    place: &mut usize,
    fault_drive: &mut usize,
    fault_slot: &mut usize,
) -> u8
    ensures { (result, fault_drive.new, fault_slot.new, place.new, handle.new)
        ≡ drives_open (pair (geometry blocks0 units0 start0 open_code0 system_disk0 granule_sectors0) image0.now
        (geometry blocks1 units1 start1 open_code1 system_disk1 granule_sectors1) image1.now)
        numbered drive name.now length checking code handle.old }
{
    let g0 = genie_codec::geometry(
        blocks0,
        units0,
        start0,
        open_code0,
        system_disk0,
        granule_sectors0,
    );
    let g1 = genie_codec::geometry(
        blocks1,
        units1,
        start1,
        open_code1,
        system_disk1,
        granule_sectors1,
    );
    let len = drives_codec::length_for(handle, length);
    let opened = drives_calls::open_file(
        image0, g0, image1, g1, numbered, drive, name, len, checking, code,
    );
    *fault_drive = drives_told::fault_drive(opened.refusal);
    *fault_slot = refusal::slot_told(opened.refusal);
    *place = name_spelling::place_of(opened.refusal);
    drives_codec::put_handle(handle, opened.handle);
    opened.refusal.number
}

#[unsafe(no_mangle)]
pub extern "C" fn genie_drives_create(
    image0: &mut [u8],
    blocks0: usize,
    units0: usize,
    start0: usize,
    open_code0: u16,
    system_disk0: bool,
    granule_sectors0: usize,
    image1: &mut [u8],
    blocks1: usize,
    units1: usize,
    start1: usize,
    open_code1: u16,
    system_disk1: bool,
    granule_sectors1: usize,
    numbered: bool,
    drive: usize,
    name: &[u8],
    day: usize,
    month: usize,
    year: usize,
    length: usize,
    main_code: u16,
    worker_code: u16,
    checking: bool,
    old: &mut usize,
    handle: &mut [u8],
    place: &mut usize,
    fault_drive: &mut usize,
    fault_slot: &mut usize,
) -> u8
    ensures { (
      result,
      fault_drive.new,
      fault_slot.new,
      place.new,
      old.new,
      handle.new,
      image0.new,
      image1.new,
    )
        ≡ drives_create (pair (geometry blocks0 units0 start0 open_code0 system_disk0 granule_sectors0) image0.old
        (geometry blocks1 units1 start1 open_code1 system_disk1 granule_sectors1) image1.old)
        numbered drive name.now (new_file day month year length main_code worker_code) checking handle.old }
{
    let g0 = genie_codec::geometry(
        blocks0,
        units0,
        start0,
        open_code0,
        system_disk0,
        granule_sectors0,
    );
    let g1 = genie_codec::geometry(
        blocks1,
        units1,
        start1,
        open_code1,
        system_disk1,
        granule_sectors1,
    );
    let f = NewFile {
        day,
        month,
        year,
        len: drives_codec::length_for(handle, length),
        main: main_code,
        worker: worker_code,
    };
    let created = drives_calls::create(image0, g0, image1, g1, numbered, drive, name, f, checking);
    *fault_drive = drives_told::fault_drive(created.refusal);
    *fault_slot = refusal::slot_told(created.refusal);
    *place = name_spelling::place_of(created.refusal);
    *old = genie_codec::told(created.old);
    drives_codec::put_handle(handle, created.handle);
    created.refusal.number
}

#[unsafe(no_mangle)]
pub extern "C" fn genie_drives_read_record(
    image0: &[u8],
    blocks0: usize,
    units0: usize,
    start0: usize,
    open_code0: u16,
    system_disk0: bool,
    granule_sectors0: usize,
    image1: &[u8],
    blocks1: usize,
    units1: usize,
    start1: usize,
    open_code1: u16,
    system_disk1: bool,
    granule_sectors1: usize,
    handle: &mut [u8],
    buffer: &mut [u8],
    fault_drive: &mut usize,
    fault_slot: &mut usize,
) -> u8
    ensures { (result, fault_drive.new, fault_slot.new, handle.new, buffer.new)
        ≡ drives_read_record (pair (geometry blocks0 units0 start0 open_code0 system_disk0 granule_sectors0) image0.now
        (geometry blocks1 units1 start1 open_code1 system_disk1 granule_sectors1) image1.now)
        handle.old buffer.old }
{
    let g0 = genie_codec::geometry(
        blocks0,
        units0,
        start0,
        open_code0,
        system_disk0,
        granule_sectors0,
    );
    let g1 = genie_codec::geometry(
        blocks1,
        units1,
        start1,
        open_code1,
        system_disk1,
        granule_sectors1,
    );
    let h = drives_codec::handle_of(handle);
    let a = drives_calls::read_record(image0, g0, image1, g1, h, buffer);
    *fault_drive = drives_told::fault_drive(a.refusal);
    *fault_slot = a.refusal.at;
    if a.refusal.number != 0 {
        return a.refusal.number;
    }
    drives_codec::put_handle(handle, a.handle);
    0
}

#[unsafe(no_mangle)]
pub extern "C" fn genie_drives_read_sector(
    image0: &[u8],
    blocks0: usize,
    units0: usize,
    start0: usize,
    open_code0: u16,
    system_disk0: bool,
    granule_sectors0: usize,
    image1: &[u8],
    blocks1: usize,
    units1: usize,
    start1: usize,
    open_code1: u16,
    system_disk1: bool,
    granule_sectors1: usize,
    handle: &[u8],
    k: usize,
    drive: &mut usize,
    from: &mut usize,
    to: &mut usize,
    fault_drive: &mut usize,
    fault_slot: &mut usize,
) -> u8
    ensures { (result, fault_drive.new, fault_slot.new, drive.new, from.new, to.new)
        ≡ drives_read_sector (pair (geometry blocks0 units0 start0 open_code0 system_disk0 granule_sectors0) image0.now
        (geometry blocks1 units1 start1 open_code1 system_disk1 granule_sectors1) image1.now)
        handle.now k }
{
    let g0 = genie_codec::geometry(
        blocks0,
        units0,
        start0,
        open_code0,
        system_disk0,
        granule_sectors0,
    );
    let g1 = genie_codec::geometry(
        blocks1,
        units1,
        start1,
        open_code1,
        system_disk1,
        granule_sectors1,
    );
    let h = drives_codec::handle_of(handle);
    let part = drives_calls::sector_part(image0, g0, image1, g1, h, k);
    *fault_drive = drives_told::fault_drive(part.refusal);
    *fault_slot = part.refusal.at;
    *drive = part.drive;
    *from = part.from;
    *to = part.to;
    part.refusal.number
}

#[unsafe(no_mangle)]
pub extern "C" fn genie_drives_write_record(
    image0: &mut [u8],
    blocks0: usize,
    units0: usize,
    start0: usize,
    open_code0: u16,
    system_disk0: bool,
    granule_sectors0: usize,
    image1: &mut [u8],
    blocks1: usize,
    units1: usize,
    start1: usize,
    open_code1: u16,
    system_disk1: bool,
    granule_sectors1: usize,
    handle: &mut [u8],
    sequential: bool,
    buffer: &[u8],
    fault_drive: &mut usize,
    fault_slot: &mut usize,
) -> u8
    ensures { (result, fault_drive.new, fault_slot.new, handle.new, image0.new, image1.new)
        ≡ drives_write_record (pair (geometry blocks0 units0 start0 open_code0 system_disk0 granule_sectors0) image0.old
        (geometry blocks1 units1 start1 open_code1 system_disk1 granule_sectors1) image1.old)
        handle.old sequential buffer.now }
{
    let g0 = genie_codec::geometry(
        blocks0,
        units0,
        start0,
        open_code0,
        system_disk0,
        granule_sectors0,
    );
    let g1 = genie_codec::geometry(
        blocks1,
        units1,
        start1,
        open_code1,
        system_disk1,
        granule_sectors1,
    );
    let h = drives_codec::handle_of(handle);
    let m = genie_codec::mode_of(sequential);
    let a = drives_calls::write_record(image0, g0, image1, g1, m, h, buffer);
    *fault_drive = drives_told::fault_drive(a.refusal);
    *fault_slot = a.refusal.at;
    if a.refusal.number != 0 {
        return a.refusal.number;
    }
    drives_codec::put_handle(handle, a.handle);
    0
}

#[unsafe(no_mangle)]
pub extern "C" fn genie_drives_allot(
    image0: &mut [u8],
    blocks0: usize,
    units0: usize,
    start0: usize,
    open_code0: u16,
    system_disk0: bool,
    granule_sectors0: usize,
    image1: &mut [u8],
    blocks1: usize,
    units1: usize,
    start1: usize,
    open_code1: u16,
    system_disk1: bool,
    granule_sectors1: usize,
    handle: &[u8],
    k: usize,
    fault_drive: &mut usize,
    fault_slot: &mut usize,
) -> u8
    ensures { (result, fault_drive.new, fault_slot.new, image0.new, image1.new)
        ≡ drives_allot (pair (geometry blocks0 units0 start0 open_code0 system_disk0 granule_sectors0) image0.old
        (geometry blocks1 units1 start1 open_code1 system_disk1 granule_sectors1) image1.old)
        handle.now k }
{
    let g0 = genie_codec::geometry(
        blocks0,
        units0,
        start0,
        open_code0,
        system_disk0,
        granule_sectors0,
    );
    let g1 = genie_codec::geometry(
        blocks1,
        units1,
        start1,
        open_code1,
        system_disk1,
        granule_sectors1,
    );
    let h = drives_codec::handle_of(handle);
    let a = drives_calls::allot(image0, g0, image1, g1, h, k);
    *fault_drive = drives_told::fault_drive(a.refusal);
    *fault_slot = a.refusal.at;
    a.refusal.number
}

#[unsafe(no_mangle)]
pub extern "C" fn genie_drives_trim(
    image0: &mut [u8],
    blocks0: usize,
    units0: usize,
    start0: usize,
    open_code0: u16,
    system_disk0: bool,
    granule_sectors0: usize,
    image1: &mut [u8],
    blocks1: usize,
    units1: usize,
    start1: usize,
    open_code1: u16,
    system_disk1: bool,
    granule_sectors1: usize,
    handle: &[u8],
    fault_drive: &mut usize,
    fault_slot: &mut usize,
) -> u8
    ensures { (result, fault_drive.new, fault_slot.new, image0.new, image1.new)
        ≡ drives_trim (pair (geometry blocks0 units0 start0 open_code0 system_disk0 granule_sectors0) image0.old
        (geometry blocks1 units1 start1 open_code1 system_disk1 granule_sectors1) image1.old)
        handle.now }
{
    let g0 = genie_codec::geometry(
        blocks0,
        units0,
        start0,
        open_code0,
        system_disk0,
        granule_sectors0,
    );
    let g1 = genie_codec::geometry(
        blocks1,
        units1,
        start1,
        open_code1,
        system_disk1,
        granule_sectors1,
    );
    let h = drives_codec::handle_of(handle);
    let a = drives_calls::trim(image0, g0, image1, g1, h);
    *fault_drive = drives_told::fault_drive(a.refusal);
    *fault_slot = a.refusal.at;
    a.refusal.number
}

#[unsafe(no_mangle)]
pub extern "C" fn genie_drives_kill(
    image0: &mut [u8],
    blocks0: usize,
    units0: usize,
    start0: usize,
    open_code0: u16,
    system_disk0: bool,
    granule_sectors0: usize,
    image1: &mut [u8],
    blocks1: usize,
    units1: usize,
    start1: usize,
    open_code1: u16,
    system_disk1: bool,
    granule_sectors1: usize,
    handle: &[u8],
    fault_drive: &mut usize,
    fault_slot: &mut usize,
) -> u8
    ensures { (result, fault_drive.new, fault_slot.new, image0.new, image1.new)
        ≡ drives_kill (pair (geometry blocks0 units0 start0 open_code0 system_disk0 granule_sectors0) image0.old
        (geometry blocks1 units1 start1 open_code1 system_disk1 granule_sectors1) image1.old)
        handle.now }
{
    let g0 = genie_codec::geometry(
        blocks0,
        units0,
        start0,
        open_code0,
        system_disk0,
        granule_sectors0,
    );
    let g1 = genie_codec::geometry(
        blocks1,
        units1,
        start1,
        open_code1,
        system_disk1,
        granule_sectors1,
    );
    let h = drives_codec::handle_of(handle);
    let a = drives_calls::kill(image0, g0, image1, g1, h);
    *fault_drive = drives_told::fault_drive(a.refusal);
    *fault_slot = a.refusal.at;
    a.refusal.number
}
