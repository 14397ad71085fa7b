// The exported functions for hosts in C and Rust (host/include/genie.h), as a static library: each is genie's function of its name, with the
// same contract. A crate is a library or a static library; genie is the library, on which the promises stand.
#![tactic(auto)]

ghost use Rattle.std.specs.Prelude.{◌≡◌};
ghost use Rattle.genie_codec.specs.Words.{geometry};
ghost use Rattle.genie.specs.Exports.{new_file, exported_name, exported_check, exported_look_up, exported_open, exported_create};
ghost use Rattle.genie.specs.Exports.{exported_read_record, exported_read_bytes, exported_read_sector, exported_write_record, exported_write_bytes};
ghost use Rattle.genie.specs.Exports.{exported_allot, exported_trim, exported_kill, exported_bring_back, exported_play, exported_list, exported_count};
ghost use Rattle.genie.specs.Exports.{exported_free};
ghost use Rattle.genie.specs.Compared.{exported_compare};
ghost use Rattle.genie.specs.Program.{exported_load_record};
ghost use Rattle.genie.specs.Table.{exported_list_from};
ghost use Rattle.drives.specs.Pair.{pair};
ghost use Rattle.genie.specs.Drives.{drives_look_up, drives_open, drives_create, drives_read_record, drives_read_sector};
ghost use Rattle.genie.specs.Drives.{drives_write_record, drives_allot, drives_trim, drives_kill};

// The check of a name, without a disk.
#[unsafe(no_mangle)]
pub extern "C" fn genie_name(name: &[u8], folded: &mut [u8], place: &mut usize) -> u8
    ensures { (result, place.new, folded.new) ≡ exported_name name.now folded.old }
{
    genie::genie_name(name, folded, place)
}

#[unsafe(no_mangle)]
pub extern "C" fn genie_check(
    image: &[u8],
    blocks: usize,
    units: usize,
    start: usize,
    open_code: u16,
    system_disk: bool,
    granule_sectors: usize,
    fault_slot: &mut usize,
) -> u8
    ensures { (result, fault_slot.new)
        ≡ exported_check (geometry blocks units start open_code system_disk granule_sectors) image.now }
{
    genie::genie_check(
        image,
        blocks,
        units,
        start,
        open_code,
        system_disk,
        granule_sectors,
        fault_slot,
    )
}

#[unsafe(no_mangle)]
pub extern "C" fn genie_look_up(
    image: &[u8],
    blocks: usize,
    units: usize,
    start: usize,
    open_code: u16,
    system_disk: bool,
    granule_sectors: usize,
    name: &[u8],
    slot: &mut usize,
    compared: &mut usize,
    place: &mut usize,
    fault_slot: &mut usize,
) -> u8
    ensures { (result, fault_slot.new, place.new, slot.new, compared.new)
        ≡ exported_look_up (geometry blocks units start open_code system_disk granule_sectors) image.now name.now }
{
    genie::genie_look_up(
        image,
        blocks,
        units,
        start,
        open_code,
        system_disk,
        granule_sectors,
        name,
        slot,
        compared,
        place,
        fault_slot,
    )
}

#[unsafe(no_mangle)]
pub extern "C" fn genie_open(
    image: &[u8],
    blocks: usize,
    units: usize,
    start: usize,
    open_code: u16,
    system_disk: bool,
    granule_sectors: usize,
    name: &[u8],
    length: usize,
    checking: bool,
    code: u16,
    handle: &mut [u8],
    place: &mut usize,
    fault_slot: &mut usize,
) -> u8
    ensures { (result, fault_slot.new, place.new, handle.new)
        ≡ exported_open (geometry blocks units start open_code system_disk granule_sectors) image.now name.now length checking code
        handle.old }
{
    genie::genie_open(
        image,
        blocks,
        units,
        start,
        open_code,
        system_disk,
        granule_sectors,
        name,
        length,
        checking,
        code,
        handle,
        place,
        fault_slot,
    )
}

#[unsafe(no_mangle)]
pub extern "C" fn genie_create(
    image: &mut [u8],
    blocks: usize,
    units: usize,
    start: usize,
    open_code: u16,
    system_disk: bool,
    granule_sectors: usize,
    name: &[u8],
    day: usize,
    month: usize,
    year: usize,
    length: usize,
    main: u16,
    worker: u16,
    checking: bool,
    old: &mut usize,
    handle: &mut [u8],
    place: &mut usize,
    fault_slot: &mut usize,
) -> u8
    ensures { (result, fault_slot.new, place.new, old.new, handle.new, image.new)
        ≡ exported_create (geometry blocks units start open_code system_disk granule_sectors) image.old name.now
        (new_file day month year length main worker) checking handle.old }
{
    genie::genie_create(
        image,
        blocks,
        units,
        start,
        open_code,
        system_disk,
        granule_sectors,
        name,
        day,
        month,
        year,
        length,
        main,
        worker,
        checking,
        old,
        handle,
        place,
        fault_slot,
    )
}

#[unsafe(no_mangle)]
pub extern "C" fn genie_read_record(
    image: &[u8],
    blocks: usize,
    units: usize,
    start: usize,
    open_code: u16,
    system_disk: bool,
    granule_sectors: usize,
    handle: &mut [u8],
    buffer: &mut [u8],
    fault_slot: &mut usize,
) -> u8
    ensures { (result, fault_slot.new, handle.new, buffer.new)
        ≡ exported_read_record (geometry blocks units start open_code system_disk granule_sectors) image.now handle.old
        buffer.old }
{
    genie::genie_read_record(
        image,
        blocks,
        units,
        start,
        open_code,
        system_disk,
        granule_sectors,
        handle,
        buffer,
        fault_slot,
    )
}

#[unsafe(no_mangle)]
pub extern "C" fn genie_read_bytes(
    image: &[u8],
    blocks: usize,
    units: usize,
    start: usize,
    open_code: u16,
    system_disk: bool,
    granule_sectors: usize,
    handle: &mut [u8],
    buffer: &mut [u8],
    fault_slot: &mut usize,
) -> u8
    ensures { (result, fault_slot.new, handle.new, buffer.new)
        ≡ exported_read_bytes (geometry blocks units start open_code system_disk granule_sectors) image.now handle.old
        buffer.old }
{
    genie::genie_read_bytes(
        image,
        blocks,
        units,
        start,
        open_code,
        system_disk,
        granule_sectors,
        handle,
        buffer,
        fault_slot,
    )
}

#[unsafe(no_mangle)]
pub extern "C" fn genie_read_sector(
    image: &[u8],
    blocks: usize,
    units: usize,
    start: usize,
    open_code: u16,
    system_disk: bool,
    granule_sectors: usize,
    handle: &[u8],
    k: usize,
    from: &mut usize,
    to: &mut usize,
    fault_slot: &mut usize,
) -> u8
    ensures { (result, fault_slot.new, from.new, to.new)
        ≡ exported_read_sector (geometry blocks units start open_code system_disk granule_sectors) image.now handle.now k }
{
    genie::genie_read_sector(
        image,
        blocks,
        units,
        start,
        open_code,
        system_disk,
        granule_sectors,
        handle,
        k,
        from,
        to,
        fault_slot,
    )
}

#[unsafe(no_mangle)]
pub extern "C" fn genie_write_record(
    image: &mut [u8],
    blocks: usize,
    units: usize,
    start: usize,
    open_code: u16,
    system_disk: bool,
    granule_sectors: usize,
    handle: &mut [u8],
    sequential: bool,
    buffer: &[u8],
    fault_slot: &mut usize,
) -> u8
    ensures { (result, fault_slot.new, handle.new, image.new)
        ≡ exported_write_record (geometry blocks units start open_code system_disk granule_sectors)
        image.old handle.old sequential buffer.now }
{
    genie::genie_write_record(
        image,
        blocks,
        units,
        start,
        open_code,
        system_disk,
        granule_sectors,
        handle,
        sequential,
        buffer,
        fault_slot,
    )
}

#[unsafe(no_mangle)]
pub extern "C" fn genie_write_bytes(
    image: &mut [u8],
    blocks: usize,
    units: usize,
    start: usize,
    open_code: u16,
    system_disk: bool,
    granule_sectors: usize,
    handle: &mut [u8],
    sequential: bool,
    buffer: &[u8],
    fault_slot: &mut usize,
) -> u8
    ensures { (result, fault_slot.new, handle.new, image.new)
        ≡ exported_write_bytes (geometry blocks units start open_code system_disk granule_sectors) image.old handle.old sequential
        buffer.now }
{
    genie::genie_write_bytes(
        image,
        blocks,
        units,
        start,
        open_code,
        system_disk,
        granule_sectors,
        handle,
        sequential,
        buffer,
        fault_slot,
    )
}

#[unsafe(no_mangle)]
pub extern "C" fn genie_allot(
    image: &mut [u8],
    blocks: usize,
    units: usize,
    start: usize,
    open_code: u16,
    system_disk: bool,
    granule_sectors: usize,
    handle: &[u8],
    k: usize,
    fault_slot: &mut usize,
) -> u8
    ensures { (result, fault_slot.new, image.new)
        ≡ exported_allot (geometry blocks units start open_code system_disk granule_sectors) image.old handle.now k }
{
    genie::genie_allot(
        image,
        blocks,
        units,
        start,
        open_code,
        system_disk,
        granule_sectors,
        handle,
        k,
        fault_slot,
    )
}

#[unsafe(no_mangle)]
pub extern "C" fn genie_trim(
    image: &mut [u8],
    blocks: usize,
    units: usize,
    start: usize,
    open_code: u16,
    system_disk: bool,
    granule_sectors: usize,
    handle: &[u8],
    fault_slot: &mut usize,
) -> u8
    ensures { (result, fault_slot.new, image.new)
        ≡ exported_trim (geometry blocks units start open_code system_disk granule_sectors) image.old handle.now }
{
    genie::genie_trim(
        image,
        blocks,
        units,
        start,
        open_code,
        system_disk,
        granule_sectors,
        handle,
        fault_slot,
    )
}

#[unsafe(no_mangle)]
pub extern "C" fn genie_kill(
    image: &mut [u8],
    blocks: usize,
    units: usize,
    start: usize,
    open_code: u16,
    system_disk: bool,
    granule_sectors: usize,
    handle: &[u8],
    fault_slot: &mut usize,
) -> u8
    ensures { (result, fault_slot.new, image.new)
        ≡ exported_kill (geometry blocks units start open_code system_disk granule_sectors) image.old handle.now }
{
    genie::genie_kill(
        image,
        blocks,
        units,
        start,
        open_code,
        system_disk,
        granule_sectors,
        handle,
        fault_slot,
    )
}

#[unsafe(no_mangle)]
pub extern "C" fn genie_bring_back(
    image: &mut [u8],
    blocks: usize,
    units: usize,
    start: usize,
    open_code: u16,
    system_disk: bool,
    granule_sectors: usize,
    slot: usize,
    slots: &mut usize,
    granules: &mut usize,
    fault_slot: &mut usize,
) -> u8
    ensures { (result, fault_slot.new, slots.new, granules.new, image.new)
        ≡ exported_bring_back (geometry blocks units start open_code system_disk granule_sectors) image.old slot }
{
    genie::genie_bring_back(
        image,
        blocks,
        units,
        start,
        open_code,
        system_disk,
        granule_sectors,
        slot,
        slots,
        granules,
        fault_slot,
    )
}

#[unsafe(no_mangle)]
pub extern "C" fn genie_play(
    image: &mut [u8],
    blocks: usize,
    units: usize,
    start: usize,
    open_code: u16,
    system_disk: bool,
    granule_sectors: usize,
    trace: &[u8],
    results: &mut [u8],
    calls: &mut usize,
    byte: &mut usize,
    bit: &mut usize,
    fault_slot: &mut usize,
) -> u8
    ensures { (result, fault_slot.new, calls.new, byte.new, bit.new, results.new, image.new)
        ≡ exported_play (geometry blocks units start open_code system_disk granule_sectors) image.old trace.now
        results.old }
{
    genie::genie_play(
        image,
        blocks,
        units,
        start,
        open_code,
        system_disk,
        granule_sectors,
        trace,
        results,
        calls,
        byte,
        bit,
        fault_slot,
    )
}

#[unsafe(no_mangle)]
pub extern "C" fn genie_list(
    image: &[u8],
    blocks: usize,
    units: usize,
    start: usize,
    open_code: u16,
    system_disk: bool,
    granule_sectors: usize,
    number: usize,
    name: &mut [u8],
    size: &mut usize,
    granules: &mut usize,
    more: &mut usize,
    fault_slot: &mut usize,
) -> u8
    ensures { (result, fault_slot.new, size.new, granules.new, more.new, name.new)
        ≡ exported_list (geometry blocks units start open_code system_disk granule_sectors) image.now number name.old }
{
    genie::genie_list(
        image,
        blocks,
        units,
        start,
        open_code,
        system_disk,
        granule_sectors,
        number,
        name,
        size,
        granules,
        more,
        fault_slot,
    )
}

#[unsafe(no_mangle)]
pub extern "C" fn genie_list_from(
    image: &[u8],
    blocks: usize,
    units: usize,
    start: usize,
    open_code: u16,
    system_disk: bool,
    granule_sectors: usize,
    number: usize,
    table: &mut [u8],
    told: &mut usize,
    fault_slot: &mut usize,
) -> u8
    ensures { (result, fault_slot.new, told.new, table.new)
        ≡ exported_list_from (geometry blocks units start open_code system_disk granule_sectors) image.now number table.old }
{
    genie::genie_list_from(
        image,
        blocks,
        units,
        start,
        open_code,
        system_disk,
        granule_sectors,
        number,
        table,
        told,
        fault_slot,
    )
}

#[unsafe(no_mangle)]
pub extern "C" fn genie_count(
    image: &[u8],
    blocks: usize,
    units: usize,
    start: usize,
    open_code: u16,
    system_disk: bool,
    granule_sectors: usize,
    files: &mut usize,
    free: &mut usize,
    fault_slot: &mut usize,
) -> u8
    ensures { (result, fault_slot.new, files.new, free.new)
        ≡ exported_count (geometry blocks units start open_code system_disk granule_sectors) image.now }
{
    genie::genie_count(
        image,
        blocks,
        units,
        start,
        open_code,
        system_disk,
        granule_sectors,
        files,
        free,
        fault_slot,
    )
}

#[unsafe(no_mangle)]
pub extern "C" fn genie_free(
    image: &[u8],
    blocks: usize,
    units: usize,
    start: usize,
    open_code: u16,
    system_disk: bool,
    granule_sectors: usize,
    free: &mut usize,
    longest: &mut usize,
) -> u8
    ensures { (result, free.new, longest.new)
        ≡ exported_free (geometry blocks units start open_code system_disk granule_sectors) image.now }
{
    genie::genie_free(
        image,
        blocks,
        units,
        start,
        open_code,
        system_disk,
        granule_sectors,
        free,
        longest,
    )
}

#[unsafe(no_mangle)]
pub extern "C" fn genie_compare(
    first: &[u8],
    blocks: usize,
    units: usize,
    start: usize,
    open_code: u16,
    system_disk: bool,
    granule_sectors: usize,
    second: &[u8],
    blocks2: usize,
    units2: usize,
    start2: usize,
    open_code2: u16,
    system_disk2: bool,
    granule_sectors2: usize,
    number: usize,
    name: &mut [u8],
    image: &mut usize,
    kind: &mut usize,
    position: &mut usize,
    flags: &mut usize,
    fault_slot: &mut usize,
) -> u8
    ensures { (result, fault_slot.new, image.new, kind.new, position.new, flags.new, name.new)
        ≡ exported_compare (geometry blocks units start open_code system_disk granule_sectors) first.now
        (geometry blocks2 units2 start2 open_code2 system_disk2 granule_sectors2) second.now number name.old }
{
    genie::genie_compare(
        first,
        blocks,
        units,
        start,
        open_code,
        system_disk,
        granule_sectors,
        second,
        blocks2,
        units2,
        start2,
        open_code2,
        system_disk2,
        granule_sectors2,
        number,
        name,
        image,
        kind,
        position,
        flags,
        fault_slot,
    )
}

#[unsafe(no_mangle)]
pub extern "C" fn genie_load_record(
    image: &[u8],
    blocks: usize,
    units: usize,
    start: usize,
    open_code: u16,
    system_disk: bool,
    granule_sectors: usize,
    handle: &mut [u8],
    buffer: &mut [u8],
    kind: &mut usize,
    address: &mut usize,
    count: &mut usize,
    position: &mut usize,
    fault_slot: &mut usize,
) -> u8
    ensures { (
      result,
      fault_slot.new,
      kind.new,
      address.new,
      count.new,
      position.new,
      handle.new,
      buffer.new,
    )
        ≡ exported_load_record (geometry blocks units start open_code system_disk granule_sectors) image.now handle.old
        buffer.old }
{
    genie::genie_load_record(
        image,
        blocks,
        units,
        start,
        open_code,
        system_disk,
        granule_sectors,
        handle,
        buffer,
        kind,
        address,
        count,
        position,
        fault_slot,
    )
}

// Two drives (02 §9): the image and geometry of drive 0, then of drive 1. A handle has 20 bytes; fewer are taken for zeros.
#[unsafe(no_mangle)]
pub extern "C" fn genie_drives_look_up(
    image0: &[u8],
    blocks0: usize,
    units0: usize,
    start0: usize,
    open_code0: u16,
    system_disk0: bool,
    granule_sectors0: usize,
    image1: &[u8],
    blocks1: usize,
    units1: usize,
    start1: usize,
    open_code1: u16,
    system_disk1: bool,
    granule_sectors1: usize,
    numbered: bool,
    drive: usize,
    name: &[u8],
    found_drive: &mut usize,
    slot: &mut usize,
    compared: &mut usize,
    place: &mut usize,
    fault_drive: &mut usize,
    fault_slot: &mut usize,
) -> u8
    ensures { (
      result,
      fault_drive.new,
      fault_slot.new,
      place.new,
      found_drive.new,
      slot.new,
      compared.new,
    )
        ≡ drives_look_up (pair (geometry blocks0 units0 start0 open_code0 system_disk0 granule_sectors0) image0.now
        (geometry blocks1 units1 start1 open_code1 system_disk1 granule_sectors1) image1.now)
        numbered drive name.now }
{
    genie::genie_drives_look_up(
        image0,
        blocks0,
        units0,
        start0,
        open_code0,
        system_disk0,
        granule_sectors0,
        image1,
        blocks1,
        units1,
        start1,
        open_code1,
        system_disk1,
        granule_sectors1,
        numbered,
        drive,
        name,
        found_drive,
        slot,
        compared,
        place,
        fault_drive,
        fault_slot,
    )
}

#[unsafe(no_mangle)]
pub extern "C" fn genie_drives_open(
    image0: &[u8],
    blocks0: usize,
    units0: usize,
    start0: usize,
    open_code0: u16,
    system_disk0: bool,
    granule_sectors0: usize,
    image1: &[u8],
    blocks1: usize,
    units1: usize,
    start1: usize,
    open_code1: u16,
    system_disk1: bool,
    granule_sectors1: usize,
    numbered: bool,
    drive: usize,
    name: &[u8],
    length: usize,
    checking: bool,
    code: u16,
    handle: &mut [u8],
    place: &mut usize,
    fault_drive: &mut usize,
    fault_slot: &mut usize,
) -> u8
    ensures { (result, fault_drive.new, fault_slot.new, place.new, handle.new)
        ≡ drives_open (pair (geometry blocks0 units0 start0 open_code0 system_disk0 granule_sectors0) image0.now
        (geometry blocks1 units1 start1 open_code1 system_disk1 granule_sectors1) image1.now)
        numbered drive name.now length checking code handle.old }
{
    genie::genie_drives_open(
        image0,
        blocks0,
        units0,
        start0,
        open_code0,
        system_disk0,
        granule_sectors0,
        image1,
        blocks1,
        units1,
        start1,
        open_code1,
        system_disk1,
        granule_sectors1,
        numbered,
        drive,
        name,
        length,
        checking,
        code,
        handle,
        place,
        fault_drive,
        fault_slot,
    )
}

#[unsafe(no_mangle)]
pub extern "C" fn genie_drives_create(
    image0: &mut [u8],
    blocks0: usize,
    units0: usize,
    start0: usize,
    open_code0: u16,
    system_disk0: bool,
    granule_sectors0: usize,
    image1: &mut [u8],
    blocks1: usize,
    units1: usize,
    start1: usize,
    open_code1: u16,
    system_disk1: bool,
    granule_sectors1: usize,
    numbered: bool,
    drive: usize,
    name: &[u8],
    day: usize,
    month: usize,
    year: usize,
    length: usize,
    main_code: u16,
    worker_code: u16,
    checking: bool,
    old: &mut usize,
    handle: &mut [u8],
    place: &mut usize,
    fault_drive: &mut usize,
    fault_slot: &mut usize,
) -> u8
    ensures { (
      result,
      fault_drive.new,
      fault_slot.new,
      place.new,
      old.new,
      handle.new,
      image0.new,
      image1.new,
    )
        ≡ drives_create (pair (geometry blocks0 units0 start0 open_code0 system_disk0 granule_sectors0) image0.old
        (geometry blocks1 units1 start1 open_code1 system_disk1 granule_sectors1) image1.old)
        numbered drive name.now (new_file day month year length main_code worker_code) checking handle.old }
{
    genie::genie_drives_create(
        image0,
        blocks0,
        units0,
        start0,
        open_code0,
        system_disk0,
        granule_sectors0,
        image1,
        blocks1,
        units1,
        start1,
        open_code1,
        system_disk1,
        granule_sectors1,
        numbered,
        drive,
        name,
        day,
        month,
        year,
        length,
        main_code,
        worker_code,
        checking,
        old,
        handle,
        place,
        fault_drive,
        fault_slot,
    )
}

#[unsafe(no_mangle)]
pub extern "C" fn genie_drives_read_record(
    image0: &[u8],
    blocks0: usize,
    units0: usize,
    start0: usize,
    open_code0: u16,
    system_disk0: bool,
    granule_sectors0: usize,
    image1: &[u8],
    blocks1: usize,
    units1: usize,
    start1: usize,
    open_code1: u16,
    system_disk1: bool,
    granule_sectors1: usize,
    handle: &mut [u8],
    buffer: &mut [u8],
    fault_drive: &mut usize,
    fault_slot: &mut usize,
) -> u8
    ensures { (result, fault_drive.new, fault_slot.new, handle.new, buffer.new)
        ≡ drives_read_record (pair (geometry blocks0 units0 start0 open_code0 system_disk0 granule_sectors0) image0.now
        (geometry blocks1 units1 start1 open_code1 system_disk1 granule_sectors1) image1.now)
        handle.old buffer.old }
{
    genie::genie_drives_read_record(
        image0,
        blocks0,
        units0,
        start0,
        open_code0,
        system_disk0,
        granule_sectors0,
        image1,
        blocks1,
        units1,
        start1,
        open_code1,
        system_disk1,
        granule_sectors1,
        handle,
        buffer,
        fault_drive,
        fault_slot,
    )
}

#[unsafe(no_mangle)]
pub extern "C" fn genie_drives_read_sector(
    image0: &[u8],
    blocks0: usize,
    units0: usize,
    start0: usize,
    open_code0: u16,
    system_disk0: bool,
    granule_sectors0: usize,
    image1: &[u8],
    blocks1: usize,
    units1: usize,
    start1: usize,
    open_code1: u16,
    system_disk1: bool,
    granule_sectors1: usize,
    handle: &[u8],
    k: usize,
    drive: &mut usize,
    from: &mut usize,
    to: &mut usize,
    fault_drive: &mut usize,
    fault_slot: &mut usize,
) -> u8
    ensures { (result, fault_drive.new, fault_slot.new, drive.new, from.new, to.new)
        ≡ drives_read_sector (pair (geometry blocks0 units0 start0 open_code0 system_disk0 granule_sectors0) image0.now
        (geometry blocks1 units1 start1 open_code1 system_disk1 granule_sectors1) image1.now)
        handle.now k }
{
    genie::genie_drives_read_sector(
        image0,
        blocks0,
        units0,
        start0,
        open_code0,
        system_disk0,
        granule_sectors0,
        image1,
        blocks1,
        units1,
        start1,
        open_code1,
        system_disk1,
        granule_sectors1,
        handle,
        k,
        drive,
        from,
        to,
        fault_drive,
        fault_slot,
    )
}

#[unsafe(no_mangle)]
pub extern "C" fn genie_drives_write_record(
    image0: &mut [u8],
    blocks0: usize,
    units0: usize,
    start0: usize,
    open_code0: u16,
    system_disk0: bool,
    granule_sectors0: usize,
    image1: &mut [u8],
    blocks1: usize,
    units1: usize,
    start1: usize,
    open_code1: u16,
    system_disk1: bool,
    granule_sectors1: usize,
    handle: &mut [u8],
    sequential: bool,
    buffer: &[u8],
    fault_drive: &mut usize,
    fault_slot: &mut usize,
) -> u8
    ensures { (result, fault_drive.new, fault_slot.new, handle.new, image0.new, image1.new)
        ≡ drives_write_record (pair (geometry blocks0 units0 start0 open_code0 system_disk0 granule_sectors0) image0.old
        (geometry blocks1 units1 start1 open_code1 system_disk1 granule_sectors1) image1.old)
        handle.old sequential buffer.now }
{
    genie::genie_drives_write_record(
        image0,
        blocks0,
        units0,
        start0,
        open_code0,
        system_disk0,
        granule_sectors0,
        image1,
        blocks1,
        units1,
        start1,
        open_code1,
        system_disk1,
        granule_sectors1,
        handle,
        sequential,
        buffer,
        fault_drive,
        fault_slot,
    )
}

#[unsafe(no_mangle)]
pub extern "C" fn genie_drives_allot(
    image0: &mut [u8],
    blocks0: usize,
    units0: usize,
    start0: usize,
    open_code0: u16,
    system_disk0: bool,
    granule_sectors0: usize,
    image1: &mut [u8],
    blocks1: usize,
    units1: usize,
    start1: usize,
    open_code1: u16,
    system_disk1: bool,
    granule_sectors1: usize,
    handle: &[u8],
    k: usize,
    fault_drive: &mut usize,
    fault_slot: &mut usize,
) -> u8
    ensures { (result, fault_drive.new, fault_slot.new, image0.new, image1.new)
        ≡ drives_allot (pair (geometry blocks0 units0 start0 open_code0 system_disk0 granule_sectors0) image0.old
        (geometry blocks1 units1 start1 open_code1 system_disk1 granule_sectors1) image1.old)
        handle.now k }
{
    genie::genie_drives_allot(
        image0,
        blocks0,
        units0,
        start0,
        open_code0,
        system_disk0,
        granule_sectors0,
        image1,
        blocks1,
        units1,
        start1,
        open_code1,
        system_disk1,
        granule_sectors1,
        handle,
        k,
        fault_drive,
        fault_slot,
    )
}

#[unsafe(no_mangle)]
pub extern "C" fn genie_drives_trim(
    image0: &mut [u8],
    blocks0: usize,
    units0: usize,
    start0: usize,
    open_code0: u16,
    system_disk0: bool,
    granule_sectors0: usize,
    image1: &mut [u8],
    blocks1: usize,
    units1: usize,
    start1: usize,
    open_code1: u16,
    system_disk1: bool,
    granule_sectors1: usize,
    handle: &[u8],
    fault_drive: &mut usize,
    fault_slot: &mut usize,
) -> u8
    ensures { (result, fault_drive.new, fault_slot.new, image0.new, image1.new)
        ≡ drives_trim (pair (geometry blocks0 units0 start0 open_code0 system_disk0 granule_sectors0) image0.old
        (geometry blocks1 units1 start1 open_code1 system_disk1 granule_sectors1) image1.old)
        handle.now }
{
    genie::genie_drives_trim(
        image0,
        blocks0,
        units0,
        start0,
        open_code0,
        system_disk0,
        granule_sectors0,
        image1,
        blocks1,
        units1,
        start1,
        open_code1,
        system_disk1,
        granule_sectors1,
        handle,
        fault_drive,
        fault_slot,
    )
}

#[unsafe(no_mangle)]
pub extern "C" fn genie_drives_kill(
    image0: &mut [u8],
    blocks0: usize,
    units0: usize,
    start0: usize,
    open_code0: u16,
    system_disk0: bool,
    granule_sectors0: usize,
    image1: &mut [u8],
    blocks1: usize,
    units1: usize,
    start1: usize,
    open_code1: u16,
    system_disk1: bool,
    granule_sectors1: usize,
    handle: &[u8],
    fault_drive: &mut usize,
    fault_slot: &mut usize,
) -> u8
    ensures { (result, fault_drive.new, fault_slot.new, image0.new, image1.new)
        ≡ drives_kill (pair (geometry blocks0 units0 start0 open_code0 system_disk0 granule_sectors0) image0.old
        (geometry blocks1 units1 start1 open_code1 system_disk1 granule_sectors1) image1.old)
        handle.now }
{
    genie::genie_drives_kill(
        image0,
        blocks0,
        units0,
        start0,
        open_code0,
        system_disk0,
        granule_sectors0,
        image1,
        blocks1,
        units1,
        start1,
        open_code1,
        system_disk1,
        granule_sectors1,
        handle,
        fault_drive,
        fault_slot,
    )
}
