// Each exported function, called: what it promises of a host's bytes is what demands 1 and 2 ask (specs/Host.antt). Nothing else is done here, and nothing
// calls these functions. They stand here so that the promise is proved from the export's own contract: where that says less, the proof here fails.
#![tactic(auto)]

ghost use Rattle.std.specs.Prelude.{◌≡◌, [], ◌∷◌, ◌+◌};
ghost use Rattle.meaning.specs.Amount.{one_record, whole_buffer};
ghost use Rattle.meaning.specs.Read.{read_sector};
ghost use Rattle.drives.specs.Pair.{pair};
ghost use Rattle.promises_exports.specs.Host.{left, HostPromise};
ghost use Rattle.promises_exports.specs.Host.{checks, looks_up, opens, creates, reads, reads_sector, writes, allots, trims, kills, lists, counts, measures};
ghost use Rattle.promises_exports.specs.Others.{NameChecked, BroughtBackBy, PlayedBack, ListedFrom, ComparedWith, RecordLoaded};
ghost use Rattle.promises_exports.specs.Others.{LookedUpOn, OpenedOn, CreatedOn, ReadOn, SectorReadOn, WrittenOn, AllottedOn, TrimmedOn, KilledOn};
ghost use Rattle.promises_exports.specs.SectorLent.{SectorLent};

use meaning::{Geometry, Handle, NewFile};

pub fn check(image: &[u8], g: Geometry, fault_slot: &mut usize) -> u8
    ensures { HostPromise g image.now checks
        (left result image.now [] [] (fault_slot.new ∷ [])) }
{
    genie::genie_check(
        image,
        g.blocks,
        g.units,
        g.start,
        g.noPassword,
        g.system,
        g.granule,
        fault_slot,
    )
}

pub fn look_up(
    image: &[u8],
    g: Geometry,
    name: &[u8],
    slot: &mut usize,
    compared: &mut usize,
    place: &mut usize,
    fault_slot: &mut usize,
) -> u8
    ensures { HostPromise g image.now (looks_up name.now)
        (left result image.now [] [] (fault_slot.new ∷ place.new ∷ slot.new ∷ compared.new ∷ [])) }
{
    genie::genie_look_up(
        image,
        g.blocks,
        g.units,
        g.start,
        g.noPassword,
        g.system,
        g.granule,
        name,
        slot,
        compared,
        place,
        fault_slot,
    )
}

pub fn open(
    image: &[u8],
    g: Geometry,
    name: &[u8],
    length: usize,
    checking: bool,
    code: u16,
    handle: &mut [u8],
    place: &mut usize,
    fault_slot: &mut usize,
) -> u8
    ensures { HostPromise g image.now (opens name.now length checking code handle.old)
        (left result image.now handle.new [] (fault_slot.new ∷ place.new ∷ [])) }
{
    genie::genie_open(
        image,
        g.blocks,
        g.units,
        g.start,
        g.noPassword,
        g.system,
        g.granule,
        name,
        length,
        checking,
        code,
        handle,
        place,
        fault_slot,
    )
}

pub fn create(
    image: &mut [u8],
    g: Geometry,
    name: &[u8],
    f: NewFile,
    checking: bool,
    old: &mut usize,
    handle: &mut [u8],
    place: &mut usize,
    fault_slot: &mut usize,
) -> u8
    ensures { HostPromise g image.old (creates name.now f checking handle.old)
        (left result image.new handle.new [] (fault_slot.new ∷ place.new ∷ old.new ∷ [])) }
{
    genie::genie_create(
        image,
        g.blocks,
        g.units,
        g.start,
        g.noPassword,
        g.system,
        g.granule,
        name,
        f.day,
        f.month,
        f.year,
        f.len,
        f.main,
        f.worker,
        checking,
        old,
        handle,
        place,
        fault_slot,
    )
}

pub fn read_record(
    image: &[u8],
    g: Geometry,
    handle: &mut [u8],
    buffer: &mut [u8],
    fault_slot: &mut usize,
) -> u8
    ensures { HostPromise g image.now (reads one_record handle.old buffer.old)
        (left result image.now handle.new buffer.new (fault_slot.new ∷ [])) }
{
    genie::genie_read_record(
        image,
        g.blocks,
        g.units,
        g.start,
        g.noPassword,
        g.system,
        g.granule,
        handle,
        buffer,
        fault_slot,
    )
}

pub fn read_bytes(
    image: &[u8],
    g: Geometry,
    handle: &mut [u8],
    buffer: &mut [u8],
    fault_slot: &mut usize,
) -> u8
    ensures { HostPromise g image.now (reads whole_buffer handle.old buffer.old)
        (left result image.now handle.new buffer.new (fault_slot.new ∷ [])) }
{
    genie::genie_read_bytes(
        image,
        g.blocks,
        g.units,
        g.start,
        g.noPassword,
        g.system,
        g.granule,
        handle,
        buffer,
        fault_slot,
    )
}

pub fn read_sector(
    image: &[u8],
    g: Geometry,
    handle: &[u8],
    k: usize,
    from: &mut usize,
    to: &mut usize,
    fault_slot: &mut usize,
) -> u8
    ensures { HostPromise g image.now (reads_sector handle.now k)
        (left result image.now handle.now [] (fault_slot.new ∷ from.new ∷ to.new ∷ [])) }
{
    genie::genie_read_sector(
        image,
        g.blocks,
        g.units,
        g.start,
        g.noPassword,
        g.system,
        g.granule,
        handle,
        k,
        from,
        to,
        fault_slot,
    )
}

pub fn write_record(
    image: &mut [u8],
    g: Geometry,
    handle: &mut [u8],
    sequential: bool,
    buffer: &[u8],
    fault_slot: &mut usize,
) -> u8
    ensures { HostPromise g image.old (writes one_record sequential handle.old buffer.now)
        (left result image.new handle.new buffer.now (fault_slot.new ∷ [])) }
{
    genie::genie_write_record(
        image,
        g.blocks,
        g.units,
        g.start,
        g.noPassword,
        g.system,
        g.granule,
        handle,
        sequential,
        buffer,
        fault_slot,
    )
}

pub fn write_bytes(
    image: &mut [u8],
    g: Geometry,
    handle: &mut [u8],
    sequential: bool,
    buffer: &[u8],
    fault_slot: &mut usize,
) -> u8
    ensures { HostPromise g image.old (writes whole_buffer sequential handle.old buffer.now)
        (left result image.new handle.new buffer.now (fault_slot.new ∷ [])) }
{
    genie::genie_write_bytes(
        image,
        g.blocks,
        g.units,
        g.start,
        g.noPassword,
        g.system,
        g.granule,
        handle,
        sequential,
        buffer,
        fault_slot,
    )
}

pub fn allot(image: &mut [u8], g: Geometry, handle: &[u8], k: usize, fault_slot: &mut usize) -> u8
    ensures { HostPromise g image.old (allots handle.now k)
        (left result image.new handle.now [] (fault_slot.new ∷ [])) }
{
    genie::genie_allot(
        image,
        g.blocks,
        g.units,
        g.start,
        g.noPassword,
        g.system,
        g.granule,
        handle,
        k,
        fault_slot,
    )
}

pub fn trim(image: &mut [u8], g: Geometry, handle: &[u8], fault_slot: &mut usize) -> u8
    ensures { HostPromise g image.old (trims handle.now)
        (left result image.new handle.now [] (fault_slot.new ∷ [])) }
{
    genie::genie_trim(
        image,
        g.blocks,
        g.units,
        g.start,
        g.noPassword,
        g.system,
        g.granule,
        handle,
        fault_slot,
    )
}

pub fn kill(image: &mut [u8], g: Geometry, handle: &[u8], fault_slot: &mut usize) -> u8
    ensures { HostPromise g image.old (kills handle.now)
        (left result image.new handle.now [] (fault_slot.new ∷ [])) }
{
    genie::genie_kill(
        image,
        g.blocks,
        g.units,
        g.start,
        g.noPassword,
        g.system,
        g.granule,
        handle,
        fault_slot,
    )
}

pub fn list(
    image: &[u8],
    g: Geometry,
    number: usize,
    name: &mut [u8],
    size: &mut usize,
    granules: &mut usize,
    more: &mut usize,
    fault_slot: &mut usize,
) -> u8
    ensures { HostPromise g image.now (lists number name.old)
        (left result image.now [] name.new (fault_slot.new ∷ size.new ∷ granules.new ∷ more.new ∷ [])) }
{
    genie::genie_list(
        image,
        g.blocks,
        g.units,
        g.start,
        g.noPassword,
        g.system,
        g.granule,
        number,
        name,
        size,
        granules,
        more,
        fault_slot,
    )
}

pub fn count(
    image: &[u8],
    g: Geometry,
    files: &mut usize,
    free: &mut usize,
    fault_slot: &mut usize,
) -> u8
    ensures { HostPromise g image.now counts
        (left result image.now [] [] (fault_slot.new ∷ files.new ∷ free.new ∷ [])) }
{
    genie::genie_count(
        image,
        g.blocks,
        g.units,
        g.start,
        g.noPassword,
        g.system,
        g.granule,
        files,
        free,
        fault_slot,
    )
}

pub fn free(image: &[u8], g: Geometry, free: &mut usize, longest: &mut usize) -> u8
    ensures { HostPromise g image.now measures
        (left result image.now [] [] (free.new ∷ longest.new ∷ [])) }
{
    genie::genie_free(
        image,
        g.blocks,
        g.units,
        g.start,
        g.noPassword,
        g.system,
        g.granule,
        free,
        longest,
    )
}

// The calls that are none of demand 2's thirteen (specs/Others.antt).
pub fn check_name(name: &[u8], folded: &mut [u8], place: &mut usize) -> u8
    ensures { NameChecked name.now folded.old (result, place.new, folded.new) }
{
    genie::genie_name(name, folded, place)
}

pub fn bring_back(
    image: &mut [u8],
    g: Geometry,
    slot: usize,
    slots: &mut usize,
    granules: &mut usize,
    fault_slot: &mut usize,
) -> u8
    ensures { BroughtBackBy g image.old slot (result, fault_slot.new, slots.new, granules.new, image.new) }
{
    genie::genie_bring_back(
        image,
        g.blocks,
        g.units,
        g.start,
        g.noPassword,
        g.system,
        g.granule,
        slot,
        slots,
        granules,
        fault_slot,
    )
}

pub fn play(
    image: &mut [u8],
    g: Geometry,
    trace: &[u8],
    results: &mut [u8],
    calls: &mut usize,
    byte: &mut usize,
    bit: &mut usize,
    fault_slot: &mut usize,
) -> u8
    ensures { PlayedBack g image.old trace.now results.old
        (result, fault_slot.new, calls.new, byte.new, bit.new, results.new, image.new) }
{
    genie::genie_play(
        image,
        g.blocks,
        g.units,
        g.start,
        g.noPassword,
        g.system,
        g.granule,
        trace,
        results,
        calls,
        byte,
        bit,
        fault_slot,
    )
}

pub fn list_from(
    image: &[u8],
    g: Geometry,
    number: usize,
    table: &mut [u8],
    told: &mut usize,
    fault_slot: &mut usize,
) -> u8
    ensures { ListedFrom g image.now number table.old (result, fault_slot.new, told.new, table.new) }
{
    genie::genie_list_from(
        image,
        g.blocks,
        g.units,
        g.start,
        g.noPassword,
        g.system,
        g.granule,
        number,
        table,
        told,
        fault_slot,
    )
}

pub fn compare(
    first: &[u8],
    g: Geometry,
    second: &[u8],
    h: Geometry,
    number: usize,
    name: &mut [u8],
    image: &mut usize,
    kind: &mut usize,
    position: &mut usize,
    flags: &mut usize,
    fault_slot: &mut usize,
) -> u8
    ensures { ComparedWith g first.now h second.now number name.old
        (result, fault_slot.new, image.new, kind.new, position.new, flags.new, name.new) }
{
    genie::genie_compare(
        first,
        g.blocks,
        g.units,
        g.start,
        g.noPassword,
        g.system,
        g.granule,
        second,
        h.blocks,
        h.units,
        h.start,
        h.noPassword,
        h.system,
        h.granule,
        number,
        name,
        image,
        kind,
        position,
        flags,
        fault_slot,
    )
}

pub fn load_record(
    image: &[u8],
    g: Geometry,
    handle: &mut [u8],
    buffer: &mut [u8],
    kind: &mut usize,
    address: &mut usize,
    count: &mut usize,
    position: &mut usize,
    fault_slot: &mut usize,
) -> u8
    ensures { RecordLoaded g image.now handle.old buffer.old (
      result,
      fault_slot.new,
      kind.new,
      address.new,
      count.new,
      position.new,
      handle.new,
      buffer.new,
    ) }
{
    genie::genie_load_record(
        image,
        g.blocks,
        g.units,
        g.start,
        g.noPassword,
        g.system,
        g.granule,
        handle,
        buffer,
        kind,
        address,
        count,
        position,
        fault_slot,
    )
}

// Over two drives (02 §9).
pub fn drives_look_up(
    image0: &[u8],
    g0: Geometry,
    image1: &[u8],
    g1: Geometry,
    numbered: bool,
    drive: usize,
    name: &[u8],
    found_drive: &mut usize,
    slot: &mut usize,
    compared: &mut usize,
    place: &mut usize,
    fault_drive: &mut usize,
    fault_slot: &mut usize,
) -> u8
    ensures { LookedUpOn (pair g0 image0.now g1 image1.now) numbered drive name.now
        (result, fault_drive.new, fault_slot.new, place.new, found_drive.new, slot.new, compared.new) }
{
    genie::genie_drives_look_up(
        image0,
        g0.blocks,
        g0.units,
        g0.start,
        g0.noPassword,
        g0.system,
        g0.granule,
        image1,
        g1.blocks,
        g1.units,
        g1.start,
        g1.noPassword,
        g1.system,
        g1.granule,
        numbered,
        drive,
        name,
        found_drive,
        slot,
        compared,
        place,
        fault_drive,
        fault_slot,
    )
}

pub fn drives_open(
    image0: &[u8],
    g0: Geometry,
    image1: &[u8],
    g1: Geometry,
    numbered: bool,
    drive: usize,
    name: &[u8],
    length: usize,
    checking: bool,
    code: u16,
    handle: &mut [u8],
    place: &mut usize,
    fault_drive: &mut usize,
    fault_slot: &mut usize,
) -> u8
    ensures { OpenedOn (pair g0 image0.now g1 image1.now)
        numbered drive name.now length checking code handle.old
        (result, fault_drive.new, fault_slot.new, place.new, handle.new) }
{
    genie::genie_drives_open(
        image0,
        g0.blocks,
        g0.units,
        g0.start,
        g0.noPassword,
        g0.system,
        g0.granule,
        image1,
        g1.blocks,
        g1.units,
        g1.start,
        g1.noPassword,
        g1.system,
        g1.granule,
        numbered,
        drive,
        name,
        length,
        checking,
        code,
        handle,
        place,
        fault_drive,
        fault_slot,
    )
}

pub fn drives_create(
    image0: &mut [u8],
    g0: Geometry,
    image1: &mut [u8],
    g1: Geometry,
    numbered: bool,
    drive: usize,
    name: &[u8],
    f: NewFile,
    checking: bool,
    old: &mut usize,
    handle: &mut [u8],
    place: &mut usize,
    fault_drive: &mut usize,
    fault_slot: &mut usize,
) -> u8
    ensures { CreatedOn (pair g0 image0.old g1 image1.old) numbered drive name.now f checking handle.old (
      result,
      fault_drive.new,
      fault_slot.new,
      place.new,
      old.new,
      handle.new,
      image0.new,
      image1.new,
    ) }
{
    genie::genie_drives_create(
        image0,
        g0.blocks,
        g0.units,
        g0.start,
        g0.noPassword,
        g0.system,
        g0.granule,
        image1,
        g1.blocks,
        g1.units,
        g1.start,
        g1.noPassword,
        g1.system,
        g1.granule,
        numbered,
        drive,
        name,
        f.day,
        f.month,
        f.year,
        f.len,
        f.main,
        f.worker,
        checking,
        old,
        handle,
        place,
        fault_drive,
        fault_slot,
    )
}

pub fn drives_read_record(
    image0: &[u8],
    g0: Geometry,
    image1: &[u8],
    g1: Geometry,
    handle: &mut [u8],
    buffer: &mut [u8],
    fault_drive: &mut usize,
    fault_slot: &mut usize,
) -> u8
    ensures { ReadOn (pair g0 image0.now g1 image1.now) handle.old buffer.old
        (result, fault_drive.new, fault_slot.new, handle.new, buffer.new) }
{
    genie::genie_drives_read_record(
        image0,
        g0.blocks,
        g0.units,
        g0.start,
        g0.noPassword,
        g0.system,
        g0.granule,
        image1,
        g1.blocks,
        g1.units,
        g1.start,
        g1.noPassword,
        g1.system,
        g1.granule,
        handle,
        buffer,
        fault_drive,
        fault_slot,
    )
}

pub fn drives_read_sector(
    image0: &[u8],
    g0: Geometry,
    image1: &[u8],
    g1: Geometry,
    handle: &[u8],
    k: usize,
    drive: &mut usize,
    from: &mut usize,
    to: &mut usize,
    fault_drive: &mut usize,
    fault_slot: &mut usize,
) -> u8
    ensures { SectorReadOn (pair g0 image0.now g1 image1.now) handle.now k
        (result, fault_drive.new, fault_slot.new, drive.new, from.new, to.new) }
{
    genie::genie_drives_read_sector(
        image0,
        g0.blocks,
        g0.units,
        g0.start,
        g0.noPassword,
        g0.system,
        g0.granule,
        image1,
        g1.blocks,
        g1.units,
        g1.start,
        g1.noPassword,
        g1.system,
        g1.granule,
        handle,
        k,
        drive,
        from,
        to,
        fault_drive,
        fault_slot,
    )
}

pub fn drives_write_record(
    image0: &mut [u8],
    g0: Geometry,
    image1: &mut [u8],
    g1: Geometry,
    handle: &mut [u8],
    sequential: bool,
    buffer: &[u8],
    fault_drive: &mut usize,
    fault_slot: &mut usize,
) -> u8
    ensures { WrittenOn (pair g0 image0.old g1 image1.old) handle.old sequential buffer.now
        (result, fault_drive.new, fault_slot.new, handle.new, image0.new, image1.new) }
{
    genie::genie_drives_write_record(
        image0,
        g0.blocks,
        g0.units,
        g0.start,
        g0.noPassword,
        g0.system,
        g0.granule,
        image1,
        g1.blocks,
        g1.units,
        g1.start,
        g1.noPassword,
        g1.system,
        g1.granule,
        handle,
        sequential,
        buffer,
        fault_drive,
        fault_slot,
    )
}

pub fn drives_allot(
    image0: &mut [u8],
    g0: Geometry,
    image1: &mut [u8],
    g1: Geometry,
    handle: &[u8],
    k: usize,
    fault_drive: &mut usize,
    fault_slot: &mut usize,
) -> u8
    ensures { AllottedOn (pair g0 image0.old g1 image1.old) handle.now k
        (result, fault_drive.new, fault_slot.new, image0.new, image1.new) }
{
    genie::genie_drives_allot(
        image0,
        g0.blocks,
        g0.units,
        g0.start,
        g0.noPassword,
        g0.system,
        g0.granule,
        image1,
        g1.blocks,
        g1.units,
        g1.start,
        g1.noPassword,
        g1.system,
        g1.granule,
        handle,
        k,
        fault_drive,
        fault_slot,
    )
}

pub fn drives_trim(
    image0: &mut [u8],
    g0: Geometry,
    image1: &mut [u8],
    g1: Geometry,
    handle: &[u8],
    fault_drive: &mut usize,
    fault_slot: &mut usize,
) -> u8
    ensures { TrimmedOn (pair g0 image0.old g1 image1.old) handle.now
        (result, fault_drive.new, fault_slot.new, image0.new, image1.new) }
{
    genie::genie_drives_trim(
        image0,
        g0.blocks,
        g0.units,
        g0.start,
        g0.noPassword,
        g0.system,
        g0.granule,
        image1,
        g1.blocks,
        g1.units,
        g1.start,
        g1.noPassword,
        g1.system,
        g1.granule,
        handle,
        fault_drive,
        fault_slot,
    )
}

pub fn drives_kill(
    image0: &mut [u8],
    g0: Geometry,
    image1: &mut [u8],
    g1: Geometry,
    handle: &[u8],
    fault_drive: &mut usize,
    fault_slot: &mut usize,
) -> u8
    ensures { KilledOn (pair g0 image0.old g1 image1.old) handle.now
        (result, fault_drive.new, fault_slot.new, image0.new, image1.new) }
{
    genie::genie_drives_kill(
        image0,
        g0.blocks,
        g0.units,
        g0.start,
        g0.noPassword,
        g0.system,
        g0.granule,
        image1,
        g1.blocks,
        g1.units,
        g1.start,
        g1.noPassword,
        g1.system,
        g1.granule,
        handle,
        fault_drive,
        fault_slot,
    )
}

// Read sector of `calls`: the part of the lent image itself, at its place there. No export hands it on, so nothing else uses its contract.
pub fn sector<'a>(
    image: &'a [u8],
    g: Geometry,
    h: Handle,
    k: usize,
    number: &mut u8,
    at: &mut usize,
) -> &'a [u8]
    ensures what { SectorLent g image.now h k (number.new, at.new, result.now) }
    ensures place_at { result.ref_ptr ≡ (image.entry.ref_ptr.0, image.entry.ref_ptr.1 + (read_sector g image.now h k).from) }
{
    calls::read_sector(image, g, h, k, number, at)
}
