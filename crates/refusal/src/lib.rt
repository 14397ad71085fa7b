// A refusal as a value: why a call is refused; made, handed on, naming an image; the slot that it tells of; and 12 for what is lent too short.
#![tactic(auto)]

ghost use Rattle.std.specs.Prelude.{◌≡◌};
ghost use Rattle.meaning.specs.Refusal.{unplaced, placed, naming, carried, slot_told};
ghost use Rattle.refusal.specs.Short.{short, short_of_two};
ghost use Rattle.refusal.specs.Why.{number};

use meaning::Refusal;

// told where nothing goes with a number
pub const NOWHERE: usize = 256;

// Why a call is refused: what a number of the tables of refusals is given for. (The faults of a disk, 22 to 30, are told by their kinds.)
#[derive(Clone, Copy, PartialEq, Eq)]
pub enum Why {
    // The geometry or the length of the image is not as the rules have it.
    WrongGeometry,
    // The name is not well formed.
    NotWellFormed,
    // There is no file of that name.
    NotFound,
    // The code opens nothing.
    WrongCode,
    // The handle's level, or that the file is a system file, does not allow the call.
    NotAllowed,
    // The handle is stale.
    Stale,
    // There are too few permitted slots.
    TooFewSlots,
    // There are too few free granules.
    TooFewGranules,
    // The read goes past the size, or the sector is none of the file.
    PastSize,
    // More granules are needed than the file has, and it must not grow.
    NoGrowth,
    // A position, a length, a level, a date, a sector or a slot is out of range, or a buffer too short.
    OutOfRange,
    // The trace is malformed.
    BadTrace,
    // There is no room for the results.
    NoRoom,
    // The drive is neither 0 nor 1.
    NoDrive,
    // The slot is in use.
    InUse,
    // Nothing whole stands there that could be brought back.
    NothingWhole,
    // A file of that name is there.
    NameInUse,
    // A granule is taken.
    GranuleTaken,
    // The directory does not have the length that the disk says.
    DirectoryLength,
}

impl Why {
    // The number in the tables.
    pub fn number(self) -> u8
        ensures { result ≡ number self }
    {
        match self {
            Why::WrongGeometry => 1,
            Why::NotWellFormed => 3,
            Why::NotFound => 4,
            Why::WrongCode => 5,
            Why::NotAllowed => 6,
            Why::Stale => 7,
            Why::TooFewSlots => 8,
            Why::TooFewGranules => 9,
            Why::PastSize => 10,
            Why::NoGrowth => 11,
            Why::OutOfRange => 12,
            Why::BadTrace => 14,
            Why::NoRoom => 15,
            Why::NoDrive => 16,
            Why::InUse => 17,
            Why::NothingWhole => 18,
            Why::NameInUse => 19,
            Why::GranuleTaken => 20,
            Why::DirectoryLength => 21,
        }
    }

    // The refusal with nothing beside its number.
    pub fn refusal(self) -> Refusal
        ensures { result ≡ unplaced (number self) }
    {
        unplaced(self.number())
    }

    // The refusal with what goes with it.
    pub fn refusal_at(self, at: usize) -> Refusal
        ensures { result ≡ placed (number self) at }
    {
        placed(self.number(), at)
    }

    // The refusal of a call on a disk whose check answered `checked`.
    pub fn after(self, checked: Refusal) -> Refusal
        ensures { result ≡ carried checked (number self) }
    {
        carried(checked, self.number())
    }
}

// Nothing is refused.
pub fn none() -> Refusal
    ensures { result ≡ unplaced 0 }
{
    unplaced(0)
}

// The same of a call on a disk whose check answered `checked`.
pub fn accepted(checked: Refusal) -> Refusal
    ensures { result ≡ carried checked 0 }
{
    carried(checked, 0)
}

// A number with nothing beside it; 0 for acceptance.
pub fn unplaced(number: u8) -> Refusal
    ensures { result ≡ unplaced number }
{
    Refusal {
        number,
        image: 0,
        at: NOWHERE,
    }
}

// A number with what goes with it.
pub fn placed(number: u8, at: usize) -> Refusal
    ensures { result ≡ placed number at }
{
    Refusal {
        number,
        image: 0,
        at,
    }
}

// The same refusal, naming an image.
pub fn naming(image: u8, c: Refusal) -> Refusal
    ensures { result ≡ naming image c }
{
    Refusal { image, ..c }
}

// The refusal of a call whose number is `number`, on a disk whose check answered `checked`: what the check found is handed on.
pub fn carried(checked: Refusal, number: u8) -> Refusal
    ensures { result ≡ carried checked number }
{
    if number == checked.number {
        return checked;
    }
    unplaced(number)
}

// The slot that a refusal tells of: what goes with 3 is no slot.
pub fn slot_told(c: Refusal) -> usize
    ensures { result ≡ slot_told c }
{
    if c.number == 3 {
        return NOWHERE;
    }
    c.at
}

// 12 for what is lent too short, after 1 and the faults.
pub fn short(checked: Refusal) -> Refusal
    ensures { result ≡ short checked }
{
    if checked.number != 0 {
        return checked;
    }
    Why::OutOfRange.refusal()
}

// The same for compare, after 1 and the faults of both images: 12 names neither.
pub fn short_of_two(checked: Refusal, checked2: Refusal) -> Refusal
    ensures { result ≡ short_of_two checked checked2 }
{
    if checked.number != 0 {
        return naming(1, checked);
    }
    if checked2.number != 0 {
        return naming(2, checked2);
    }
    Why::OutOfRange.refusal()
}
