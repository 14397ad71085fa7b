// A handle of two drives as the 20 bytes that a host holds (02 §9): the 19 of a handle, then the drive.
#![tactic(auto)]

ghost use Rattle.std.specs.Prelude.{◌≡◌};
ghost use Rattle.drives_codec.specs.Codec.{handle_of, stored, length_for};

use drives::DriveHandle;

pub const HANDLE_BYTES: usize = 20;

// The handle that the first 20 bytes hold; zeros where there are fewer.
pub fn handle_of(b: &[u8]) -> DriveHandle
    ensures { result ≡ handle_of b.now }
{
    if b.len() < HANDLE_BYTES {
        return drives_told::handle_on(0, look_up::no_handle());
    }
    drives_told::handle_on(usize::from(b[19]), genie_codec::handle_of(b))
}

// The handle goes to the first 20 bytes; fewer stay as they stood.
pub fn put_handle(b: &mut [u8], h: DriveHandle)
    ensures { b.new ≡ stored b.old h }
{
    if b.len() < HANDLE_BYTES {
        return;
    }
    genie_codec::put_handle(b, h.handle);
    b[19] = (h.drive % 256) as u8;
}

// The record length that open and create are given: 0, which is out of range, where the outgoing handle has no room.
pub fn length_for(b: &[u8], len: usize) -> usize
    ensures { result ≡ length_for b.now len }
{
    if b.len() < HANDLE_BYTES { 0 } else { len }
}
