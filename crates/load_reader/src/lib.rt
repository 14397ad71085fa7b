// The reader of a program file (02 §12): "a reader that keeps hold of the lent image and its place in the file".
#![tactic(auto)]

ghost use Rattle.std.specs.Prelude.{◌≡◌};
ghost use Rattle.load_reader.specs.Held.{held, asked, moved_by};

use load::Loaded;
use meaning::{Geometry, Handle};

// The image that is lent, and the handle, whose position is the place; the geometry beside them.
#[derive(Clone, Copy)]
pub struct Reader<'a> {
    pub image: &'a [u8],
    pub geometry: Geometry,
    pub handle: Handle,
}

// A reader of the file that the handle names, from the handle's position on.
pub fn hold<'a>(image: &'a [u8], g: Geometry, h: Handle) -> Reader<'a>
    ensures { result ≡ held image.entry g h }
{
    Reader {
        image,
        geometry: g,
        handle: h,
    }
}

// The next record, its bytes to the start of the buffer; the reader's place moves as the handle's does.
pub fn next<'s, 'a, 'b>(r: &'s mut Reader<'a>, buffer: &'b mut [u8]) -> Loaded
    ensures { ((result, buffer.new) ≡ asked r.old buffer.old) × (r.new ≡ moved_by r.old result) }
{
    let told = calls::load_record(r.image, r.geometry, r.handle, buffer);
    r.handle = told.handle;
    told
}

// The image that was lent.
pub fn image_of<'a>(r: Reader<'a>) -> &'a [u8]
    ensures { result ≡ r.entry.image }
{
    r.image
}

// The handle as the reader has it: its position is the place.
pub fn handle_of<'a>(r: Reader<'a>) -> Handle
    ensures { result ≡ r.entry.handle }
{
    r.handle
}
