// The text of the listing, put into a lent buffer. Each function answers the place after what it has put: no heap, so no String, and no
// write!, which puts from the start of what it is lent and may refuse.
#![tactic(auto)]

ghost use Rattle.std.specs.Prelude.{◌≡◌, ◌==◌, [], ◌∷◌, ◌+◌, ◌<◌, ◌≤◌, length};
ghost use Rattle.std.specs.List.{list_all};
ghost use Rattle.meaning.specs.Listing.{digits, decimal, stripped, slashed, name_text, line};
ghost use Rattle.listing_text.specs.Put.{Put, files_line, free_line};

// A number of 64 bits has at most 20 digits.
pub const NUMBER_BYTES: usize = 20;

// Name, slash and type, two numbers, a blank before each, a line feed.
pub const LINE_BYTES: usize = 8 + 1 + 3 + 1 + NUMBER_BYTES + 1 + NUMBER_BYTES + 1;

// One byte.
pub fn put_byte(to: &mut [u8], at: usize, b: u8) -> usize
    requires { at < length to.old }
    ensures { Put 1 to.old at (b ∷ []) to.new result }
{
    to[at] = b;
    at + 1
}

// The digit of a number below ten.
fn digit(n: usize) -> u8
    requires { n < 10 }
    ensures { result ≡ 0x30 + n }
{
    0x30 + n as u8
}

// The digits of n, at most so many: those of the tenth part first, then the last.
fn put_digits(to: &mut [u8], at: usize, n: usize, most: usize) -> usize
    requires { at + most ≤ length to.old }
    ensures { Put most to.old at (digits most n) to.new result }
{
    if most == 0 {
        return at;
    }
    if n < 10 {
        return put_byte(to, at, digit(n));
    }
    let last = put_digits(to, at, n / 10, most - 1);
    put_byte(to, last, digit(n % 10))
}

// A number in decimal digits.
pub fn put_decimal(to: &mut [u8], at: usize, n: usize) -> usize
    requires { at + 20 ≤ length to.old }
    ensures { Put 20 to.old at (decimal n) to.new result }
{
    put_digits(to, at, n, NUMBER_BYTES)
}

// The byte, unless it is a blank.
fn put_kept(to: &mut [u8], at: usize, b: u8) -> usize
    requires { at < length to.old }
    ensures { Put 1 to.old at (stripped (b ∷ [])) to.new result }
{
    if b == 0x20 { at } else { put_byte(to, at, b) }
}

// A name or a type without the blanks that pad it.
fn put_stripped(to: &mut [u8], at: usize, part: &[u8]) -> usize
    requires { at + length part.now ≤ length to.old }
    ensures { Put (length part.now) to.old at (stripped part.now) to.new result }
{
    let mut e = at;
    for b in part {
        e = put_kept(to, e, *b);
    }
    e
}

// Whether nothing but blanks is there.
fn blank(part: &[u8]) -> bool
    ensures { result ≡ list_all (λ x. x == 0x20) part.now }
{
    part.iter().all(|b| *b == 0x20)
}

// A slash and the type, if there is one.
fn put_type(to: &mut [u8], at: usize, part: &[u8]) -> usize
    requires { (at + 4 ≤ length to.old) × (length part.now ≡ 3) }
    ensures { Put 4 to.old at (slashed (stripped part.now)) to.new result }
{
    if blank(part) {
        return at;
    }
    let e = put_byte(to, at, 0x2f);
    put_stripped(to, e, part)
}

// Name, a slash and the type if there is one.
pub fn put_name(to: &mut [u8], at: usize, name: &[u8]) -> usize
    requires { (at + 12 ≤ length to.old) × (length name.now ≡ 11) }
    ensures { Put 12 to.old at (name_text name.now) to.new result }
{
    let e = put_stripped(to, at, &name[..8]);
    put_type(to, e, &name[8..])
}

// A blank and a number.
fn put_column(to: &mut [u8], at: usize, n: usize) -> usize
    requires { at + 21 ≤ length to.old }
    ensures { Put 21 to.old at (0x20 ∷ decimal n) to.new result }
{
    let e = put_byte(to, at, 0x20);
    put_decimal(to, e, n)
}

// A file's line: name, size, granules owned.
pub fn put_line(to: &mut [u8], at: usize, name: &[u8], size: usize, granules: usize) -> usize
    requires { (at + 55 ≤ length to.old) × (length name.now ≡ 11) }
    ensures { Put 55 to.old at (line name.now size granules) to.new result }
{
    let name_end = put_name(to, at, name);
    let size_end = put_column(to, name_end, size);
    let end = put_column(to, size_end, granules);
    put_byte(to, end, 0x0a)
}

// The bytes of a word.
fn put_word(to: &mut [u8], at: usize, word: &[u8]) -> usize
    requires { at + length word.now ≤ length to.old }
    ensures { Put (length word.now) to.old at word.now to.new result }
{
    copy::put_part(to, at, word, 0, word.len());
    at + word.len()
}

// The listing's first line: the number of files.
pub fn put_files(to: &mut [u8], at: usize, n: usize) -> usize
    requires { at + 55 ≤ length to.old }
    ensures { Put 55 to.old at (files_line n) to.new result }
{
    let word_end = put_word(to, at, b"FILES");
    let end = put_column(to, word_end, n);
    put_byte(to, end, 0x0a)
}

// The listing's last line: the number of free granules.
pub fn put_free(to: &mut [u8], at: usize, n: usize) -> usize
    requires { at + 55 ≤ length to.old }
    ensures { Put 55 to.old at (free_line n) to.new result }
{
    let word_end = put_word(to, at, b"FREE");
    let end = put_column(to, word_end, n);
    put_byte(to, end, 0x0a)
}
