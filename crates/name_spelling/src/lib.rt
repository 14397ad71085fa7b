// Whether a name is well formed, and what a name that comes in is taken for.
#![tactic(auto)]

ghost use Rattle.std.specs.Prelude.{◌≡◌, true, ◌&&◌, ◌+◌, ◌-◌, ◌≤◌, eqb, length, get_or, take, drop};
ghost use Rattle.std.specs.Prelude.{◌==◌};
ghost use Rattle.std.specs.List.{list_all, prefix_len};
ghost use Rattle.meaning.specs.Lists.{every};
ghost use Rattle.meaning.specs.Names.{letter, padded, well_formed, fold_byte, fold, blanks, good, bad_place};
ghost use Rattle.meaning.specs.Refusal.{place_of};
ghost use Rattle.name_spelling.specs.Plain.{plain};
ghost use Rattle.name_spelling.specs.Hands.{Hands};

use meaning::{Incoming, Refusal};

// told where no byte of a name is bad
pub const NO_PLACE: usize = 11;

// Allowed bytes 30H to 39H and 41H to 5DH. It branches nowhere, so that eight bytes can be looked at together.
fn letter(x: u8) -> bool
    ensures { result ≡ letter x }
{
    ((0x30 <= x) & (x <= 0x39)) | ((0x41 <= x) & (x <= 0x5d))
}

// An allowed byte or 20H.
fn plain(x: u8) -> bool
    ensures { result ≡ plain x }
{
    (x == 0x20) | letter(x)
}

// Whether all bytes are 20H.
fn blank(bytes: &[u8]) -> bool
    ensures { result ≡ list_all (λ x. x == 0x20) bytes.now }
{
    bytes.iter().all(|b| *b == 0x20)
}

// Whether each of the first eight bytes of a name is allowed or 20H. Written out with `&`: an `all` would branch at each byte.
fn eight_plain(name: &[u8]) -> bool
    requires { length name.now ≡ 11 }
    ensures { result ≡ every plain (take 8 name.now) }
{
    plain(name[0])
        & plain(name[1])
        & plain(name[2])
        & plain(name[3])
        & plain(name[4])
        & plain(name[5])
        & plain(name[6])
        & plain(name[7])
}

// Whether the first eight bytes of a name, each of them allowed or 20H, begin with an allowed byte and are padded right with 20H: no allowed
// byte follows a 20H. Bit 7 of each byte of `letters` tells whether that byte is allowed; the bytes after them stand one byte lower in
// `letters / 256`.
fn blanks_last(name: &[u8]) -> bool
    requires { (length name.now ≡ 11) × (every plain (take 8 name.now) ≡ true) }
    ensures { result ≡ (letter (get_or name.now 0 0) && padded (take 8 name.now)) }
{
    let letters = (layout::eight(name, 0) + 0x5f5f5f5f5f5f5f5f) & 0x8080808080808080;
    (letters / 256) | 0x80 | letters == letters
}

// Whether the three bytes of type are padded right with 20H.
fn type_padded(name: &[u8]) -> bool
    requires { length name.now ≡ 11 }
    ensures { result ≡ padded (take 3 (drop 8 name.now)) }
{
    if !letter(name[8]) {
        return blank(&name[8..]);
    }
    if !letter(name[9]) {
        return blank(&name[9..]);
    }
    plain(name[10])
}

// Whether a name is well formed. One that has not 11 bytes is not.
pub fn well_formed(name: &[u8]) -> bool
    ensures { result ≡ well_formed name.now }
{
    name.len() == 11 && eight_plain(name) && blanks_last(name) && type_padded(name)
}

// How many bytes stand before the first that is not allowed.
fn letters(bytes: &[u8]) -> usize
    ensures { (result ≡ prefix_len letter bytes.now) × (result ≤ length bytes.now) }
{
    bytes.iter().take_while(|b| letter(**b)).count()
}

// How many bytes stand before the first that is not 20H.
fn blanks(bytes: &[u8]) -> usize
    ensures { (result ≡ prefix_len (λ x. x == 0x20) bytes.now) × (result ≤ length bytes.now) }
{
    bytes.iter().take_while(|b| **b == 0x20).count()
}

// How many bytes stand before the first that keeps them from being padded right with 20H.
fn good(bytes: &[u8]) -> usize
    ensures { (result ≡ good bytes.now) × (result ≤ length bytes.now) }
{
    let n = letters(bytes);
    n + blanks(&bytes[n..])
}

// The place of the first bad byte of a name.
fn bad_place(name: &[u8]) -> usize
    ensures { result ≡ bad_place name.now }
{
    if name.len() != 11 || !letter(name[0]) {
        return 0;
    }
    let k = good(&name[..8]);
    if k < 8 { k } else { 8 + good(&name[8..]) }
}

// A byte of a name that comes in: 61H to 7DH are taken as 41H to 5DH.
fn fold_byte(x: u8) -> u8
    ensures { result ≡ fold_byte x }
{
    match x {
        0x61..=0x7d => x - 0x20,
        _ => x,
    }
}

// A name of eleven bytes that comes in, folded.
fn fold(name: [u8; 11]) -> [u8; 11]
    ensures { result ≡ fold name }
{
    name.map(fold_byte)
}

// What a name that comes in is taken for: the folded name, or the place of its first bad byte. A well-formed name folds to itself, so only
// another is folded, and only there a bad byte is looked for. Not an Option or a Result: `Incoming` is what the definition gives.
pub fn incoming(name: &[u8]) -> Incoming
    ensures { Hands name.now result }
{
    let none = [0; 11];
    if name.len() != 11 {
        return Incoming {
            place: 0,
            name: none,
        };
    }
    let mut taken = [0; 11];
    taken.copy_from_slice(name);
    if well_formed(name) {
        return Incoming {
            place: NO_PLACE,
            name: taken,
        };
    }
    let folded = fold(taken);
    let place = bad_place(&folded);
    Incoming {
        place,
        name: if place == NO_PLACE { folded } else { none },
    }
}

// The place that a refusal tells of: under 3 alone there is one.
pub fn place_of(c: Refusal) -> usize
    ensures { result ≡ place_of c }
{
    if c.number == 3 { c.at } else { NO_PLACE }
}
