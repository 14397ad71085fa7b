// The hash of a name.
#![tactic(auto)]

ghost use Rattle.std.specs.Prelude.{◌≡◌, eqb, length};
ghost use Rattle.meaning.specs.Lists.{through};
ghost use Rattle.meaning.specs.Names.{rotate, mix, hash};
ghost use Rattle.layout.specs.Room.{Below};
ghost use Rattle.name_hash.specs.Short.{four_blanks};

// A byte turned left by one.
fn turned(x: u8) -> u8
    ensures { result ≡ rotate x }
{
    x.rotate_left(1)
}

// Bytes that are no name, one after the other.
fn all_mixed(bytes: &[u8]) -> u8
    ensures { result ≡ through mix 0 bytes.now }
{
    let mut h = 0;
    for b in bytes {
        h = turned(h ^ *b);
    }
    h
}

// Whether the second half of a name is blank: a short name, of four bytes at the most.
fn four_blanks(name: &[u8]) -> bool
    requires { length name.now ≡ 11 }
    ensures { result ≡ four_blanks name.now }
{
    name[4] == 0x20 && name[5] == 0x20 && name[6] == 0x20 && name[7] == 0x20
}

// The eleven bytes of a name. Eight turns leave a byte as it was, so the three of type turn as the first three of name do, and go in with them.
// Four blanks turn a value four times and bring in C3H; with the type's three turns that is seven turns, or one to the right, and 1EH.
fn name_mixed(name: &[u8]) -> u8
    requires { length name.now ≡ 11 }
    ensures { result ≡ through mix 0 name.now }
{
    let h = turned(name[0] ^ name[8]);
    let h = turned(h ^ name[1] ^ name[9]);
    let h = turned(h ^ name[2] ^ name[10]);
    let h = turned(h ^ name[3]);
    if four_blanks(name) {
        return h.rotate_right(1) ^ 0x1e;
    }
    let h = turned(h ^ name[4]);
    let h = turned(h ^ name[5]);
    let h = turned(h ^ name[6]);
    let h = turned(h ^ name[7]);
    h.rotate_left(3)
}

// What the hash is before a final 0 becomes 1.
fn mixed(name: &[u8]) -> u8
    ensures { result ≡ through mix 0 name.now }
{
    if name.len() == 11 {
        name_mixed(name)
    } else {
        all_mixed(name)
    }
}

// The hash of a name.
pub fn hash(name: &[u8]) -> usize
    ensures { Below 256 (hash name.now) result }
{
    let h = mixed(name);
    if h == 0 { 1 } else { usize::from(h) }
}

// Whether h is the hash of a name. The check asks this of every file: mostly the bytes give h as it is, and the final 0 need not be looked for.
pub fn hashes_to(name: &[u8], h: usize) -> bool
    ensures { result ≡ eqb h (hash name.now) }
{
    let m = usize::from(mixed(name));
    if m == h { h != 0 } else { m == 0 && h == 1 }
}
