// UTF-8 (RFC 3629): the character at a place, where characters start, and whether bytes are UTF-8
// throughout.
ghost use Rattle.std.specs.Prelude.{◌≡◌, ◌+◌, ◌*◌, ◌%◌, ◌<◌, length, get_or, drop};
ghost use Rattle.characters.specs.Characters.{is_scalar, tail, boundary, scalar, two, three, four, char_of, front, utf8};
ghost use Rattle.characters.specs.Utf8Walk.{stepwise};

// What stands at the front of bytes: a character's code point and the number of its bytes, or
// nothing where that is no UTF-8.
pub type Char = Option<(u32, usize)>;

// The byte at i, and past the end 0, which continues no character.
// One call of the library and a cast, for the arithmetic on characters.
fn byte_at(s: &[u8], i: usize) -> u32
    ensures { result ≡ get_or s.now i 0 }
{
    u32::from(s.get(i).copied().unwrap_or(0))
}

// Whether c is a character number: no surrogate, and at most 10FFFF.
#[tactic(auto, unfolding(crate::specs::Characters::is_scalar, text::specs::Range::within))]
fn is_scalar(c: u32) -> bool
    ensures { result ≡ is_scalar c }
{
    matches!(c, 0..=0xD7FF | 0xE000..=0x10FFFF)
}

// The character c of n bytes, unless it has a shorter form or is no character number.
#[tactic(auto, unfolding(crate::specs::Characters::scalar))]
fn scalar_of(least: u32, c: u32, n: usize) -> Char
    ensures { result ≡ scalar least c n }
{
    if least <= c && is_scalar(c) {
        return Some((c, n));
    }
    None
}

// Whether b is a continuation byte, 10xxxxxx.
#[tactic(auto, unfolding(crate::specs::Characters::tail, text::specs::Range::within))]
fn is_tail(b: u32) -> bool
    ensures { result ≡ tail b }
{
    matches!(b, 0x80..=0xBF)
}

// Whether no byte at i continues a character, so that a text in UTF-8 can be cut there. Past the end
// none does.
#[tactic(auto, unfolding(crate::specs::Characters::boundary))]
pub fn is_boundary(s: &[u8], i: usize) -> bool
    ensures { result ≡ boundary s.now i }
{
    !is_tail(byte_at(s, i))
}

// The x bits so far, joined with those of a continuation byte.
fn join(x: u32, b: u32) -> u32
    requires { x < 0x10000 }
    ensures { result ≡ x * 64 + b % 64 }
{
    x * 64 + b % 64
}

// 110xxxxx 10xxxxxx
#[tactic(auto, unfolding(crate::specs::Characters::two))]
fn two_of(a: u32, b: u32) -> Char
    ensures { result ≡ two a b }
{
    if is_tail(b) {
        return scalar_of(0x80, join(a % 32, b), 2);
    }
    None
}

// 1110xxxx 10xxxxxx 10xxxxxx
#[tactic(auto, unfolding(crate::specs::Characters::three))]
fn three_of(a: u32, b: u32, c: u32) -> Char
    ensures { result ≡ three a b c }
{
    if is_tail(b) && is_tail(c) {
        return scalar_of(0x800, join(join(a % 16, b), c), 3);
    }
    None
}

// 11110xxx 10xxxxxx 10xxxxxx 10xxxxxx
#[tactic(auto, unfolding(crate::specs::Characters::four))]
fn four_of(a: u32, b: u32, c: u32, d: u32) -> Char
    ensures { result ≡ four a b c d }
{
    if is_tail(b) && is_tail(c) && is_tail(d) {
        return scalar_of(0x10000, join(join(join(a % 8, b), c), d), 4);
    }
    None
}

// The character of a first byte and the three that follow it, of which it takes what it needs.
#[tactic(auto, unfolding(crate::specs::Characters::char_of, text::specs::Range::within))]
fn char_of(a: u32, b: u32, c: u32, d: u32) -> Char
    ensures { result ≡ char_of a b c d }
{
    match a {
        0..=0x7F => Some((a, 1)),
        0xC0..=0xDF => two_of(a, b),
        0xE0..=0xEF => three_of(a, b, c),
        0xF0..=0xF7 => four_of(a, b, c, d),
        _ => None,
    }
}

// The character at the front of s.
#[tactic(auto, unfolding(crate::specs::Characters::front))]
fn char_front(s: &[u8]) -> Char
    ensures { result ≡ front s.now }
{
    char_of(byte_at(s, 0), byte_at(s, 1), byte_at(s, 2), byte_at(s, 3))
}

// The character at i. One of a single byte, as most are, takes no look at those that follow.
pub(crate) fn char_at(s: &[u8], i: usize) -> Char
    requires { i < length s.now }
    ensures { result ≡ front (drop i s.now) }
{
    let a = s[i] as u32;
    if a < 0x80 {
        return Some((a, 1));
    }
    char_front(&s[i..])
}

// The character at any place. Past the end it is 0, of one byte.
pub fn char_from(s: &[u8], i: usize) -> Char
    ensures { result ≡ front (drop i s.now) }
{
    if i < s.len() {
        return char_at(s, i);
    }
    Some((0, 1))
}

// Whether s is UTF-8.
pub fn is_utf8(s: &[u8]) -> bool
    ensures utf8 { result ≡ utf8 s.now }
    ensures steps { result ≡ stepwise s.now }
{
    std::str::from_utf8(s).is_ok()
}
