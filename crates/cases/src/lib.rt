// The parts of a test case as it stands in a line of text: numbers, and texts with escapes and a
// hole. In a text printable ASCII stands for itself, \HH for one byte, and \* for the hole. And the
// reading of the input that has the lines.
//
// Every function takes all bytes. No public function has a `requires`, and the crate assumes nothing
// of its own.
#![tactic(auto)]

mod listing;
mod places;

ghost use Rattle.std.specs.Prelude.{◌≡◌, ◌+◌, min, get_or, set};
ghost use Rattle.std.specs.Iterator.{YieldsFirst, item_count};
ghost use Rattle.cases.specs.Symbols.{digit_of, escaped, symbol, symbols, size, weight, byte_of, holes_of, Filled};

pub use inputs::read_full;
pub use listing::numbers;
pub use places::find;

// What stands at the front of a text: a byte and how many bytes write it, the hole, or neither.
#[derive(Clone, Copy)]
enum Symbol {
    Byte(u8, usize),
    Hole,
    Bad,
}

impl Symbol {
    // How many bytes write it.
    fn size(self) -> usize
        ensures { result ≡ size self }
    {
        match self {
            Symbol::Byte(_, n) => n,
            Symbol::Hole => 2,
            Symbol::Bad => 1,
        }
    }

    // Its byte, and the given one for a hole.
    fn byte(self, hole: u8) -> u8
        ensures { result ≡ byte_of hole self }
    {
        match self {
            Symbol::Byte(b, _) => b,
            Symbol::Hole => hole,
            Symbol::Bad => 0,
        }
    }

    // A hole counts as one, and what is no symbol as two.
    fn weight(self) -> u32
        ensures { result ≡ weight self }
    {
        match self {
            Symbol::Byte(_, _) => 0,
            Symbol::Hole => 1,
            Symbol::Bad => 2,
        }
    }
}

// The value of a hex digit.
#[tactic(auto, unfolding(crate::specs::Symbols::digit_of, crate::specs::Symbols::nibble, text::specs::Range::within))]
fn nibble_of(b: u8) -> Option<u8>
    ensures { result ≡ digit_of b }
{
    match b {
        b'0'..=b'9' => Some(b - b'0'),
        b'a'..=b'f' => Some(b - b'a' + 10),
        b'A'..=b'F' => Some(b - b'A' + 10),
        _ => None,
    }
}

// The byte at i, and past the end 0, which is no digit and in no escape.
// One call of the library, as the like in `characters` over another type.
pub fn byte_at(s: &[u8], i: usize) -> u8
    ensures { result ≡ get_or s.now i 0 }
{
    s.get(i).copied().unwrap_or(0)
}

// What a backslash and two bytes after it write.
#[tactic(auto, using(crate::proofs::Symbols::digit_some, crate::proofs::Symbols::digit_none), unfolding(crate::specs::Symbols::escaped))]
fn escape_of(a: u8, b: u8) -> Symbol
    ensures { result ≡ escaped a b }
{
    if a == b'*' {
        return Symbol::Hole;
    }
    match (nibble_of(a), nibble_of(b)) {
        (Some(high), Some(low)) => Symbol::Byte(high * 16 + low, 3),
        _ => Symbol::Bad,
    }
}

// What stands at the front of s.
#[tactic(auto, unfolding(crate::specs::Symbols::symbol, text::specs::Range::within))]
fn symbol_of(s: &[u8]) -> Symbol
    ensures { result ≡ symbol s.now }
{
    match byte_at(s, 0) {
        b'\\' => escape_of(byte_at(s, 1), byte_at(s, 2)),
        b @ 0x20..=0x7E => Symbol::Byte(b, 1),
        _ => Symbol::Bad,
    }
}

// The symbols of a text, of which these bytes are left.
#[derive(Drop)]
struct SymbolsOf<'a>(&'a [u8]);

impl<'a> Iterator for SymbolsOf<'a> {
    type Item = Symbol;

    ghost next_gives = { YieldsFirst (λ s. symbols 0 s.0.now) };

    ghost remaining = { item_count (λ s. symbols 0 s.0.now) };

    fn next(&mut self) -> Option<Symbol> {
        if self.0.is_empty() {
            return None;
        }
        let x = symbol_of(self.0);
        self.0 = &self.0[x.size()..];
        Some(x)
    }
}

// How many holes a text has, and 2 where it has more or is unfit.
#[tactic(auto, using(crate::proofs::Symbols::holes_first, crate::proofs::Symbols::holes_last))]
pub fn holes(s: &[u8]) -> u32
    ensures { result ≡ holes_of s.now }
{
    let mut n: u32 = 0;
    for x in SymbolsOf(s) {
        n = n.saturating_add(x.weight()).min(2);
    }
    n
}

// Stores a value where there is room for it. With `get_mut` the proof does not close: of a slice after it
// only the length is known.
pub(crate) fn put<T: Copy>(out: &mut [T], i: usize, x: T)
    ensures { out.new ≡ set out.old i x }
{
    if i < out.len() {
        out[i] = x;
    }
}

// Puts the bytes of a text into out, with a byte for the hole, and answers how many there are: the count is
// the answer, for which `enumerate` would go through the text once more.
#[tactic(auto, using(crate::proofs::Symbols::filling_fewer, crate::proofs::Symbols::filling_next, crate::proofs::Symbols::filling_last))]
pub fn fill(s: &[u8], hole: u8, out: &mut [u8]) -> usize
    ensures { Filled hole s.now out.old out.new result }
{
    let mut n = 0;
    for x in SymbolsOf(s) {
        put(out, n, x.byte(hole));
        n += 1;
    }
    n
}
