// Places in a text.
ghost use Rattle.std.specs.Prelude.{◌≡◌};
ghost use Rattle.text.specs.Span.{part_of, clipped};

// The bytes from start up to end.
#[derive(Clone, Copy)]
pub struct Span {
    pub start: usize,
    pub end: usize,
}

// At most len bytes of s from start on: those that s has.
pub fn clip(s: &[u8], start: usize, len: usize) -> &[u8]
    ensures { result.now ≡ clipped s.now start len }
{
    let rest = s.get(start..).unwrap_or(&[]);
    rest.get(..len).unwrap_or(rest)
}

// The len bytes of s from start on, and no bytes where they are not all in s.
pub fn part(s: &[u8], start: usize, len: usize) -> &[u8]
    ensures { result.now ≡ part_of s.now start len }
{
    let there = clip(s, start, len);
    if there.len() < len {
        return &[];
    }
    there
}
