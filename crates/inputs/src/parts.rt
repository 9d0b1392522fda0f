// The parts of an input line, which a space or the line feed ends.
ghost use Rattle.std.specs.Prelude.{◌≡◌, drop};
ghost use Rattle.std.specs.List.{position_or_len};
ghost use Rattle.text.specs.Span.{cut};
ghost use Rattle.inputs.specs.Places.{space_at, field_at, closing};
ghost use Rattle.inputs.specs.Spelling.{mark};

use text::Span;

// The bytes of s at a place: those that s has.
#[tactic(auto, unfolding(text::specs::Span::cut, text::specs::Span::clipped))]
pub fn bytes_at(s: &[u8], place: Span) -> &[u8]
    ensures { result.now ≡ cut place s.now }
{
    text::clip(s, place.start, place.end.saturating_sub(place.start))
}

// The bytes of s from i on. `fields::numbers_from` is its like for numbers: each is one call of the library,
// and a generic one would be no plainer.
fn rest(s: &[u8], i: usize) -> &[u8]
    ensures { result.now ≡ drop i s.now }
{
    s.get(i..).unwrap_or(&[])
}

// Whether b is a space or a line feed.
#[tactic(auto, unfolding(crate::specs::Spelling::mark))]
fn is_mark(b: u8) -> bool
    ensures { result ≡ mark b }
{
    b == b' ' || b == b'\n'
}

// How many bytes of s stand before the first space or line feed.
fn length_of_word(s: &[u8]) -> usize
    ensures { result ≡ position_or_len mark s.now }
{
    s.iter().take_while(|b| !is_mark(**b)).count()
}

// The place of the field of s that begins at start.
pub(crate) fn field_at(s: &[u8], start: usize) -> Span
    ensures { result ≡ field_at s.now start }
{
    let end = start + length_of_word(rest(s, start));
    Span { start, end }
}

// Whether a space stands at i.
#[tactic(auto, unfolding(crate::specs::Places::space_at))]
pub(crate) fn is_space(s: &[u8], i: usize) -> bool
    ensures { result ≡ space_at s.now i }
{
    s.get(i).copied() == Some(b' ')
}

// Whether nothing of s, or nothing but a line feed, stands from i on.
#[tactic(auto, unfolding(crate::specs::Places::closing))]
pub(crate) fn is_closing(s: &[u8], i: usize) -> bool
    ensures { result ≡ closing (drop i s.now) }
{
    match rest(s, i) {
        [] => true,
        [b] => *b == b'\n',
        _ => false,
    }
}
