// Trimming, as Rust's `str::trim` (mode 0) or as XML Schema's `collapse` does it at the ends (mode 1).
ghost use Rattle.std.specs.Prelude.{◌≡◌};
ghost use Rattle.characters.specs.Trim.{trimmed, trim_of};
ghost use Rattle.characters.specs.TrimWalk.{widened, graphic};

use crate::utf8::char_at;
use crate::white_space::is_white;
use text::Span;

// The place of what is kept of the characters passed, after one more, from i up to end, which is white
// or not.
#[tactic(auto, unfolding(crate::specs::TrimWalk::widened))]
fn widen(kept: Option<Span>, white: bool, i: usize, end: usize) -> Option<Span>
    ensures { result ≡ widened kept white i end }
{
    if white {
        return kept;
    }
    match kept {
        Some(k) => Some(Span {
            start: k.start,
            end,
        }),
        None => Some(Span { start: i, end }),
    }
}

// One pass over the characters; the first that is none leaves s as it is. By hand, for the library's
// characters are those of a text that a pass before has shown to be UTF-8. With an iterator of this crate's
// own `overflow_add` is open, for of what is left only the list is known: each character would have to carry
// its place and its end, which is no plainer.
fn trim_each(s: &[u8], mode: u32) -> Span
    ensures { result ≡ trimmed mode s.now }
{
    let mut kept = None;
    let mut i = 0;
    while i < s.len() {
        let Some((c, n)) = char_at(s, i) else {
            return Span {
                start: 0,
                end: s.len(),
            };
        };
        let end = i + n;
        kept = widen(kept, is_white(mode, c), i, end);
        i = end;
    }
    kept.unwrap_or(Span { start: 0, end: 0 })
}

// Whether b is a character of ASCII that no mode trims.
#[tactic(auto, unfolding(crate::specs::TrimWalk::graphic, text::specs::Range::within))]
fn is_graphic(b: u8) -> bool
    ensures { result ≡ graphic b }
{
    matches!(b, 0x21..=0x7F)
}

// The place of what is left of s after trimming in a mode, and 0, 0 where nothing is. Bytes that
// are not UTF-8 stay as they are. Where neither end can be trimmed nothing else is looked at.
pub fn trim(s: &[u8], mode: u32) -> Span
    ensures { result ≡ trimmed mode s.now }
{
    let n = s.len();
    if n > 0 && is_graphic(s[0]) && is_graphic(s[n - 1]) {
        return Span { start: 0, end: n };
    }
    trim_each(s, mode)
}

// What is left of s after trimming in a mode.
pub fn trimmed_text(s: &[u8], mode: u32) -> &[u8]
    ensures { result.now ≡ trim_of mode s.now }
{
    let t = trim(s, mode);
    &s[t.start..t.end]
}
