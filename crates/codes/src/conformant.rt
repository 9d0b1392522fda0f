// The mark of an extension in a specification identifier (BT-24).
ghost use Rattle.std.specs.Prelude.{◌≡◌, drop};
ghost use Rattle.codes.specs.Conformant.{begins, contains, conformant};

// Whether needle stands in s from i on: eight bytes at a time, for an identifier may be long, and with the
// library's `starts_with` each place takes twice the time.
fn begins_at(s: &[u8], i: usize, needle: &[u8]) -> bool
    ensures { result ≡ begins needle.now (drop i s.now) }
{
    text::same_words(text::clip(s, i, needle.len()), needle)
}

// Whether needle stands anywhere in s. By a `for`: a closure in `any` takes 24 instructions a place for 16.
fn contains(s: &[u8], needle: &[u8]) -> bool
    ensures { result ≡ contains needle.now s.now }
{
    for i in 0..s.len() {
        if begins_at(s, i, needle) {
            return true;
        }
    }
    needle.is_empty()
}

// Whether a specification identifier names a conformant extension.
#[tactic(auto, unfolding(crate::specs::Conformant::conformant, text::specs::Utf8::bytes, text::specs::Utf8::encode))]
pub fn is_conformant(identifier: &[u8]) -> bool
    ensures { result ≡ conformant identifier.now }
{
    contains(identifier, b"#conformant#") || contains(identifier, b":conformant:")
}
