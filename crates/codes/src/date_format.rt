// The format attribute of a date.
ghost use Rattle.std.specs.Prelude.{◌≡◌};
ghost use Rattle.codes.specs.DateFormat.{date_format};

// Whether a format attribute is 102, the only format of a date that EN 16931 permits.
#[tactic(auto, unfolding(crate::specs::DateFormat::date_format, text::specs::Utf8::bytes, text::specs::Utf8::encode))]
pub fn is_date_format(s: &[u8]) -> bool
    ensures { result ≡ date_format s.now }
{
    text::same(s, b"102")
}
