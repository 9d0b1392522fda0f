// The type boolean of XML Schema.
ghost use Rattle.std.specs.Prelude.{◌≡◌};
ghost use Rattle.codes.specs.Boolean.{boolean_answer, boolean_of};

const LITERALS: [(&[u8], bool); 4] = [
    (b"true", true),
    (b"1", true),
    (b"false", false),
    (b"0", false),
];

// The boolean that s writes. Case matters, and nothing is trimmed.
pub fn parse_boolean(s: &[u8]) -> Option<bool>
    ensures { boolean_answer result ≡ boolean_of s.now }
{
    text::meaning_of(&LITERALS, s)
}
