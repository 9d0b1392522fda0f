// Classes of characters: [2] Char, [3] S, [4] NameStartChar and [4a] NameChar of XML 1.0, fifth edition.
ghost use Rattle.std.specs.Prelude.{◌≡◌};
ghost use Rattle.markup.specs.Classes.{is_char, is_space, name_start, name_char};

// Whether c may stand in a document.
#[tactic(auto, unfolding(crate::specs::Classes::is_char, characters::specs::WhiteSpace::in_ranges, text::specs::Range::within))]
pub fn is_char(c: u32) -> bool
    ensures { result ≡ is_char c }
{
    matches!(c, 0x9..=0xA | 0xD | 0x20..=0xD7FF | 0xE000..=0xFFFD | 0x10000..=0x10FFFF)
}

// Whether c is white space.
#[tactic(auto, unfolding(crate::specs::Classes::is_space, characters::specs::WhiteSpace::in_ranges, text::specs::Range::within))]
pub fn is_space(c: u32) -> bool
    ensures { result ≡ is_space c }
{
    matches!(c, 0x20 | 0x9..=0xA | 0xD)
}

// Whether a name may start with c.
#[tactic(auto, unfolding(crate::specs::Classes::name_start, characters::specs::WhiteSpace::in_ranges, text::specs::Range::within))]
pub fn is_name_start(c: u32) -> bool
    ensures { result ≡ name_start c }
{
    matches!(
        c,
        0x3A | 0x41..=0x5A
            | 0x5F
            | 0x61..=0x7A
            | 0xC0..=0xD6
            | 0xD8..=0xF6
            | 0xF8..=0x2FF
            | 0x370..=0x37D
            | 0x37F..=0x1FFF
            | 0x200C..=0x200D
            | 0x2070..=0x218F
            | 0x2C00..=0x2FEF
            | 0x3001..=0xD7FF
            | 0xF900..=0xFDCF
            | 0xFDF0..=0xFFFD
            | 0x10000..=0xEFFFF
    )
}

// Whether c may stand in a name.
#[tactic(auto, unfolding(crate::specs::Classes::name_char, characters::specs::WhiteSpace::in_ranges, text::specs::Range::within))]
pub fn is_name_char(c: u32) -> bool
    ensures { result ≡ name_char c }
{
    is_name_start(c)
        || matches!(c, 0x2D..=0x2E | 0x30..=0x39 | 0xB7 | 0x300..=0x36F | 0x203F..=0x2040)
}
