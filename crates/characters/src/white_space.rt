// White space: Unicode's White_Space in mode 0, XML Schema's four characters in mode 1 (and any other number).
ghost use Rattle.std.specs.Prelude.{◌≡◌};
ghost use Rattle.characters.specs.WhiteSpace.{white_space, blank, white};

// Whether c has Unicode's property White_Space. The letters, digits and signs of ASCII go first,
// for most characters are one of them.
#[tactic(auto, using(crate::proofs::WhiteSpaces::not_space), unfolding(crate::specs::WhiteSpace::white_space, crate::specs::WhiteSpace::white_spaces, crate::specs::WhiteSpace::in_ranges, text::specs::Range::within))]
fn is_white_space(c: u32) -> bool
    ensures { result ≡ white_space c }
{
    !matches!(c, 0x21..=0x84)
        && matches!(
            c,
            0x9..=0xD
                | 0x20
                | 0x85
                | 0xA0
                | 0x1680
                | 0x2000..=0x200A
                | 0x2028
                | 0x2029
                | 0x202F
                | 0x205F
                | 0x3000
        )
}

// Whether c is a tab, a line feed, a carriage return or a space.
#[tactic(auto, unfolding(crate::specs::WhiteSpace::blank))]
fn is_blank(c: u32) -> bool
    ensures { result ≡ blank c }
{
    matches!(c, 0x9 | 0xA | 0xD | 0x20)
}

// Whether the mode trims the code point c.
#[tactic(auto, unfolding(crate::specs::WhiteSpace::white))]
pub(crate) fn is_white(mode: u32, c: u32) -> bool
    ensures { result ≡ white mode c }
{
    if mode == 0 {
        is_white_space(c)
    } else {
        is_blank(c)
    }
}
