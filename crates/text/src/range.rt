// A range of numbers.
ghost use Rattle.std.specs.Prelude.{◌≡◌};
ghost use Rattle.text.specs.Range.{within};

// Whether c is one of the numbers from first to last.
#[tactic(auto, unfolding(crate::specs::Range::within))]
pub fn is_within(c: u32, first: u32, last: u32) -> bool
    ensures { result ≡ within c first last }
{
    first <= c && c <= last
}
