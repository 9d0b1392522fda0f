// Signed numbers where only their size has a meaning.
ghost use Rattle.std.specs.Prelude.{◌≡◌, nat_abs};
ghost use Rattle.decimals.specs.Decimal as decimal;

// The size of a signed number: a call of the library, with the sense that it has here.
pub fn size(z: i64) -> u64
    ensures { result ≡ nat_abs z }
{
    z.unsigned_abs()
}

// A signed number where none below 0 has a meaning: such a one counts as 0, which is the sense of this call
// of the library.
#[tactic(auto, unfolding(crate::specs::Decimal::natural))]
pub fn natural(z: i64) -> usize
    ensures { result ≡ decimal.natural z }
{
    usize::try_from(z).unwrap_or(0)
}
