// `Percentage`: a percentage in its own last place (EN 16931-1, 6.5.5).
ghost use Rattle.std.specs.Prelude.{◌≡◌, ◌<◌};
ghost use Rattle.amount.specs.Decimal.{signed};
ghost use Rattle.amount.specs.Percentage.{percentage_of, parsed_percentage};
ghost use Rattle.amount.specs.Answers.{percentage_answer};
ghost use Rattle.amount.specs.Walk.{rated, rate_of};

use crate::decimal::{Decimal, Walk, walk_on};
use crate::signed::{negated, to_i64};

// unscaled / 10^scale per cent.
#[derive(Clone, Copy, Debug, PartialEq, Eq)]
pub struct Percentage {
    unscaled: i64,
    scale: u32,
}

// Why a text is no percentage.
#[derive(Clone, Copy, Debug, PartialEq, Eq)]
pub enum PercentageError {
    Malformed,
    TooPrecise,
}

// A size of at most 18 digits with its sign.
fn with_sign(negative: bool, size: u64) -> i64
    requires { size < 1000000000000000000 }
    ensures { result ≡ signed negative size }
{
    if negative {
        return negated(size);
    }
    to_i64(size)
}

// The percentage that a decimal is, which has 18 digits at most.
fn rated(d: Decimal) -> Result<Percentage, PercentageError>
    ensures { result ≡ rated d.negative d.digits d.size d.decimals }
{
    if 18 < d.digits {
        return Err(PercentageError::TooPrecise);
    }
    if d.size < 1000000000000000000 {
        return Ok(Percentage {
            unscaled: with_sign(d.negative, d.size),
            scale: d.decimals,
        });
    }
    Err(PercentageError::TooPrecise)
}

// The end of a walk, as a percentage.
fn finish(w: Walk) -> Result<Percentage, PercentageError>
    ensures { result ≡ rate_of w }
{
    match w.decimal() {
        None => Err(PercentageError::Malformed),
        Some(d) => rated(d),
    }
}

impl Percentage {
    // The percentage that s writes as it stands, for a text that is trimmed already.
    pub fn parse_trimmed(s: &[u8]) -> Result<Percentage, PercentageError>
        ensures { percentage_answer result ≡ percentage_of s.now }
    {
        finish(walk_on(s, Walk::Nothing))
    }

    // The percentage that s, trimmed in a mode, writes.
    pub fn parse(s: &[u8], mode: u32) -> Result<Percentage, PercentageError>
        ensures { percentage_answer result ≡ parsed_percentage mode s.now }
    {
        Percentage::parse_trimmed(characters::trimmed_text(s, mode))
    }

    // The number without its point, for the writer of numbers.
    pub fn to_unscaled(self) -> i64
        ensures { result ≡ self.unscaled }
    {
        self.unscaled
    }

    // The number of decimals, for the writer of numbers.
    pub fn to_scale(self) -> u32
        ensures { result ≡ self.scale }
    {
        self.scale
    }
}
