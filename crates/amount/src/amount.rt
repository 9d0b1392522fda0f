// `InvoiceAmount`: a monetary amount in hundredths (EN 16931-1, 6.5.2).
ghost use Rattle.std.specs.Prelude.{◌≡◌, pos};
ghost use Rattle.amount.specs.Amount.{amount_of, parsed_amount};
ghost use Rattle.amount.specs.Answers.{amount_answer};
ghost use Rattle.amount.specs.Walk.{ranged, padded, finish_of};

use crate::decimal::{Walk, push_digit, walk_on};
use crate::signed::{negated, to_i64};

// An amount's hundredths. The currency is not part of it.
#[derive(Clone, Copy, Debug, PartialEq, Eq, PartialOrd, Ord)]
pub struct InvoiceAmount(i64);

// Why a text is no amount.
#[derive(Clone, Copy, Debug, PartialEq, Eq)]
pub enum AmountError {
    Empty,
    Malformed,
    TooManyDecimals,
    OutOfRange,
}

// The amount of a size in hundredths, where it is in range.
fn in_range(negative: bool, size: u64) -> Result<InvoiceAmount, AmountError>
    ensures { result ≡ ranged negative size }
{
    if negative {
        if size <= 9223372036854775808 {
            return Ok(InvoiceAmount(negated(size)));
        }
        return Err(AmountError::OutOfRange);
    }
    if size < 9223372036854775808 {
        return Ok(InvoiceAmount(to_i64(size)));
    }
    Err(AmountError::OutOfRange)
}

// The amount of a size with so many decimals: what is missing to hundredths is filled up by zeros.
#[tactic(auto, using(crate::proofs::Walks::zero_digit), unfolding(crate::specs::Walk::padded))]
fn pad(negative: bool, size: u64, decimals: u32) -> Result<InvoiceAmount, AmountError>
    ensures { result ≡ padded negative size decimals }
{
    match decimals {
        0 => in_range(negative, push_digit(push_digit(size, b'0'), b'0')),
        1 => in_range(negative, push_digit(size, b'0')),
        2 => in_range(negative, size),
        _ => Err(AmountError::TooManyDecimals),
    }
}

// The end of a walk, as an amount.
fn finish(w: Walk) -> Result<InvoiceAmount, AmountError>
    ensures { result ≡ finish_of w }
{
    match w {
        Walk::Nothing => Err(AmountError::Empty),
        _ => match w.decimal() {
            None => Err(AmountError::Malformed),
            Some(d) => pad(d.negative, d.size, d.decimals),
        },
    }
}

impl InvoiceAmount {
    // No amount at all: 0.
    pub fn zero() -> InvoiceAmount
        ensures { result.0 ≡ pos 0 }
    {
        InvoiceAmount(0)
    }

    // The amount that s writes as it stands, for a text that is trimmed already.
    pub fn parse_trimmed(s: &[u8]) -> Result<InvoiceAmount, AmountError>
        ensures { amount_answer result ≡ amount_of s.now }
    {
        finish(walk_on(s, Walk::Nothing))
    }

    // The amount that s, trimmed in a mode, writes.
    pub fn parse(s: &[u8], mode: u32) -> Result<InvoiceAmount, AmountError>
        ensures { amount_answer result ≡ parsed_amount mode s.now }
    {
        InvoiceAmount::parse_trimmed(characters::trimmed_text(s, mode))
    }

    // The hundredths, for the writer of numbers.
    pub fn to_minor_units(self) -> i64
        ensures { result ≡ self.0 }
    {
        self.0
    }
}
