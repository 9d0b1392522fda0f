// What a row's fields hold, and the signed numbers that stand for it. Only here does an amount or a
// percentage become a number.
ghost use Rattle.std.specs.Prelude.{◌≡◌, ◌+◌};
ghost use Rattle.text.specs.Span.{clipped};
ghost use Rattle.text.specs.Options.{option_of};
ghost use Rattle.report.specs.Encoding.{place_start, place_length, text_start, text_length, unscaled, scale, present, hundredths, or_absent};
ghost use Rattle.report.specs.Values.{place_of, text_of, amount_of, percent_of};

use amount::{InvoiceAmount, Percentage};

// A text's place in the lent text: where the record's text starts, how many bytes were trimmed off
// its front, and the length of what is left. The two are not added, so that a place has no limit
// beyond that of a record's numbers; the methods answer their sum.
#[derive(Clone, Copy)]
pub struct Place {
    start: u32,
    skip: u32,
    len: u32,
}

impl Place {
    // The place of what trimming left of a text from start on: len bytes, behind skip bytes.
    pub fn new(start: u32, skip: u32, len: u32) -> Place
        ensures { place_of result ≡ record { start = start + skip; len = len } }
    {
        Place { start, skip, len }
    }

    // Where it starts, as rows and the view have it: an empty text starts at 0, wherever it was cut.
    #[tactic(auto, unfolding(crate::specs::Encoding::tidy))]
    pub fn start(self) -> i64
        ensures { result ≡ place_start (place_of self) }
    {
        if self.len == 0 {
            return 0;
        }
        i64::from(self.start) + i64::from(self.skip)
    }

    // Its length, as rows and the view have it.
    pub fn length(self) -> i64
        ensures { result ≡ place_length (place_of self) }
    {
        i64::from(self.len)
    }

    // The bytes of the text there.
    pub fn bytes(self, text: &[u8]) -> &[u8]
        ensures { result.now ≡ clipped text.now (place_of self).start (place_of self).len }
    {
        text::clip(
            text,
            self.start as usize + self.skip as usize,
            self.len as usize,
        )
    }
}

// Where a text starts, -1 where it is absent.
pub fn text_start(t: Option<Place>) -> i64
    ensures { result ≡ text_start (text_of t) }
{
    t.map_or(-1, |p| p.start())
}

// Its length, 0 where it is absent.
pub fn text_length(t: Option<Place>) -> i64
    ensures { result ≡ text_length (text_of t) }
{
    t.map_or(0, |p| p.length())
}

// 1 for an amount, 0 where there is none.
pub fn amount_present(a: Option<InvoiceAmount>) -> i64
    ensures { result ≡ present (amount_of a) }
{
    i64::from(a.is_some())
}

// An amount's hundredths, 0 where there is none.
pub fn amount_hundredths(a: Option<InvoiceAmount>) -> i64
    ensures { result ≡ hundredths (amount_of a) }
{
    a.map_or(0, |a| a.to_minor_units())
}

// A percentage's number without its point, 0 where there is none.
pub(crate) fn percent_unscaled(q: Option<Percentage>) -> i64
    ensures { result ≡ unscaled (percent_of q) }
{
    q.map_or(0, |q| q.to_unscaled())
}

// Its decimals, -1 where there is none.
pub(crate) fn percent_scale(q: Option<Percentage>) -> i64
    ensures { result ≡ scale (percent_of q) }
{
    q.map_or(-1, |q| i64::from(q.to_scale()))
}

// A number, as a date, a code or an index, -1 where it is absent.
pub fn or_absent(n: Option<u32>) -> i64
    ensures { result ≡ or_absent (option_of n) }
{
    n.map_or(-1, |n| i64::from(n))
}
