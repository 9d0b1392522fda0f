// Dates CCYYMMDD in the Gregorian calendar.
//
// Every function takes all bytes and all numbers. No public function has a `requires`, and the
// crate assumes nothing of its own.
#![tactic(auto)]

ghost use Rattle.std.specs.Prelude.{◌≡◌, cond};
ghost use Rattle.date.specs.Date.{leap, days, is_day, numbered, date_of, parsed_date};
ghost use Rattle.date.specs.Answers.{date_answer};

// Why a text is no date: it is not CCYYMMDD, or there is no such day.
#[derive(Clone, Copy, Debug, PartialEq, Eq)]
pub enum DateError {
    Malformed,
    NotACalendarDay,
}

// Whether the year has a 29 February.
#[tactic(auto, unfolding(crate::specs::Date::leap))]
fn is_leap(year: u32) -> bool
    ensures { result ≡ leap year }
{
    year % 4 == 0 && (year % 100 != 0 || year % 400 == 0)
}

// The length of February, which alone depends on the year.
fn february(year: u32) -> u32
    ensures { result ≡ cond (leap year) 29 28 }
{
    if is_leap(year) { 29 } else { 28 }
}

// The length of a month.
fn days_in_month(year: u32, month: u32) -> u32
    ensures { result ≡ days year month }
{
    match month {
        2 => february(year),
        4 | 6 | 9 | 11 => 30,
        _ => 31,
    }
}

// Whether the calendar has the day.
#[tactic(auto, unfolding(crate::specs::Date::is_day))]
fn is_day(year: u32, month: u32, day: u32) -> bool
    ensures { result ≡ is_day year month day }
{
    text::is_within(month, 1, 12) && text::is_within(day, 1, days_in_month(year, month))
}

// The date whose number CCYYMMDD is n.
fn from_number(n: u32) -> Result<u32, DateError>
    ensures { date_answer result ≡ numbered n }
{
    if is_day(n / 10000, n / 100 % 100, n % 100) {
        return Ok(n);
    }
    Err(DateError::NotACalendarDay)
}

// The date that the whole of t writes, for a text that is trimmed already: its number CCYYMMDD, parted.
pub fn parse_trimmed(t: &[u8]) -> Result<u32, DateError>
    ensures { date_answer result ≡ date_of t.now }
{
    if t.len() != 8 {
        return Err(DateError::Malformed);
    }
    match text::numeral_of(t, 8) {
        Some(n) => from_number(n),
        None => Err(DateError::Malformed),
    }
}

// The date that s writes after it is trimmed in a mode.
// The same call as of amounts and percentages, over errors of its own.
pub fn parse(s: &[u8], mode: u32) -> Result<u32, DateError>
    ensures { date_answer result ≡ parsed_date mode s.now }
{
    parse_trimmed(characters::trimmed_text(s, mode))
}
