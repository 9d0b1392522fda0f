// One walk over the bytes of a decimal: grammar, digits, decimals and size together, one byte after the
// other. Its state has a fixed size, and the walk can stop after any byte and be taken up again without
// the bytes before (specs/Pieces.antt). docs/ARCHITECTURE.md has the states as a table.
ghost use Rattle.std.specs.Prelude.{◌≡◌, ◌+◌, ◌*◌, ◌-◌, true};
ghost use Rattle.text.specs.Digits.{digit};
ghost use Rattle.amount.specs.Walk.{cap, sat, with_digits, decimal_at, start_step, whole_step, fraction_step, step_of, run};

// What has been read so far. Counts stop at 19 and sizes at 2^63 + 1.
#[derive(Clone, Copy)]
pub(crate) enum Walk {
    // No byte.
    Nothing,
    // A sign, digits, or both: whether below zero, how many digits, the number that they write.
    Whole(bool, u32, u64),
    // A point, with these or without: the same, and how many of the digits stand behind the point.
    Fraction(bool, u32, u64, u32),
    // A byte that is out of place.
    Malformed,
}

// A decimal that was read whole: whether below zero, how many digits, the number that they write, and how
// many of them are decimals.
#[derive(Clone, Copy)]
pub(crate) struct Decimal {
    pub(crate) negative: bool,
    pub(crate) digits: u32,
    pub(crate) size: u64,
    pub(crate) decimals: u32,
}

// A decimal of a sign, digits, a size and decimals, if it has a digit.
#[tactic(auto, unfolding(crate::specs::Walk::with_digits))]
fn with_digits(negative: bool, digits: u32, size: u64, decimals: u32) -> Option<Decimal>
    ensures { result ≡ with_digits negative digits size decimals }
{
    if digits == 0 {
        return None;
    }
    Some(Decimal {
        negative,
        digits,
        size,
        decimals,
    })
}

impl Walk {
    // The decimal that was read: at least one digit, and no byte out of place.
    pub(crate) fn decimal(self) -> Option<Decimal>
        ensures { result ≡ decimal_at self }
    {
        match self {
            Walk::Nothing | Walk::Malformed => None,
            Walk::Whole(negative, digits, size) => with_digits(negative, digits, size, 0),
            Walk::Fraction(negative, digits, size, decimals) => {
                with_digits(negative, digits, size, decimals)
            }
        }
    }
}

// The walk over s, taken up from a state. What is malformed stays so, and the rest is not looked at.
pub(crate) fn walk_on(s: &[u8], from: Walk) -> Walk
    ensures { result ≡ run from s.now }
{
    let mut w = from;
    for &b in s {
        w = step(w, b);
        if let Walk::Malformed = w {
            return w;
        }
    }
    w
}

// The walk after one byte more.
fn step(w: Walk, b: u8) -> Walk
    ensures { result ≡ step_of w b }
{
    match w {
        Walk::Nothing => start_step(b),
        Walk::Whole(negative, digits, size) => whole_step(negative, digits, size, b),
        Walk::Fraction(negative, digits, size, decimals) => {
            fraction_step(negative, digits, size, decimals, b)
        }
        Walk::Malformed => Walk::Malformed,
    }
}

// The first byte: a sign, or a byte of the whole part.
#[tactic(auto, unfolding(crate::specs::Walk::start_step))]
fn start_step(b: u8) -> Walk
    ensures { result ≡ start_step b }
{
    match b {
        b'-' => Walk::Whole(true, 0, 0),
        b'+' => Walk::Whole(false, 0, 0),
        _ => whole_step(false, 0, 0, b),
    }
}

// A byte more of the whole part: a digit, or the point. What a state holds comes taken apart, by the `match`
// of `step`.
fn whole_step(negative: bool, digits: u32, size: u64, b: u8) -> Walk
    ensures { result ≡ whole_step negative digits size b }
{
    if text::is_digit(b) {
        return Walk::Whole(negative, count_up(digits), push_digit(size, b));
    }
    if b == b'.' {
        return Walk::Fraction(negative, digits, size, 0);
    }
    Walk::Malformed
}

// A byte more of the fraction: a digit.
fn fraction_step(negative: bool, digits: u32, size: u64, decimals: u32, b: u8) -> Walk
    ensures { result ≡ fraction_step negative digits size decimals b }
{
    if text::is_digit(b) {
        return Walk::Fraction(
            negative,
            count_up(digits),
            push_digit(size, b),
            count_up(decimals),
        );
    }
    Walk::Malformed
}

// The count with one more, which stops at 19.
fn count_up(n: u32) -> u32
    ensures { result ≡ sat (n + 1) }
{
    if n < 18 { n + 1 } else { 19 }
}

// The size with one digit more, which stops at 2^63 + 1.
pub(crate) fn push_digit(m: u64, b: u8) -> u64
    requires { digit b ≡ true }
    ensures { result ≡ cap (10 * m + (b - 48)) }
{
    if m <= 922337203685477580 {
        m * 10 + u64::from(b - 48)
    } else {
        9223372036854775809
    }
}
