// Decimal digits, and the number that they write.
ghost use Rattle.std.specs.Prelude.{◌≡◌};
ghost use Rattle.text.specs.Digits.{digit, numeral_from, numeral_of};

// Whether b is one of the digits 0 to 9.
#[tactic(auto, unfolding(crate::specs::Digits::digit, crate::specs::Range::within))]
pub fn is_digit(b: u8) -> bool
    ensures { result ≡ digit b }
{
    b.is_ascii_digit()
}

// The number that s writes, which has only digits.
fn written(s: &[u8]) -> Option<u32>
    ensures { result ≡ numeral_from 0 s.now }
{
    let mut n: u64 = 0;
    for &b in s {
        if !is_digit(b) {
            return None;
        }
        n = 10 * n + (b - b'0') as u64;
        if n > 4294967295 {
            return None;
        }
    }
    Some(n as u32)
}

// The number that one digit to `most` digits write.
#[tactic(auto, unfolding(crate::specs::Digits::numeral_of, crate::specs::Range::within))]
pub fn numeral_of(s: &[u8], most: usize) -> Option<u32>
    ensures { result ≡ numeral_of most s.now }
{
    if (1..=most).contains(&s.len()) {
        written(s)
    } else {
        None
    }
}
