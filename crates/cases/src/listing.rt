// Numbers in a line, parted by single spaces.
ghost use Rattle.std.specs.Prelude.{◌≡◌, true};
ghost use Rattle.text.specs.Digits.{digit};
ghost use Rattle.cases.specs.Numbers.{grown, Listed};

use crate::put;

// The number n with the digit b behind it, which stops at 2^32 - 1.
#[tactic(auto, using(text::proofs::Digits::digit_range))]
fn grow(n: u32, b: u8) -> u32
    requires { digit b ≡ true }
    ensures { result ≡ grown n b }
{
    n.saturating_mul(10).saturating_add(u32::from(b - b'0'))
}

// Puts the numbers of a line into out, which is made once for all lines, and answers how many there are.
// A count by hand: `enumerate` counts bytes, and over the parts of `split` the proof did not close at
// `loop-k-preserved`, which asks that they are the numbers.
pub fn numbers(s: &[u8], out: &mut [u32]) -> usize
    ensures { Listed s.now out.old out.new result }
{
    let mut k = 0;
    let mut n = 0;
    for b in s {
        if text::is_digit(*b) {
            n = grow(n, *b);
        } else {
            put(out, k, n);
            k += 1;
            n = 0;
        }
    }
    put(out, k, n);
    k + 1
}
