// A sign and a size as a signed number.
ghost use Rattle.std.specs.Prelude.{◌≡◌, ◌≤◌, ◌<◌, true, false, negsuc};
ghost use Rattle.amount.specs.Decimal.{signed};

// A size as a number that is not below zero.
pub(crate) fn to_i64(m: u64) -> i64
    requires { m < 9223372036854775808 }
    ensures { result ≡ signed false m }
{
    m as i64
}

// -(k + 1), so that the least number has a way to be made.
fn below_zero(k: u64) -> i64
    requires { k < 9223372036854775808 }
    ensures { result ≡ negsuc k }
{
    -1 - (k as i64)
}

// A size as a number that is not above zero.
pub(crate) fn negated(m: u64) -> i64
    requires { m ≤ 9223372036854775808 }
    ensures { result ≡ signed true m }
{
    if m == 0 {
        return 0;
    }
    below_zero(m - 1)
}
