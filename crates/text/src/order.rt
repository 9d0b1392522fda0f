// Two texts compared, byte by byte.
ghost use Rattle.std.specs.Prelude.{◌≡◌};
ghost use Rattle.text.specs.Order.{equal, order, ordering};

use std::cmp::Ordering;

// Whether a and b are the same bytes: the library's `==`, with the definitions' word for it.
#[tactic(auto, using(crate::proofs::Orders::equal_pointwise))]
pub fn same(a: &[u8], b: &[u8]) -> bool
    ensures { result ≡ equal a.now b.now }
{
    a == b
}

// How a stands to b in the order of their bytes, a text before all that it begins.
#[tactic(auto, using(crate::proofs::Orders::order_slices))]
pub fn compare(a: &[u8], b: &[u8]) -> Ordering
    ensures { ordering result ≡ order a.now b.now }
{
    a.cmp(&b)
}
