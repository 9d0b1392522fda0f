// The place of an element among the rows held so far.
ghost use Rattle.std.specs.Prelude.{◌≡◌};
ghost use Rattle.report.specs.Values.{unmapped_of};
ghost use Rattle.unmapped.specs.Search.{sought};

use crate::row::standing;
use report::Unmapped;
use std::cmp::Ordering;

// Where the row of an element goes among count rows, unless its parent and name are there already. By hand, for
// this is determined on any list of numbers (`halve`), and the library's search tells it of ascending rows alone.
pub(crate) fn seek(text: &[u8], list: &[i64], count: usize, u: Unmapped) -> Option<usize>
    ensures { result ≡ sought text.now list.now count (unmapped_of u) }
{
    let mut lo = 0;
    let mut hi = count;
    while lo < hi {
        let mid = lo + (hi - lo) / 2;
        match standing(text, list, u, mid) {
            Ordering::Less => hi = mid,
            Ordering::Equal => return None,
            Ordering::Greater => lo = mid + 1,
        }
    }
    Some(lo)
}
