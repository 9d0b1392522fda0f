// The rows held so far, read back from the list.
ghost use Rattle.std.specs.Prelude.{◌≡◌, ◌<◌, pos, get_or};
ghost use Rattle.text.specs.Order.{ordering};
ghost use Rattle.report.specs.Encoding.{unmapped_width};
ghost use Rattle.report.specs.Values.{unmapped_of};
ghost use Rattle.unmapped.specs.Row as row;
ghost use Rattle.unmapped.specs.Row.{or_zero};

use report::{UNMAPPED_WIDTH, Unmapped};
use std::cmp::Ordering;

// A number of the list as a place or a length: 0 past its end, and where it is negative.
// Two calls of the library, which `number_at` in `fields` does not both make.
fn number_at(list: &[i64], n: usize) -> usize
    ensures { result ≡ or_zero (get_or list.now n (pos 0)) }
{
    list.get(n).map_or(0, |&z| usize::try_from(z).unwrap_or(0))
}

// Number j of row k.
fn number(list: &[i64], k: usize, j: usize) -> usize
    requires { j < unmapped_width }
    ensures { result ≡ row.number list.now k j }
{
    if k < list.len() {
        return number_at(list, k * UNMAPPED_WIDTH + j);
    }
    0
}

// How an element stands to row k: by its parent, then by its name.
pub(crate) fn standing(text: &[u8], list: &[i64], u: Unmapped, k: usize) -> Ordering
    ensures { ordering result ≡ row.standing text.now list.now (unmapped_of u) k }
{
    let own = u32::from(u.parent) as usize;
    let held = number(list, k, 0);
    if own < held {
        return Ordering::Less;
    }
    if own > held {
        return Ordering::Greater;
    }
    let name = text::clip(text, number(list, k, 1), number(list, k, 2));
    text::compare(u.name.bytes(text), name)
}
