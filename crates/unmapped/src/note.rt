// An unmapped element noted among those before it.
ghost use Rattle.std.specs.Prelude.{◌≡◌, ◌+◌, ◌*◌, ◌/◌, ◌≤◌, ◌<◌, [], ◌∷◌, length};
ghost use Rattle.std.proofs.Math.Seq.{slice};
ghost use Rattle.names.specs.Put.{put};
ghost use Rattle.report.specs.Encoding.{unmapped_width};
ghost use Rattle.report.specs.Values.{unmapped_of};
ghost use Rattle.unmapped.specs.Noting.{Noted, inserted, noting};
ghost use Rattle.unmapped.specs.Acted.{Notes};

use crate::search::seek;
use report::{UNMAPPED_WIDTH, Unmapped, put_row};

// Moves the numbers from a place up to an end by one row.
fn move_up(list: &mut [i64], at: usize, end: usize)
    requires { (at ≤ end) × (end + unmapped_width ≤ length list.old) }
    ensures { list.new ≡ put list.old (at + unmapped_width) (slice at end list.old) }
{
    list.copy_within(at..end, at + UNMAPPED_WIDTH);
}

// Puts an element's row before row k of count, and answers how many rows there are then.
fn insert_row(list: &mut [i64], count: usize, u: Unmapped, k: usize) -> usize
    requires { (k ≤ count) × (count < length list.old / unmapped_width) }
    ensures { Noted (inserted list.old count (unmapped_of u) k) list.new result }
{
    let at = k * UNMAPPED_WIDTH;
    let end = count * UNMAPPED_WIDTH;
    move_up(list, at, end);
    put_row(list, at, &u.row());
    count + 1
}

// Notes an unmapped element: its row goes where it belongs among the rows held so far, if its parent
// and name are not there yet; answers how many rows there are then.
// It takes any list and any count, which `UnmappedRows` need not have been made for.
pub fn note_unmapped(text: &[u8], list: &mut [i64], count: usize, u: Unmapped) -> usize
    ensures { Noted (noting text.now list.old count (unmapped_of u)) list.new result }
{
    if list.len() / UNMAPPED_WIDTH <= count {
        return count;
    }
    match seek(text, list, count, u) {
        None => count,
        Some(k) => insert_row(list, count, u, k),
    }
}

// The lent rows of unmapped elements, and how many there are.
#[derive(Drop)]
pub struct UnmappedRows<'a> {
    pub list: &'a mut [i64],
    pub count: usize,
}

impl UnmappedRows<'_> {
    // Notes an unmapped element among those before it.
    pub fn note(&mut self, text: &[u8], u: Unmapped)
        ensures { Notes text.now (unmapped_of u ∷ []) self.old self.new }
    {
        self.count = note_unmapped(text, self.list, self.count, u);
    }
}
