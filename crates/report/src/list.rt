// Numbers put into a lent list, each where there is room: a list that is too short takes what fits, and
// nothing else in it changes.
ghost use Rattle.std.specs.Prelude.{◌≡◌};
ghost use Rattle.report.specs.Placed as placed;
ghost use Rattle.report.specs.Placed.{Placed};

// The numbers of an entry, of what is held and of an unmapped element.
pub const ENTRY_WIDTH: usize = 6;

pub const HELD_WIDTH: usize = 14;

pub const UNMAPPED_WIDTH: usize = 3;

// The room for what a record of a table may make: a held row, four entries and an unmapped row.
pub const HELD_ROOM: usize = HELD_WIDTH;

pub const ENTRY_ROOM: usize = 4 * ENTRY_WIDTH;

pub const UNMAPPED_ROOM: usize = UNMAPPED_WIDTH;

// The place behind n numbers or bytes put at a place of a list of this size.
pub fn behind(size: usize, at: usize, n: usize) -> usize
    ensures { result ≡ placed.behind size at n }
{
    if size <= at {
        return at;
    }
    if size - at <= n {
        return size;
    }
    at + n
}

// Puts a row into a list at a place, and answers where the next goes.
#[tactic(auto, using(crate::proofs::Placing::placed_by))]
pub fn put_row<T: Copy>(list: &mut [T], at: usize, row: &[T]) -> usize
    ensures { Placed list.old at row.now list.new result }
{
    names::put(list, at, row);
    behind(list.len(), at, row.len())
}
