// Elements put into a lent list, each where there is room: a list that is too short takes what fits,
// and nothing else in it changes.
ghost use Rattle.std.specs.Prelude.{◌≡◌};
ghost use Rattle.names.specs.Put as puts;

// Puts elements into a list from a place on.
pub fn put<T: Copy>(list: &mut [T], at: usize, items: &[T])
    ensures { list.new ≡ puts.put list.old at items.now }
{
    let from = at.min(list.len());
    let n = items.len().min(list.len() - from);
    list[from..from + n].copy_from_slice(&items[..n]);
}
