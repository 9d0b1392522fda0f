// The lines of groups.
ghost use Rattle.decimals.specs.Puts.{Puts};
ghost use Rattle.printed.specs.Numbers.{group_numbers};
ghost use Rattle.printed.specs.Tables.{group_of};

use crate::count::count_at;
use decimals::Line;

// A group: its number, and where the answer says whether it is present.
#[derive(Clone, Copy)]
pub(crate) struct Group(pub u8, pub u8);

// BG-10, BG-14, BG-16, BG-18 (card), BG-19 (direct debit).
pub(crate) const GROUPS: [Group; 5] = [
    Group(10, 16),
    Group(14, 27),
    Group(16, 30),
    Group(18, 37),
    Group(19, 42),
];

// Puts the line of a group, nothing where it is absent.
pub(crate) fn put_group(line: &mut Line, answer: &[i64], group: Group)
    ensures { Puts (group_numbers answer.now (group_of group)) line.old line.new }
{
    if count_at(answer, group.1 as usize) == 0 {
        return;
    }
    line.put_bytes(b"group\tBG-");
    line.put_decimal(group.0 as u64);
    line.put_byte(b'\n');
}
