// The names of business terms (EN 16931-1) and of their groups.
ghost use Rattle.std.specs.Prelude.{◌≡◌};
ghost use Rattle.labels.specs.TermName.{term_group_at, term_name_at};

use crate::table::text_of;

// The names of the terms' groups, by the terms' numbers from 0, which is no term's.
const GROUPS: [&str; 26] = [
    "", "BG-22", "BG-22", "BG-22", "BG-22", "BG-22", "BG-22", "BG-22", "BG-22", "BG-22", "BG-23",
    "BG-23", "BG-23", "BG-23", "BG-20", "BG-20", "BG-20", "BG-20", "BG-20", "BG-21", "BG-21",
    "BG-21", "BG-21", "BG-21", "BG-3", "",
];

// The terms' own names, by their numbers from 0, which is no term's.
const NAMES: [&str; 26] = [
    "", "BT-106", "BT-107", "BT-108", "BT-109", "BT-110", "BT-112", "BT-113", "BT-114", "BT-115",
    "BT-116", "BT-117", "BT-118", "BT-119", "BT-92", "BT-93", "BT-94", "BT-95", "BT-96", "BT-99",
    "BT-100", "BT-101", "BT-102", "BT-103", "BT-25", "BT-8",
];

// The name of the group of the term that has a number. A group's index, if there is one, is printed after
// it.
pub fn group_name(number: usize) -> &'static str
    ensures { result.now ≡ term_group_at number }
{
    text_of(&GROUPS, number)
}

// The name of the term that has a number, without its group.
pub fn term_name(number: usize) -> &'static str
    ensures { result.now ≡ term_name_at number }
{
    text_of(&NAMES, number)
}
