// The names of the parents of elements that the reader does not map.
ghost use Rattle.std.specs.Prelude.{◌≡◌};
ghost use Rattle.labels.specs.ParentName.{parent_name_at};

use crate::table::text_of;

// The elements' names, by their numbers from 0, which none has.
const NAMES: [&str; 4] = [
    "",
    "ApplicableHeaderTradeSettlement",
    "SpecifiedTradeSettlementHeaderMonetarySummation",
    "SpecifiedTradeSettlementPaymentMeans",
];

// The name of the element that has a number.
pub fn parent_name(number: usize) -> &'static str
    ensures { result.now ≡ parent_name_at number }
{
    text_of(&NAMES, number)
}
