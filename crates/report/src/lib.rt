// The rows of a reading: what the reader holds, what it has to say and which elements it does not map,
// each a fixed count of signed numbers in a lent list.
//
// Every function takes all numbers and lists of any length: what has no room is left out. No public
// function has a `requires`, and the crate assumes nothing of its own.
#![tactic(auto)]

mod entry;
mod held;
mod list;
mod unmapped_row;
mod value;

pub use entry::Entry;
pub use held::{AllowanceCharge, HeldRows, Preceding, Transfer, Vat};
pub use list::{
    ENTRY_ROOM, ENTRY_WIDTH, HELD_ROOM, HELD_WIDTH, UNMAPPED_ROOM, UNMAPPED_WIDTH, behind, put_row,
};
pub use unmapped_row::Unmapped;
pub use value::{Place, amount_hundredths, amount_present, or_absent, text_length, text_start};
