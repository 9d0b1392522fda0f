// The amounts of a settlement: of an element or of a child that was looked for (`None`: there is none),
// optional or required, beside a currency or not, each with the entries that reading it makes.
//
// What an element says as an amount is decided first (`hear`) and then said (`tell`). A function that
// has something to say is lent the entries with the place of the next one (`values::Entries`). A document is
// lent as one value (`element::Document`). No public function has a `requires`, and the crate assumes nothing
// of its own.
#![tactic(auto)]

mod amounts;
mod currencies;
mod heard;

pub use amounts::{Required, amount, required_amount, tax_amount};
pub use heard::{Fault, Heard, hear, tell};
