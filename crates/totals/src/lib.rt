// The totals of a settlement: its monetary summation read to BT-106 to BT-115, with the entries and
// the unmapped names that reading it makes.
//
// The children are read in one pass, each name looked up once, and what the first child of each
// optional amount's name says is remembered; the required amounts come after them. Tax totals are told
// apart by the currencies read so far, BT-5 and BT-6, and not by the currency that is lent. No public
// function has a `requires`, and the crate assumes nothing of its own.
#![tactic(auto)]

mod firsts;
mod state;
mod sum;
mod summands;
mod summation;
mod tax;

pub use state::{Currencies, Sums, Totals};
pub use summation::totals;
