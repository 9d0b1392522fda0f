// The end of a reading: what is missing, what becomes of mandate and creditor identifier, and the terms that
// the state of the reading makes.
//
// Every function takes all numbers, all states and lists of any length. No public function has a `requires`,
// and the crate assumes nothing of its own.
#![tactic(auto)]

mod debit;
mod finishing;
mod terms;

pub use finishing::finish;
pub use terms::{Terms, blank_terms};
