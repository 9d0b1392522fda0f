// The refusals 3 to 9 of a table and its text: what the checks answer, and what a table is that none
// of them refuses.
//
// `check` takes all numbers and all bytes. No public function has a `requires`, and the crate assumes
// nothing of its own.
#![tactic(auto)]

mod reasons;
mod refusal;

pub use reasons::{Reason, Refusal};
pub use refusal::check;
