// The reader of a settlement: a table of records beside a text is turned into terms, rows of what is
// held, entries about what could not be read or held, and unmapped names.
//
// `read` takes all numbers, all bytes and lists of any length. It refuses first, and a refusal changes
// nothing lent; what it accepts is linked in an array of its own and walked once. No public function
// has a `requires`, and the crate assumes nothing of its own.
#![tactic(auto)]

mod call;
mod reading;

pub use call::read;
pub use reading::Reading;
