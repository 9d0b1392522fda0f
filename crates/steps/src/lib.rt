// The state of a reading, and what a child of the settlement (record 0) does to it by its kind: references,
// currencies and payee; when and how is paid; the summation. Children that make rows are crate `children`'s.
//
// The state goes by value, in parts, and a child's function is given its own; entries, transfers' rows and
// unmapped names go among the lent rows, each behind what they had. A document is lent as one value (crate
// `element`). No public function has a `requires`, and the crate assumes nothing of its own.
#![tactic(auto)]

mod billing;
mod plain;
mod state;
mod summing;

pub use billing::billing_child;
pub use plain::plain_child;
pub use state::{Billing, Plain, State, Tally, blank};
pub use summing::summation;
