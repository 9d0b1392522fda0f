// The allowances and charges of a settlement: BG-20, BG-21, and the logistics charges, which are BG-21
// under the identifier of a conformant extension.
//
// What is read is answered by value, with the entries said on the way; the reader above counts the
// groups and puts the row. A document and the entries are lent as one value each (crates `element` and
// `values`). No public function has a `requires`, and the crate assumes nothing of its own.
#![tactic(auto)]

mod allowances;
mod categories;
mod grouping;
mod indicators;
mod logistics;
mod shapes;

pub use allowances::allowance_charge;
pub use logistics::logistics_charge;
