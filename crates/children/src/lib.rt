// The children of a settlement (record 0), read one after the other, each by its kind: a name is
// looked up once, and a `match` leads to the function of its kind, here for those that make rows and in
// crate `steps` for the others.
//
// Rows, entries and unmapped names go to the lent lists, each behind what it had. A document is lent as one
// value (`element::Document`). No public function has a `requires` (those that count rows have one, and are
// private), and the crate assumes nothing of its own.
#![tactic(auto)]

mod rows;
mod walk;

pub use walk::settlement;
