// The table of a settlement: records of six numbers beside a text, their names and texts, and the
// first of a name under a parent.
//
// Every function takes all numbers and all bytes: a record that the table does not have reads as
// zeros, and of a place outside the text the bytes are those that the text has. No public function
// has a `requires`, and the crate assumes nothing of its own.
#![tactic(auto)]

mod record;
mod table;

pub use record::Field;
pub use table::Table;
