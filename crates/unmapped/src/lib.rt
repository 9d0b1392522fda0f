// The unmapped elements of a reading: rows of three numbers in a lent list, ascending by parent and
// then by name, each pair once. The place of an element among them is found by halving.
//
// The rows held so far are read back from the list, whatever it holds: a negative number reads as 0.
// Where the list has no room for one row more, nothing changes. No public function has a `requires`,
// and the crate assumes nothing of its own.
#![tactic(auto)]

mod note;
mod row;
mod search;

pub use note::{UnmappedRows, note_unmapped};
