// The fields of the lines of a printed reading that show a path or a term by its number, put behind what
// was put into the line before (document 01, "The printed reading").
//
// All functions take all numbers and lists of any length, so no public function has a `requires`. The crate
// assumes nothing of its own.
#![tactic(auto)]

mod label;

pub use label::{put_path_field, put_term_field, put_unmapped_field};
