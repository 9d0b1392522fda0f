// The printed reading: the lines of a call's outcome, made of the numbers that the call leaves, its
// answer as one row and the three lists of rows (document 01, "The printed reading").
//
// Every function takes all numbers and lists of any length, so no public function has a `requires`: a
// number past the end of a row is 0, an answered row that its list does not have is not printed, and
// what has no room is left out. The crate assumes nothing of its own.
#![tactic(auto)]

mod count;
mod group;
mod line;
mod row;
mod term;

pub use count::line_count;
pub use line::put_line;
