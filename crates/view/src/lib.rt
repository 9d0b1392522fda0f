// What the screen gets of one value (document 01, "Rows"): the lent text and a place in it, as a row
// or a term has it, and the bytes there. Absent (-1, 0) is apart from empty (0, 0).
//
// A `Place` of a reading goes to the view by its `start` and `length`, one that may be absent by
// `text_start` and `text_length`: these are the numbers of its row.
//
// Every function takes all bytes and all numbers. No public function has a `requires`, and the
// crate assumes nothing of its own.
#![tactic(auto)]

mod place;
mod value;

pub use value::{View, bytes_at, is_there_at};
