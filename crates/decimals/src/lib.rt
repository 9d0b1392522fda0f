// The line that is being written, into which bytes and numbers in decimal digits are put.
//
// What is put goes behind what was put before, each byte where there is room. All functions take all numbers
// and lists of any length, so no public function has a `requires`. The crate assumes nothing of its own.
#![tactic(auto)]

mod line;
mod number;

pub use line::Line;
pub use number::{natural, size};
