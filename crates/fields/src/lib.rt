// The fields of the lines of a printed reading that show a row's numbers, put behind what was put into
// the line before (document 01, "The printed reading").
//
// All functions take all numbers and lists of any length, so no public function has a `requires`. The crate
// assumes nothing of its own.
#![tactic(auto)]

mod column;
mod field;
mod row;
mod shown;

pub use column::Column;
pub use field::{put_field, put_fields};
pub use row::{number_at, numbers_from};
pub use shown::put_printable;
