// What the program `reading` is given, made into what `reader::read` takes: the numbers of the record
// file, and mode, rules, currency and identifier of the input line; or that it is unfit (document 01,
// "The printed reading").
//
// Every function takes all bytes and all places. No public function has a `requires`, and the crate
// assumes nothing of its own.
#![tactic(auto)]

mod files;
mod input_line;
mod parts;
mod stream;

pub use files::{input_of, numbers_of};
pub use input_line::{Fields, parse_line};
pub use parts::bytes_at;
pub use stream::read_full;
