// The reader for hosts: one function that writes its answer as a row of 65 numbers, and one that answers
// the library's version. docs/LAYOUT.md lays the row out; `rulzhamm_c` lends both to C and Rust.
//
// The reader takes all numbers, all bytes and lists of any length, and a refusal changes nothing but the
// answer.
#![tactic(auto)]

mod call;
mod groups_row;
mod terms_row;
mod version;

pub use call::rulzhamm_read;
pub use version::rulzhamm_version;
