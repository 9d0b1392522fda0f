// The texts of numbered paths, terms and parents, for whoever prints an entry or an unmapped row.
//
// Every function takes all numbers: one that has no text has the empty text. No public function has a
// `requires`, and the crate assumes nothing of its own.
#![tactic(auto)]

mod parent;
mod path;
mod table;
mod term;

pub use parent::parent_name;
pub use path::path_text;
pub use term::{group_name, term_name};
