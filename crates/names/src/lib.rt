// The vocabulary of entries and unmapped rows: messages, paths, terms and parents, each with its
// number. Their texts are in crate `labels`.
//
// `put`, its definition `specs/Put.antt` and its laws, of elements put into a lent list, stand here for
// the crates above.
//
// No public function has a `requires`, and the crate assumes nothing of its own.
#![tactic(auto)]

mod list;
mod message;
mod parent;
mod path;
mod term;

pub use list::put;
pub use message::Message;
pub use parent::Parent;
pub use path::Path;
pub use term::Term;
