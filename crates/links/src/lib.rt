// Links between the records of a table, filled in one pass, by which children and attributes are
// found in time linear in their number.
//
// Every function takes all numbers and all bytes: a link past the end is 0, none, and where there is
// no room for every record nothing is linked. No public function has a `requires`, and the crate
// assumes nothing of its own.
#![tactic(auto)]

mod firsts;
mod links;
mod siblings;

pub use firsts::{attribute, first_child, first_children};
pub use links::link;
pub use siblings::{Siblings, attributes, children, first_of, next_of};
