// The values of a settlement but for amounts: percentages, dates and codes, each with the entries that reading
// it makes, how an entry is said and where.
//
// A function that has something to say is lent the entries with the place of the next one (`Entries`), to
// write, beside the document and `Lent`, to read: each is one value. A percentage or a code is read from
// the text of a child that was looked for, a date from the child itself (`None`: there is none). No public
// function has a `requires`, and the crate assumes nothing of its own.
#![tactic(auto)]

mod dates;
mod lent;
mod locating;
mod percentages;
mod required_codes;
mod saying;

pub use dates::{DatePaths, date};
pub use lent::Lent;
pub use locating::{grouped, moved, site};
pub use percentages::percent;
pub use required_codes::{required_code, say_non_vat};
pub use saying::{Entries, Site};
