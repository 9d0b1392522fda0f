// The elements of a linked table as the reader sees them: texts and their places, children by name,
// attributes by name.
//
// A document is lent as a table with its text and its links, and passed by `&`: so one register holds it,
// and no call copies it. Every function takes all numbers and all bytes: a record that the table does
// not have reads as zeros. No public function has a `requires`, and the crate assumes nothing of its
// own.
#![tactic(auto)]

mod attributes;
mod document;
mod kids;
mod texts;

pub use document::Document;
