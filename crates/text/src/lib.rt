// The text of an XML document as bytes: digits and numbers, two texts compared and ordered, a name looked up
// among names, and the bytes at a place. Its characters are in crate `characters`.
//
// Every function takes all bytes and all numbers. No public function has a `requires`, and the
// crate assumes nothing of its own.
#![tactic(auto)]

mod digit;
mod order;
mod place;
mod range;
mod span;
mod word;

pub use digit::{is_digit, numeral_of};
pub use order::{compare, same};
pub use place::{meaning_of, position_of};
pub use range::is_within;
pub use span::{Span, clip, part};
pub use word::same_words;
