// The characters of a text: UTF-8 (RFC 3629), white space, and trimming in two modes.
//
// A text and a place in it go side by side, as to the library's `is_char_boundary`: no call carries on what
// another found. Every function takes all bytes and all numbers. No public function has a `requires`, and the
// crate assumes nothing of its own.
#![tactic(auto)]

mod trimming;
mod utf8;
mod white_space;

pub use trimming::{trim, trimmed_text};
pub use utf8::{Char, char_from, is_boundary, is_utf8};
