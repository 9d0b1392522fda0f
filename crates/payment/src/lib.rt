// The reader of one payment means (BG-16 to BG-19), which fills in the payment so far.
//
// The children are walked once, by their links. The account held last waits for its provider, which
// comes after it, and is put when the next account or the end comes: a row is written once, and no
// provider reaches the account of another payment means. Every function takes all numbers and all
// lists: what has no room is left out. No public function has a `requires`, and the crate assumes
// nothing of its own.
#![tactic(auto)]

mod accounts;
mod card_or_debit;
mod instructions;
mod parts;
mod paying;
mod walk;

pub use paying::{Means, Payment, PaymentCard};
pub use walk::fill_in;
