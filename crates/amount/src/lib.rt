// Numbers of an invoice as xs:decimal writes them (XML Schema part 2, 3.2.3): amounts in
// hundredths and percentages in their own last place, two types that do not mix.
//
// Every function takes all bytes and all numbers. No public function has a `requires`, and the
// crate assumes nothing of its own.
#![tactic(auto)]

mod amount;
mod decimal;
mod numeric;
mod signed;

pub use amount::{AmountError, InvoiceAmount};
pub use numeric::{Percentage, PercentageError};
