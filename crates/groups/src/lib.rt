// The groups of a settlement, each read from one child: VAT breakdown, billing period, payment
// terms, preceding invoice and payee.
//
// What a group holds is answered by value, with the entries said on the way; the reader above puts
// its row. A document and the entries are lent as one value each (crates `element` and `values`). No
// public function has a `requires`, and the crate assumes nothing of its own.
#![tactic(auto)]

mod categories;
mod parties;
mod periods;
mod references;
mod shapes;
mod taxes;

pub use categories::trade_tax;
pub use parties::payee;
pub use periods::{payment_terms, period};
pub use references::preceding;
pub use shapes::{Category, CategoryRate, Identifier, Payee, PaymentTerms, Period, VatState};
pub use taxes::vat_breakdown;
