// The code lists and fixed words of a CII settlement: currency codes (ISO 4217), VAT point date
// codes (UNTDID 2475 and 2005), the rules of EN 16931 in force, the type code VAT, xs:boolean, the
// mark of a conformant extension and the format of a date.
//
// Every function takes all bytes and all numbers. No public function has a `requires`, and the
// crate assumes nothing of its own.
#![tactic(auto)]

mod boolean;
mod conformant;
mod currency;
mod date_format;
mod rules;
mod vat;
mod vat_point;

pub use boolean::parse_boolean;
pub use conformant::is_conformant;
pub use currency::is_currency;
pub use date_format::is_date_format;
pub use rules::{Rule, is_in_force};
pub use vat::is_vat;
pub use vat_point::vat_point_date_code_from_cii;
