// The terms of a reading.
ghost use Rattle.std.specs.Prelude.{◌≡◌};
ghost use Rattle.settlement.specs.Result.{blank_terms};
ghost use Rattle.settlement.specs.Shapes.{no_totals};
ghost use Rattle.totals.specs.Reading.{totals_of};
ghost use Rattle.terms.specs.Terms.{terms_of};

use amount::InvoiceAmount;
use groups::{Payee, Period};
use payment::Means;
use report::Place;
use totals::{Sums, Totals};

// BT-5 to BT-9, BT-19 and BT-20, BG-10, BG-14, whether there is BG-16, BT-81 to BT-83, BG-18 or
// BG-19, BT-89 and BT-90, and BG-22.
#[derive(Clone, Copy)]
pub struct Terms {
    pub bt5: Option<Place>,
    pub bt6: Option<Place>,
    pub bt7: Option<u32>,
    pub bt8: Option<u32>,
    pub bt9: Option<u32>,
    pub bt19: Option<Place>,
    pub bt20: Option<Place>,
    pub payee: Option<Payee>,
    pub period: Option<Period>,
    pub paid: bool,
    pub bt81: Option<Place>,
    pub bt82: Option<Place>,
    pub bt83: Option<Place>,
    pub means: Means,
    pub bt89: Option<Place>,
    pub bt90: Option<Place>,
    pub totals: Totals,
}

// No summation: the required amounts are 0.
pub(crate) fn no_totals() -> Totals
    ensures { totals_of result ≡ no_totals }
{
    Totals {
        line: InvoiceAmount::zero(),
        taxable: InvoiceAmount::zero(),
        gross: InvoiceAmount::zero(),
        due: InvoiceAmount::zero(),
        sums: Sums {
            allowance: None,
            charge: None,
            vat: None,
            accounting: None,
            paid: None,
            rounding: None,
        },
    }
}

// Terms of which none is present.
pub fn blank_terms() -> Terms
    ensures { terms_of result ≡ blank_terms }
{
    Terms {
        bt5: None,
        bt6: None,
        bt7: None,
        bt8: None,
        bt9: None,
        bt19: None,
        bt20: None,
        payee: None,
        period: None,
        paid: false,
        bt81: None,
        bt82: None,
        bt83: None,
        means: Means::Unset,
        bt89: None,
        bt90: None,
        totals: no_totals(),
    }
}
