// The reading so far: what each kind of child of a settlement has made.
ghost use Rattle.std.specs.Prelude.{◌≡◌};
ghost use Rattle.report.specs.Rows as rows;
ghost use Rattle.settlement.specs.Shapes.{blank};
ghost use Rattle.steps.specs.States.{state_of};

use groups::{Payee, PaymentTerms, Period, VatState};
use payment::{Means, Payment};
use report::Place;
use totals::Totals;

// What one child gives alone: BT-90, BT-83 (some, once a PaymentReference was met), BT-6, BT-5, BG-10 and BT-19.
#[derive(Clone, Copy)]
pub struct Plain {
    pub creditor: Option<Place>,
    pub reference: Option<Option<Place>>,
    pub tax_currency: Option<Place>,
    pub invoice_currency: Option<Place>,
    pub payee: Option<Payee>,
    pub accounting: Option<Place>,
}

// What is kept of children that make rows: VAT so far, and how many allowances, charges and preceding invoices
// there are.
#[derive(Clone, Copy)]
pub struct Tally {
    pub vat: VatState,
    pub allowances: u32,
    pub charges: u32,
    pub invoices: u32,
}

// When and how is paid: BG-14, the payment terms and BG-16.
#[derive(Clone, Copy)]
pub struct Billing {
    pub period: Option<Period>,
    pub terms: PaymentTerms,
    pub payment: Payment,
}

// The reading so far, in parts, so that a child's function is given no more than its own: with BG-22.
#[derive(Clone, Copy)]
pub struct State {
    pub plain: Plain,
    pub tally: Tally,
    pub billing: Billing,
    pub totals: Option<Totals>,
}

// Before the first child.
pub fn blank() -> State
    ensures { state_of result ≡ blank rows.Place }
{
    State {
        plain: Plain {
            creditor: None,
            reference: None,
            tax_currency: None,
            invoice_currency: None,
            payee: None,
            accounting: None,
        },
        tally: Tally {
            vat: VatState {
                breakdowns: 0,
                point: None,
                code: None,
                first: None,
            },
            allowances: 0,
            charges: 0,
            invoices: 0,
        },
        billing: Billing {
            period: None,
            terms: PaymentTerms {
                note: None,
                due: None,
                mandate: None,
            },
            payment: Payment {
                met: false,
                code: None,
                text: None,
                means: Means::Unset,
            },
        },
        totals: None,
    }
}
