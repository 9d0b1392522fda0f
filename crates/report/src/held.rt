// What the reader holds: credit transfers, VAT breakdowns, allowances, charges and preceding invoices.
ghost use Rattle.std.specs.Prelude.{◌≡◌, [], ◌∷◌};
ghost use Rattle.report.specs.HeldRows.{Holds};
ghost use Rattle.report.specs.Rows.{transfer, vat, preceding, held_as};
ghost use Rattle.report.specs.Encoding.{held_row};
ghost use Rattle.report.specs.Values.{transfer_of, vat_of, allowance_charge_of, preceding_of};

use crate::list::{HELD_WIDTH, put_row};
use crate::value::{
    Place, amount_hundredths, amount_present, or_absent, percent_scale, percent_unscaled,
    text_length, text_start,
};
use amount::{InvoiceAmount, Percentage};

// What a held row is, its first number.
#[derive(Clone, Copy)]
enum Kind {
    Transfer = 1,
    Vat = 2,
    Allowance = 3,
    Charge = 4,
    Preceding = 5,
}

// BG-17 credit transfer: BT-84, BT-85, BT-86.
#[derive(Clone, Copy)]
pub struct Transfer {
    pub account: Option<Place>,
    pub name: Option<Place>,
    pub provider: Option<Place>,
}

impl Transfer {
    // The row of a credit transfer.
    pub fn row(self) -> [i64; HELD_WIDTH]
        ensures { result ≡ held_row (transfer (transfer_of self)) }
    {
        [
            Kind::Transfer as i64,
            text_start(self.account),
            text_length(self.account),
            text_start(self.name),
            text_length(self.name),
            text_start(self.provider),
            text_length(self.provider),
            0,
            0,
            0,
            0,
            0,
            0,
            0,
        ]
    }
}

// BG-23 VAT breakdown: BT-116 to BT-121.
#[derive(Clone, Copy)]
pub struct Vat {
    pub taxable: InvoiceAmount,
    pub tax: InvoiceAmount,
    pub category: Place,
    pub rate: Option<Percentage>,
    pub reason: Option<Place>,
    pub code: Option<Place>,
}

impl Vat {
    // The row of a VAT breakdown.
    pub fn row(self) -> [i64; HELD_WIDTH]
        ensures { result ≡ held_row (vat (vat_of self)) }
    {
        [
            Kind::Vat as i64,
            self.taxable.to_minor_units(),
            self.tax.to_minor_units(),
            self.category.start(),
            self.category.length(),
            percent_unscaled(self.rate),
            percent_scale(self.rate),
            text_start(self.reason),
            text_length(self.reason),
            text_start(self.code),
            text_length(self.code),
            0,
            0,
            0,
        ]
    }
}

// BG-20 document level allowance or BG-21 charge: BT-92 to BT-98, BT-99 to BT-105.
#[derive(Clone, Copy)]
pub struct AllowanceCharge {
    pub amount: InvoiceAmount,
    pub base: Option<InvoiceAmount>,
    pub percentage: Option<Percentage>,
    pub category: Place,
    pub rate: Option<Percentage>,
    pub reason: Option<Place>,
    pub code: Option<Place>,
}

impl AllowanceCharge {
    // The row of a charge or an allowance.
    pub fn row(self, charge: bool) -> [i64; HELD_WIDTH]
        ensures { result ≡ held_row (held_as charge (allowance_charge_of self)) }
    {
        let kind = if charge {
            Kind::Charge as i64
        } else {
            Kind::Allowance as i64
        };
        [
            kind,
            self.amount.to_minor_units(),
            amount_present(self.base),
            amount_hundredths(self.base),
            percent_unscaled(self.percentage),
            percent_scale(self.percentage),
            self.category.start(),
            self.category.length(),
            percent_unscaled(self.rate),
            percent_scale(self.rate),
            text_start(self.reason),
            text_length(self.reason),
            text_start(self.code),
            text_length(self.code),
        ]
    }
}

// BG-3 preceding invoice: BT-25, BT-26.
#[derive(Clone, Copy)]
pub struct Preceding {
    pub reference: Place,
    pub date: Option<u32>,
}

impl Preceding {
    // The row of a preceding invoice.
    pub fn row(self) -> [i64; HELD_WIDTH]
        ensures { result ≡ held_row (preceding (preceding_of self)) }
    {
        [
            Kind::Preceding as i64,
            self.reference.start(),
            self.reference.length(),
            or_absent(self.date),
            0,
            0,
            0,
            0,
            0,
            0,
            0,
            0,
            0,
            0,
        ]
    }
}

// The lent rows of what is held, and where the next goes.
#[derive(Drop)]
pub struct HeldRows<'a> {
    pub list: &'a mut [i64],
    pub at: usize,
}

impl HeldRows<'_> {
    // Holds a credit transfer. A line each for the four kinds of rows: a trait of theirs would carry the
    // definition of each as a ghost member, and be longer.
    pub fn hold_transfer(&mut self, t: Transfer)
        ensures { Holds (transfer (transfer_of t) ∷ []) self.old self.new }
    {
        self.at = put_row(self.list, self.at, &t.row());
    }

    // Holds a VAT breakdown.
    pub fn hold_vat(&mut self, v: Vat)
        ensures { Holds (vat (vat_of v) ∷ []) self.old self.new }
    {
        self.at = put_row(self.list, self.at, &v.row());
    }

    // Holds a charge or an allowance.
    pub fn hold_allowance_charge(&mut self, charge: bool, a: AllowanceCharge)
        ensures { Holds (held_as charge (allowance_charge_of a) ∷ []) self.old self.new }
    {
        self.at = put_row(self.list, self.at, &a.row(charge));
    }

    // Holds a preceding invoice.
    pub fn hold_preceding(&mut self, p: Preceding)
        ensures { Holds (preceding (preceding_of p) ∷ []) self.old self.new }
    {
        self.at = put_row(self.list, self.at, &p.row());
    }
}
