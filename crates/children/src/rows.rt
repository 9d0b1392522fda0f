// The children that make rows: VAT breakdowns, allowances, charges and preceding invoices.
ghost use Rattle.std.specs.Prelude.{◌≤◌, List, Option, ℕ};
ghost use Rattle.settlement.specs.Kinds.{trade_tax, allowance_charge, logistics_charge, preceding_invoice};
ghost use Rattle.element.specs.LinkDoc.{doc_of, lent_text};
ghost use Rattle.values.specs.Sites.{lent_for, lent_of};
ghost use Rattle.totals.specs.declared.state.Totals.{Totals};
ghost use Rattle.unmapped.specs.declared.note.UnmappedRows.{UnmappedRows};
ghost use Rattle.children.specs.Counts.{Counted};
ghost use Rattle.kinds.specs.Kinds.{row_is};
ghost use Rattle.steps.specs.States.{state};
ghost use Rattle.steps.specs.Steps.{Stepped};
ghost use Rattle.steps.specs.declared.state.Plain.{Plain};
ghost use Rattle.steps.specs.declared.state.Billing.{Billing};

use element::Document;
use groups::VatState;
use kinds::RowKind;
use report::HeldRows;
use steps::Tally;
use values::{Entries, Lent};

// BG-23: the VAT breakdown that element c is.
fn vat_breakdown(
    doc: &Document,
    lent: &Lent,
    held: &mut HeldRows,
    entries: &mut Entries,
    tally: Tally,
    c: usize,
) -> Tally
    requires { tally.vat.breakdowns ≤ 4095 }
    ensures { (p : Plain) (b : Billing) (m : Option Totals) (u : UnmappedRows) → Stepped trade_tax (lent_of lent.now) (doc_of doc.now) (lent_text doc.now) c (state p tally b m) (state p result b m) held.old held.new entries.old entries.new u u }
{
    let (after, row) = groups::vat_breakdown(doc, lent, entries, tally.vat, c);
    held.hold_vat(row);
    Tally {
        vat: VatState {
            breakdowns: tally.vat.breakdowns + 1,
            ..after
        },
        ..tally
    }
}

// BG-20 or BG-21: the allowance or charge that element c is.
fn allowance_charge(
    doc: &Document,
    lent: &Lent,
    held: &mut HeldRows,
    entries: &mut Entries,
    tally: Tally,
    c: usize,
) -> Tally
    requires { (tally.allowances ≤ 4095) × (tally.charges ≤ 4095) }
    ensures { (p : Plain) (b : Billing) (m : Option Totals) (u : UnmappedRows) → Stepped allowance_charge (lent_of lent.now) (doc_of doc.now) (lent_text doc.now) c (state p tally b m) (state p result b m) held.old held.new entries.old entries.new u u }
{
    let a = tally.allowances;
    let b = tally.charges;
    let (charge, row) = charges::allowance_charge(doc, lent, entries, a, b, c);
    held.hold_allowance_charge(charge, row);
    if charge {
        return Tally {
            charges: b + 1,
            ..tally
        };
    }
    Tally {
        allowances: a + 1,
        ..tally
    }
}

// BG-21: the charge that a logistics charge is under a conformant extension.
fn logistics_charge(
    doc: &Document,
    lent: &Lent,
    held: &mut HeldRows,
    entries: &mut Entries,
    tally: Tally,
    c: usize,
) -> Tally
    requires { tally.charges ≤ 4095 }
    ensures { (p : Plain) (b : Billing) (m : Option Totals) (u : UnmappedRows) → Stepped logistics_charge (lent_of lent.now) (doc_of doc.now) (lent_text doc.now) c (state p tally b m) (state p result b m) held.old held.new entries.old entries.new u u }
{
    match charges::logistics_charge(doc, lent, entries, tally.charges, c) {
        None => tally,
        Some(row) => {
            held.hold_allowance_charge(true, row);
            Tally {
                charges: tally.charges + 1,
                ..tally
            }
        }
    }
}

// BG-3: the preceding invoice that element c is.
fn preceding_invoice(
    doc: &Document,
    lent: &Lent,
    held: &mut HeldRows,
    entries: &mut Entries,
    tally: Tally,
    c: usize,
) -> Tally
    requires { tally.invoices ≤ 4095 }
    ensures { (currency : List ℕ) (p : Plain) (b : Billing) (m : Option Totals) (u : UnmappedRows) → Stepped preceding_invoice (lent_for lent.now currency) (doc_of doc.now) (lent_text doc.now) c (state p tally b m) (state p result b m) held.old held.new entries.old entries.new u u }
{
    let row = groups::preceding(doc, lent, entries, tally.invoices, c);
    held.hold_preceding(row);
    Tally {
        invoices: tally.invoices + 1,
        ..tally
    }
}

// The rows that element c makes, by its kind.
pub(crate) fn row_child(
    doc: &Document,
    lent: &Lent,
    held: &mut HeldRows,
    entries: &mut Entries,
    tally: Tally,
    kind: RowKind,
    c: usize,
) -> Tally
    requires { Counted tally 4095 }
    ensures { (p : Plain) (b : Billing) (m : Option Totals) (u : UnmappedRows) → Stepped (row_is kind) (lent_of lent.now) (doc_of doc.now) (lent_text doc.now) c (state p tally b m) (state p result b m) held.old held.new entries.old entries.new u u }
{
    match kind {
        RowKind::TradeTax => vat_breakdown(doc, lent, held, entries, tally, c),
        RowKind::AllowanceCharge => allowance_charge(doc, lent, held, entries, tally, c),
        RowKind::LogisticsCharge => logistics_charge(doc, lent, held, entries, tally, c),
        RowKind::PrecedingInvoice => preceding_invoice(doc, lent, held, entries, tally, c),
    }
}
