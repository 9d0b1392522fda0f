// The children that say when and how is paid: billing period, payment terms, and payment means with its
// transfers.
ghost use Rattle.std.specs.Prelude.{List, Option, ℕ};
ghost use Rattle.report.specs.declared.held.HeldRows.{HeldRows};
ghost use Rattle.settlement.specs.Kinds.{period, payment_terms, payment_means};
ghost use Rattle.settlement.specs.Values as reading;
ghost use Rattle.element.specs.LinkDoc.{doc_of, lent_text};
ghost use Rattle.values.specs.Sites.{lent_for};
ghost use Rattle.kinds.specs.Kinds.{billing_is};
ghost use Rattle.totals.specs.declared.state.Totals.{Totals};
ghost use Rattle.unmapped.specs.declared.note.UnmappedRows.{UnmappedRows};
ghost use Rattle.steps.specs.States.{state};
ghost use Rattle.steps.specs.Steps.{Stepped};
ghost use Rattle.steps.specs.declared.state.Plain.{Plain};
ghost use Rattle.steps.specs.declared.state.Tally.{Tally};

use crate::state::Billing;
use element::Document;
use kinds::BillingKind;
use report::HeldRows;
use unmapped::UnmappedRows;
use values::{Entries, Lent};

// BG-14: the billing period that element c is.
fn period(doc: &Document, lent: &Lent, entries: &mut Entries, billing: Billing, c: usize) -> Billing
    ensures { (currency : List ℕ) (p : Plain) (t : Tally) (m : Option Totals) (h : HeldRows) (u : UnmappedRows) → Stepped period (lent_for lent.now currency) (doc_of doc.now) (lent_text doc.now) c (state p t billing m) (state p t result m) h h entries.old entries.new u u }
{
    let period = groups::period(doc, lent.mode, entries, c);
    Billing {
        period: Some(period),
        ..billing
    }
}

// BT-20, BT-9 and BT-89: the payment terms that element c is.
fn payment_terms(
    doc: &Document,
    lent: &Lent,
    entries: &mut Entries,
    billing: Billing,
    c: usize,
) -> Billing
    ensures { (currency : List ℕ) (p : Plain) (t : Tally) (m : Option Totals) (h : HeldRows) (u : UnmappedRows) → Stepped payment_terms (lent_for lent.now currency) (doc_of doc.now) (lent_text doc.now) c (state p t billing m) (state p t result m) h h entries.old entries.new u u }
{
    let terms = groups::payment_terms(doc, lent.mode, entries, c);
    Billing { terms, ..billing }
}

// BG-16: the payment so far, filled in by the payment means that element c is.
fn payment(
    doc: &Document,
    held: &mut HeldRows,
    entries: &mut Entries,
    unmapped: &mut UnmappedRows,
    billing: Billing,
    c: usize,
) -> Billing
    ensures { (L : reading.Lent) (p : Plain) (t : Tally) (m : Option Totals) → Stepped payment_means L (doc_of doc.now) (lent_text doc.now) c (state p t billing m) (state p t result m) held.old held.new entries.old entries.new unmapped.old unmapped.new }
{
    let payment = lent_payment::filled_in(doc, held, entries, unmapped, billing.payment, c);
    Billing { payment, ..billing }
}

// What element c says of when or how is paid, by its kind.
pub fn billing_child(
    doc: &Document,
    lent: &Lent,
    held: &mut HeldRows,
    entries: &mut Entries,
    unmapped: &mut UnmappedRows,
    billing: Billing,
    kind: BillingKind,
    c: usize,
) -> Billing
    ensures { (currency : List ℕ) (p : Plain) (t : Tally) (m : Option Totals) → Stepped (billing_is kind) (lent_for lent.now currency) (doc_of doc.now) (lent_text doc.now) c (state p t billing m) (state p t result m) held.old held.new entries.old entries.new unmapped.old unmapped.new }
{
    match kind {
        BillingKind::Period => period(doc, lent, entries, billing, c),
        BillingKind::PaymentTerms => payment_terms(doc, lent, entries, billing, c),
        BillingKind::PaymentMeans => payment(doc, held, entries, unmapped, billing, c),
    }
}
