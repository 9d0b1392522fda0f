// The children that make no rows and no entries: references, currencies, payee and accounting.
ghost use Rattle.std.specs.Prelude.{Option};
ghost use Rattle.settlement.specs.Values.{Lent};
ghost use Rattle.element.specs.LinkDoc.{doc_of, lent_text};
ghost use Rattle.report.specs.declared.held.HeldRows.{HeldRows};
ghost use Rattle.kinds.specs.Kinds.{plain_is};
ghost use Rattle.steps.specs.States.{state};
ghost use Rattle.steps.specs.Steps.{Stepped};
ghost use Rattle.steps.specs.declared.state.Tally.{Tally};
ghost use Rattle.steps.specs.declared.state.Billing.{Billing};
ghost use Rattle.totals.specs.declared.state.Totals.{Totals};
ghost use Rattle.unmapped.specs.declared.note.UnmappedRows.{UnmappedRows};
ghost use Rattle.values.specs.declared.saying.Entries.{Entries};

use crate::state::Plain;
use element::Document;
use kinds::PlainKind;

// BT-90, BT-83, BT-6, BT-5, BG-10 or BT-19: the one that element c is.
pub fn plain_child(doc: &Document, plain: Plain, kind: PlainKind, c: usize) -> Plain
    ensures { (L : Lent) (t : Tally) (b : Billing) (m : Option Totals) (h : HeldRows) (e : Entries) (u : UnmappedRows) → Stepped (plain_is kind) L (doc_of doc.now) (lent_text doc.now) c (state plain t b m) (state result t b m) h h e e u u }
{
    match kind {
        PlainKind::CreditorReference => Plain {
            creditor: doc.text_in(0, c),
            ..plain
        },
        PlainKind::PaymentReference => Plain {
            reference: Some(doc.text_in(0, c)),
            ..plain
        },
        PlainKind::TaxCurrency => Plain {
            tax_currency: Some(doc.own_text(0, c)),
            ..plain
        },
        PlainKind::InvoiceCurrency => Plain {
            invoice_currency: Some(doc.own_text(0, c)),
            ..plain
        },
        PlainKind::Payee => Plain {
            payee: Some(groups::payee(doc, c)),
            ..plain
        },
        PlainKind::Accounting => Plain {
            accounting: doc.kid_text(0, c, b"ID"),
            ..plain
        },
    }
}
