// BT-81 and BT-82: the code and the text of a payment means.
ghost use Rattle.std.specs.Prelude.{◌≡◌};
ghost use Rattle.std.proofs.Math.Option.{some};
ghost use Rattle.report.specs.Values.{text_of};
ghost use Rattle.report.specs.declared.held.HeldRows.{HeldRows};
ghost use Rattle.settlement.specs.Document.{or_else};
ghost use Rattle.settlement.specs.Values.{own_text, text_in};
ghost use Rattle.settlement.specs.Payments.{type_code, information, part};
ghost use Rattle.element.specs.LinkDoc.{doc_of, lent_text};
ghost use Rattle.unmapped.specs.declared.note.UnmappedRows.{UnmappedRows};
ghost use Rattle.values.specs.declared.saying.Entries.{Entries};
ghost use Rattle.payment.specs.Walks.{paying_of};
ghost use Rattle.payment.specs.Walked.{Walked};

use crate::paying::{Payment, Walk};
use element::Document;
use report::Place;

// The first code: that of element c, even where it is blank, where there is none before.
fn first_code(doc: &Document, earlier: Option<Place>, c: usize) -> Option<Place>
    ensures { text_of result ≡ or_else (text_of earlier) (some (own_text (doc_of doc.now) 0 c)) }
{
    match earlier {
        None => Some(doc.own_text(0, c)),
        Some(_) => earlier,
    }
}

// The first text that is not blank: that of element c where there is none before.
fn first_text(doc: &Document, earlier: Option<Place>, c: usize) -> Option<Place>
    ensures { text_of result ≡ or_else (text_of earlier) (text_in (doc_of doc.now) 0 c) }
{
    match earlier {
        None => doc.text_in(0, c),
        Some(_) => earlier,
    }
}

// A child TypeCode (BT-81).
pub(crate) fn type_code(doc: &Document, walk: Walk, c: usize) -> Walk
    ensures { (h : HeldRows) (e : Entries) (u : UnmappedRows) → Walked (part (doc_of doc.now) type_code (paying_of walk) c) walk result (lent_text doc.now) h h e e u u }
{
    Walk {
        payment: Payment {
            met: true,
            code: first_code(doc, walk.payment.code, c),
            ..walk.payment
        },
        ..walk
    }
}

// A child Information (BT-82).
pub(crate) fn information(doc: &Document, walk: Walk, c: usize) -> Walk
    ensures { (h : HeldRows) (e : Entries) (u : UnmappedRows) → Walked (part (doc_of doc.now) information (paying_of walk) c) walk result (lent_text doc.now) h h e e u u }
{
    Walk {
        payment: Payment {
            met: true,
            text: first_text(doc, walk.payment.text, c),
            ..walk.payment
        },
        ..walk
    }
}
