// The walk over the children of a payment means.
ghost use mathlib.Core.List.{foldl};
ghost use Rattle.report.specs.declared.held.HeldRows.{HeldRows};
ghost use Rattle.settlement.specs.Payments.{unknown, part, paying, payment_means_of};
ghost use Rattle.element.specs.LinkDoc.{doc_of, lent_text};
ghost use Rattle.values.specs.declared.saying.Entries.{Entries};
ghost use Rattle.unmapped.specs.Acted.{Acted};
ghost use Rattle.payment.specs.Walks.{payment_of, paying_of};
ghost use Rattle.payment.specs.Walked.{Walked};

use crate::accounts::{creditor_account, institution, put_waiting};
use crate::card_or_debit::{debtor_account, financial_card};
use crate::instructions::{information, type_code};
use crate::parts::{Part, part_of};
use crate::paying::{Payment, Walk};
use element::Document;
use names::Parent;
use report::{HeldRows, Unmapped};
use unmapped::UnmappedRows;
use values::Entries;

// A child that is not mapped is noted.
// A call of `note`, as in `children` and `totals`, under the contract of its own step.
fn unmapped_part(doc: &Document, unmapped: &mut UnmappedRows, walk: Walk, c: usize) -> Walk
    ensures { (h : HeldRows) (e : Entries) → Walked (part (doc_of doc.now) unknown (paying_of walk) c) walk result (lent_text doc.now) h h e e unmapped.old unmapped.new }
{
    let element = Unmapped {
        parent: Parent::PaymentMeans,
        name: doc.name(c),
    };
    unmapped.note(doc.text(), element);
    walk
}

// One child more.
fn read_child(
    doc: &Document,
    held: &mut HeldRows,
    entries: &mut Entries,
    unmapped: &mut UnmappedRows,
    walk: Walk,
    c: usize,
) -> Walk
    ensures { Walked (paying (doc_of doc.now) (paying_of walk) c) walk result (lent_text doc.now) held.old held.new entries.old entries.new unmapped.old unmapped.new }
{
    match part_of(doc, c) {
        Part::TypeCode => type_code(doc, walk, c),
        Part::Information => information(doc, walk, c),
        Part::FinancialCard => financial_card(doc, entries, walk, c),
        Part::DebtorAccount => debtor_account(doc, entries, walk, c),
        Part::CreditorAccount => creditor_account(doc, held, entries, walk, c),
        Part::Institution => institution(doc, entries, walk, c),
        Part::Unknown => unmapped_part(doc, unmapped, walk, c),
    }
}

// All children of element n, from a walk on.
fn read_children(
    doc: &Document,
    held: &mut HeldRows,
    entries: &mut Entries,
    unmapped: &mut UnmappedRows,
    start: Walk,
    n: usize,
) -> Walk
    ensures { Walked (foldl (paying (doc_of doc.now)) (paying_of start) ((doc_of doc.now).kids n)) start result (lent_text doc.now) held.old held.new entries.old entries.new unmapped.old unmapped.new }
{
    let mut walk = start;
    for c in doc.kids(n) {
        walk = read_child(doc, held, entries, unmapped, walk, c);
    }
    walk
}

// Fills in the payment so far by the payment means that is element n.
pub fn fill_in(
    doc: &Document,
    held: &mut HeldRows,
    entries: &mut Entries,
    unmapped: &mut UnmappedRows,
    payment: Payment,
    n: usize,
) -> Payment
    ensures { Acted (payment_means_of (doc_of doc.now) (payment_of payment) n) (lent_text doc.now) (payment_of result) held.old held.new entries.old entries.new unmapped.old unmapped.new }
{
    // A payment means was met, and no account waits.
    let start = Walk {
        payment: Payment {
            met: true,
            ..payment
        },
        waiting: None,
    };
    let walk = read_children(doc, held, entries, unmapped, start, n);
    put_waiting(held, walk.waiting);
    walk.payment
}
