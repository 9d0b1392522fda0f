// A payment means read into the payment so far, which is lent by `&mut`, as read.rs has its
// `payment_means`. The work is crate `payment`'s, which takes the payment by value.
//
// Every function takes all numbers and all lists. No public function has a `requires`, and the crate
// assumes nothing of its own.
#![tactic(auto)]

ghost use Rattle.settlement.specs.Payments.{payment_means_of};
ghost use Rattle.element.specs.LinkDoc.{doc_of, lent_text};
ghost use Rattle.unmapped.specs.Acted.{Acted};
ghost use Rattle.payment.specs.Walks.{payment_of};

use element::Document;
use payment::Payment;
use report::HeldRows;
use unmapped::UnmappedRows;
use values::Entries;

// Fills in the payment that is lent, by the payment means that is element n.
pub fn payment_means(
    doc: &Document,
    held: &mut HeldRows,
    entries: &mut Entries,
    unmapped: &mut UnmappedRows,
    payment: &mut Payment,
    n: usize,
)
    ensures { Acted (payment_means_of (doc_of doc.now) (payment_of payment.old) n) (lent_text doc.now) (payment_of payment.new) held.old held.new entries.old entries.new unmapped.old unmapped.new }
{
    *payment = payment::fill_in(doc, held, entries, unmapped, *payment, n);
}

// The lent form on a payment held by value, as `steps` has it: what a caller that lends a local gets is what
// `payment::fill_in` answers, whose contract this has.
pub fn filled_in(
    doc: &Document,
    held: &mut HeldRows,
    entries: &mut Entries,
    unmapped: &mut UnmappedRows,
    payment: Payment,
    n: usize,
) -> Payment
    ensures { Acted (payment_means_of (doc_of doc.now) (payment_of payment) n) (lent_text doc.now) (payment_of result) held.old held.new entries.old entries.new unmapped.old unmapped.new }
{
    let mut so_far = payment;
    payment_means(doc, held, entries, unmapped, &mut so_far, n);
    so_far
}
