// The children of a summation, one after the other.
ghost use Rattle.std.specs.Prelude.{◌≡◌};
ghost use Rattle.report.specs.declared.held.HeldRows.{HeldRows};
ghost use Rattle.settlement.specs.Summation.{summing, summed};
ghost use Rattle.settlement.specs.Values as reading;
ghost use Rattle.element.specs.LinkDoc.{doc_of, lent_text};
ghost use Rattle.values.specs.Sites.{lent_of};
ghost use Rattle.unmapped.specs.Acted.{Acted};
ghost use Rattle.totals.specs.Reading.{currencies, taxes_of, taxes, taxing, sums_of, amounts, made, Hears};

use crate::firsts::{Firsts, amount_of, hear_firsts, say_again};
use crate::state::{Currencies, Frame, Sums};
use crate::sum::{Sum, sum_of};
use crate::tax::{Taxes, tax_total};
use element::Document;
use names::Parent;
use report::Unmapped;
use unmapped::UnmappedRows;
use values::{Entries, Lent};

// BT-110 and BT-111 after child c, by those before it.
fn read_child(
    doc: &Document,
    entries: &mut Entries,
    unmapped: &mut UnmappedRows,
    frame: Frame,
    firsts: &Firsts,
    earlier: Taxes,
    c: usize,
) -> Taxes
    ensures { (L : reading.Lent) (h : HeldRows) → L.mode ≡ frame.mode → Hears L (doc_of doc.now) frame.n firsts.now → Acted (made taxes (summing L (doc_of doc.now) (currencies frame.read) frame.n (taxing (taxes_of earlier)) c)) (lent_text doc.now) (taxes_of result) h h entries.old entries.new unmapped.old unmapped.new }
{
    match sum_of(doc, c) {
        Sum::Required => earlier,
        Sum::Optional(which) => {
            say_again(entries, firsts, which);
            earlier
        }
        Sum::TaxTotal => tax_total(doc, frame.mode, entries, frame.read, earlier, c),
        Sum::Unread => {
            let element = Unmapped {
                parent: Parent::MonetarySummation,
                name: doc.name(c),
            };
            unmapped.note(doc.text(), element);
            earlier
        }
    }
}

// BT-110 and BT-111 after all children, each read by its name.
fn read_children(
    doc: &Document,
    entries: &mut Entries,
    unmapped: &mut UnmappedRows,
    frame: Frame,
    firsts: &Firsts,
) -> Taxes
    ensures { (L : reading.Lent) (h : HeldRows) → L.mode ≡ frame.mode → Hears L (doc_of doc.now) frame.n firsts.now → Acted (made taxes (summed L (doc_of doc.now) (currencies frame.read) frame.n)) (lent_text doc.now) (taxes_of result) h h entries.old entries.new unmapped.old unmapped.new }
{
    let mut taxes = Taxes {
        vat: None,
        accounting: None,
    };
    for c in doc.kids(frame.n) {
        taxes = read_child(doc, entries, unmapped, frame, firsts, taxes, c);
    }
    taxes
}

// The amounts that may be absent, after all children.
pub(crate) fn sums(
    doc: &Document,
    lent: &Lent,
    entries: &mut Entries,
    unmapped: &mut UnmappedRows,
    read: Currencies,
    n: usize,
) -> Sums
    ensures { (h : HeldRows) → Acted (made amounts (summed (lent_of lent.now) (doc_of doc.now) (currencies read) n)) (lent_text doc.now) (sums_of result) h h entries.old entries.new unmapped.old unmapped.new }
{
    let firsts = hear_firsts(doc, lent, n);
    let frame = Frame {
        mode: lent.mode,
        read,
        n,
    };
    let taxes = read_children(doc, entries, unmapped, frame, &firsts);
    Sums {
        allowance: amount_of(firsts.allowance),
        charge: amount_of(firsts.charge),
        vat: taxes.vat,
        accounting: taxes.accounting,
        paid: amount_of(firsts.paid),
        rounding: amount_of(firsts.rounding),
    }
}
