// The child that is the summation.
ghost use Rattle.report.specs.declared.held.HeldRows.{HeldRows};
ghost use Rattle.settlement.specs.Kinds.{summation};
ghost use Rattle.element.specs.LinkDoc.{doc_of, lent_text};
ghost use Rattle.values.specs.Sites.{lent_of};
ghost use Rattle.std.specs.Prelude.{Option, Some};
ghost use Rattle.totals.specs.declared.state.Totals as TotalsOf;
ghost use Rattle.steps.specs.States.{state};
ghost use Rattle.steps.specs.Steps.{Stepped};
ghost use Rattle.steps.specs.declared.state.Tally.{Tally};
ghost use Rattle.steps.specs.declared.state.Billing.{Billing};

use crate::state::Plain;
use element::Document;
use totals::{Currencies, Totals};
use unmapped::UnmappedRows;
use values::{Entries, Lent};

// BG-22: the totals that element c is, by BT-5 and BT-6 as read so far.
pub fn summation(
    doc: &Document,
    lent: &Lent,
    entries: &mut Entries,
    unmapped: &mut UnmappedRows,
    plain: Plain,
    c: usize,
) -> Totals
    ensures { (t : Tally) (b : Billing) (m : Option TotalsOf.Totals) (h : HeldRows) → Stepped summation (lent_of lent.now) (doc_of doc.now) (lent_text doc.now) c (state plain t b m) (state plain t b (Some result)) h h entries.old entries.new unmapped.old unmapped.new }
{
    let read = Currencies {
        bt5: plain.invoice_currency,
        bt6: plain.tax_currency,
    };
    totals::totals(doc, lent, entries, unmapped, read, c)
}
