// The reader of a monetary summation.
ghost use Rattle.std.proofs.Math.Option.{some};
ghost use Rattle.names.specs.declared.path.Path.TheVariants as PathOf;
ghost use Rattle.report.specs.declared.held.HeldRows.{HeldRows};
ghost use Rattle.settlement.specs.Summation as reading;
ghost use Rattle.settlement.specs.Values.{site};
ghost use Rattle.element.specs.LinkDoc.{doc_of, lent_text};
ghost use Rattle.values.specs.Sites.{lent_of};
ghost use Rattle.amounts.specs.Amounts.{Wanted};
ghost use Rattle.unmapped.specs.Acted.{Acted};
ghost use Rattle.totals.specs.Reading.{currencies, totals_of};

use crate::state::{Currencies, Totals};
use crate::summands::sums;
use amounts::Required;
use codes::Rule;
use element::Document;
use names::{Path, Term};
use unmapped::UnmappedRows;
use values::{Entries, Lent};

// An amount that a summation must have, by its rule, its path and its term.
fn wanted(rule: Rule, path: Path, term: Term) -> Required
    ensures { Wanted result rule PathOf.SettlementSummation (site path (some term)) }
{
    Required {
        rule,
        group: Path::SettlementSummation,
        site: values::site(path, Some(term)),
    }
}

// The totals of a summation n, beside BT-5 and BT-6 as read so far: its children in order, then the
// amounts that it must have.
pub fn totals(
    doc: &Document,
    lent: &Lent,
    entries: &mut Entries,
    unmapped: &mut UnmappedRows,
    read: Currencies,
    n: usize,
) -> Totals
    ensures { (h : HeldRows) → Acted (reading.totals (lent_of lent.now) (doc_of doc.now) (currencies read) n) (lent_text doc.now) (some (totals_of result)) h h entries.old entries.new unmapped.old unmapped.new }
{
    let sums = sums(doc, lent, entries, unmapped, read, n);
    let mut kids = [None; 4];
    let names: [&[u8]; 4] = [
        b"LineTotalAmount",
        b"TaxBasisTotalAmount",
        b"GrandTotalAmount",
        b"DuePayableAmount",
    ];
    doc.first_children(n, &names, &mut kids);
    let [line, taxable, gross, due] = kids;
    let q = wanted(Rule::Br12, Path::SummationLineTotalAmount, Term::Bt106);
    let line = amounts::required_amount(doc, lent, entries, q, line);
    let q = wanted(Rule::Br13, Path::SummationTaxBasisTotalAmount, Term::Bt109);
    let taxable = amounts::required_amount(doc, lent, entries, q, taxable);
    let q = wanted(Rule::Br14, Path::SummationGrandTotalAmount, Term::Bt112);
    let gross = amounts::required_amount(doc, lent, entries, q, gross);
    let q = wanted(Rule::Br15, Path::SummationDuePayableAmount, Term::Bt115);
    let due = amounts::required_amount(doc, lent, entries, q, due);
    Totals {
        line,
        taxable,
        gross,
        due,
        sums,
    }
}
