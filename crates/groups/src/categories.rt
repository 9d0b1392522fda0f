// The VAT category and rate of a breakdown, an allowance or a charge.
ghost use Rattle.report.specs.Values.{place_of, percent_of};
ghost use Rattle.element.specs.LinkDoc.{doc_of, lent_text};
ghost use Rattle.values.specs.Told.{Told};
ghost use Rattle.groups.specs.Categories.{category_found, category_says};

use crate::shapes::{Category, CategoryKids, CategoryRate};
use element::Document;
use values::{Entries, Lent};

// The category of children that were looked for: its type code must be VAT, the code is required, the rate is
// not.
pub(crate) fn category_of(
    doc: &Document,
    lent: &Lent,
    entries: &mut Entries,
    of: Category,
    index: u32,
    kids: CategoryKids,
) -> CategoryRate
    ensures { Told (category_found lent.now.mode lent.now.rules (doc_of doc.now) (lent_text doc.now) of index kids) entries.old ((place_of result.category, percent_of result.rate)) entries.new }
{
    let kind = doc.child_text(0, kids.kind);
    let site = values::grouped(of.code, of.category, index);
    values::say_non_vat(doc, entries, site, kind);
    let code = doc.child_text(0, kids.code);
    let site = values::grouped(of.whole, of.category, index);
    let category = values::required_code(entries, lent.rules, of.rule, site, code);
    let rate = doc.child_text(lent.mode, kids.rate);
    let site = values::grouped(of.share, of.rate, index);
    let rate = values::percent(doc, entries, site, rate);
    CategoryRate { category, rate }
}

// The category in element n.
pub fn trade_tax(
    doc: &Document,
    lent: &Lent,
    entries: &mut Entries,
    of: Category,
    index: u32,
    n: usize,
) -> CategoryRate
    ensures { Told (category_says lent.now.mode lent.now.rules (doc_of doc.now) of index n) entries.old ((place_of result.category, percent_of result.rate)) entries.new }
{
    let mut kids = [None; 3];
    let names: [&[u8]; 3] = [b"TypeCode", b"CategoryCode", b"RateApplicablePercent"];
    doc.first_children(n, &names, &mut kids);
    let [kind, code, rate] = kids;
    category_of(
        doc,
        lent,
        entries,
        of,
        index,
        CategoryKids { kind, code, rate },
    )
}
