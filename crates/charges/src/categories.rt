// The VAT category and rate of an allowance or a charge.
ghost use Rattle.std.specs.Prelude.{List, ℕ};
ghost use Rattle.text.specs.Options.{option_of};
ghost use Rattle.report.specs.Values.{place_of, percent_of};
ghost use Rattle.element.specs.LinkDoc.{doc_of};
ghost use Rattle.values.specs.Sites.{lent_for};
ghost use Rattle.values.specs.Told.{Told};
ghost use Rattle.charges.specs.Charges.{group_terms_of, tax_paths_of, no_category, category_found};

use crate::shapes::{Group, TaxPaths};
use element::Document;
use groups::{Category, CategoryRate};
use names::Path;
use report::Place;
use values::{Entries, Lent};

// What is answered for a category whose element is missing, which is said with the path of its parent.
#[tactic(auto, unfolding(crate::specs::Charges::no_category))]
fn absent(entries: &mut Entries, rules: u32, parent: Path, g: Group) -> CategoryRate
    ensures { Told (no_category rules parent (group_terms_of g) g.index) entries.old ((place_of result.category, percent_of result.rate)) entries.new }
{
    let site = values::grouped(parent, g.category, g.index);
    entries.missing(rules, g.category_rule, site);
    CategoryRate {
        category: Place::new(0, 0, 0),
        rate: None,
    }
}

// The category in a child e that was looked for.
#[tactic(auto, unfolding(crate::specs::Charges::category_found, settlement::specs::Tax::category_in, groups::specs::Categories::category_says))]
pub(crate) fn required_trade_tax(
    doc: &Document,
    lent: &Lent,
    entries: &mut Entries,
    p: TaxPaths,
    g: Group,
    e: Option<usize>,
) -> CategoryRate
    ensures { (currency : List ℕ) → Told (category_found (lent_for lent.now currency) (doc_of doc.now) (tax_paths_of p) (group_terms_of g) g.index (option_of e)) entries.old ((place_of result.category, percent_of result.rate)) entries.new }
{
    match e {
        None => absent(entries, lent.rules, p.parent, g),
        Some(e) => {
            let of = Category {
                code: p.type_code,
                whole: p.whole,
                share: p.rate,
                category: g.category,
                rate: g.rate,
                rule: g.category_rule,
            };
            groups::trade_tax(doc, lent, entries, of, g.index, e)
        }
    }
}
