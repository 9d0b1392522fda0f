// Amounts: optional, required, and a tax total's.
ghost use Rattle.std.specs.Prelude.{◌≡◌, pos};
ghost use Rattle.std.proofs.Math.Option.{some};
ghost use Rattle.report.specs.Values.{amount_of};
ghost use Rattle.settlement.specs.Document.{or};
ghost use Rattle.settlement.specs.Summation.{tax_amount};
ghost use Rattle.text.specs.Options.{option_of};
ghost use Rattle.element.specs.LinkDoc.{doc_of};
ghost use Rattle.values.specs.Sites.{site_of, lent_of};
ghost use Rattle.values.specs.Told.{Told};
ghost use Rattle.amounts.specs.Amounts.{amount_found, missing_amount, required_found};

use crate::heard::{hear, hear_text, parsed_or, tell};
use amount::InvoiceAmount;
use codes::Rule;
use element::Document;
use names::{Message, Path};
use values::{Entries, Lent, Site};

// A term that must be there: its rule, the path that is said where it is missing, and where it stands.
#[derive(Clone, Copy)]
pub struct Required {
    pub rule: Rule,
    pub group: Path,
    pub site: Site,
}

// The amount of a child e that was looked for, absent where there is none.
pub fn amount(
    doc: &Document,
    lent: &Lent,
    entries: &mut Entries,
    site: Site,
    e: Option<usize>,
) -> Option<InvoiceAmount>
    ensures { Told (amount_found (lent_of lent.now) (doc_of doc.now) (site_of site) (option_of e)) entries.old (amount_of result) entries.new }
{
    tell(entries, hear(doc, lent, e?), site)
}

// An amount, 0 where it is absent.
fn or_zero(a: Option<InvoiceAmount>) -> InvoiceAmount
    ensures { result.0 ≡ or (pos 0) (amount_of a) }
{
    match a {
        None => InvoiceAmount::zero(),
        Some(x) => x,
    }
}

// What is answered for a required amount that is missing, which is said with the path of its group.
fn absent(entries: &mut Entries, rules: u32, wanted: Required) -> InvoiceAmount
    ensures { Told (missing_amount rules wanted) entries.old result.0 entries.new }
{
    let site = values::moved(wanted.site, wanted.group);
    entries.missing(rules, wanted.rule, site);
    InvoiceAmount::zero()
}

// A required amount, of a child e that is there: 0 where its text is missing or fails.
fn required_of(
    doc: &Document,
    lent: &Lent,
    entries: &mut Entries,
    wanted: Required,
    e: usize,
) -> InvoiceAmount
    ensures { Told (required_found (lent_of lent.now) (doc_of doc.now) wanted (some e)) entries.old result.0 entries.new }
{
    match doc.text_in(lent.mode, e) {
        None => absent(entries, lent.rules, wanted),
        Some(own) => {
            let heard = hear_text(doc, lent.currency, e, own);
            or_zero(tell(entries, heard, wanted.site))
        }
    }
}

// A required amount, of a child e that was looked for: 0 where it is missing or fails.
pub fn required_amount(
    doc: &Document,
    lent: &Lent,
    entries: &mut Entries,
    wanted: Required,
    e: Option<usize>,
) -> InvoiceAmount
    ensures { Told (required_found (lent_of lent.now) (doc_of doc.now) wanted (option_of e)) entries.old result.0 entries.new }
{
    match e {
        None => absent(entries, lent.rules, wanted),
        Some(e) => required_of(doc, lent, entries, wanted, e),
    }
}

// The amount that a tax total spells; anything else is unreadable.
pub fn tax_amount(
    doc: &Document,
    mode: u32,
    entries: &mut Entries,
    e: usize,
) -> Option<InvoiceAmount>
    ensures { Told (tax_amount mode (doc_of doc.now) e) entries.old (amount_of result) entries.new }
{
    let site = values::site(Path::SummationTaxTotalAmount, None);
    let own = doc.own_text(mode, e);
    let heard = parsed_or(doc, own, Message::TaxTotalUnreadable);
    tell(entries, heard, site)
}
