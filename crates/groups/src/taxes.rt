// BG-23 VAT breakdown, with the VAT point date and code of the invoice.
ghost use Rattle.text.specs.Options.{option_of};
ghost use Rattle.std.specs.Prelude.{◌≡◌};
ghost use Rattle.std.proofs.Math.Option.{some};
ghost use Rattle.names.specs.declared.path.Path.TheVariants as PathOf;
ghost use Rattle.report.specs.Values.{place_of, text_of, vat_of};
ghost use Rattle.settlement.specs.Values.{grouped};
ghost use Rattle.element.specs.LinkDoc.{doc_of, lent_text};
ghost use Rattle.values.specs.Sites.{lent_of};
ghost use Rattle.values.specs.Told.{Told};
ghost use Rattle.amounts.specs.Amounts.{Wanted};
ghost use Rattle.groups.specs.Taxes.{vat_state_of, vat_category, fresh_code_of, again_code_of, point_date_found, point_code_in, point_found, trade_tax_says};

use crate::categories::category_of;
use crate::shapes::{Category, CategoryKids, VatState};
use amounts::Required;
use codes::Rule;
use element::Document;
use names::{Message, Path, Term};
use report::{Place, Vat};
use values::{DatePaths, Entries, Lent};

// BT-7: the point date so far, or that of a child e.
fn point_date(
    doc: &Document,
    mode: u32,
    entries: &mut Entries,
    s: VatState,
    e: Option<usize>,
) -> Option<u32>
    ensures { Told (point_date_found mode (doc_of doc.now) (vat_state_of s) (option_of e)) entries.old (option_of result) entries.new }
{
    match s.point {
        Some(day) => Some(day),
        None => {
            let paths = DatePaths {
                point: true,
                time: Path::TaxPointDateTimeString,
                day: Path::TaxPointDateString,
            };
            values::date(doc, mode, entries, paths, e)
        }
    }
}

// BT-8: the first code, kept as it is written; one that is not known is said.
fn fresh_code(doc: &Document, entries: &mut Entries, s: VatState, p: Place) -> VatState
    ensures { Told (fresh_code_of (lent_text doc.now) (vat_state_of s) (place_of p)) entries.old (vat_state_of result) entries.new }
{
    let code = codes::vat_point_date_code_from_cii(doc.shown(p));
    if code.is_none() {
        let site = values::site(Path::TradeTaxDueDateTypeCode, Some(Term::Bt8));
        entries.say(Message::UnknownVatPointCode, site, Some(p));
    }
    VatState {
        code,
        first: Some(p),
        ..s
    }
}

// A further code, which is said where it is not written as the first.
fn again_code(
    doc: &Document,
    entries: &mut Entries,
    s: VatState,
    p: Place,
    first: Place,
) -> VatState
    ensures { Told (again_code_of (lent_text doc.now) (vat_state_of s) (place_of p) (place_of first)) entries.old (vat_state_of result) entries.new }
{
    if !text::same(doc.shown(first), doc.shown(p)) {
        let site = values::site(Path::SettlementTradeTaxDueDateTypeCode, Some(Term::Bt8));
        entries.say(Message::SecondVatPointCode, site, Some(p));
    }
    s
}

// BT-8 after a breakdown: no code in it, the first, or a further one.
fn point_code(doc: &Document, entries: &mut Entries, s: VatState, code: Option<Place>) -> VatState
    ensures { Told (point_code_in (lent_text doc.now) (vat_state_of s) (text_of code)) entries.old (vat_state_of result) entries.new }
{
    match code {
        None => s,
        Some(p) => match s.first {
            None => fresh_code(doc, entries, s, p),
            Some(first) => again_code(doc, entries, s, p, first),
        },
    }
}

// BT-7 and BT-8 after a breakdown, by the children of their names.
fn point(
    doc: &Document,
    mode: u32,
    entries: &mut Entries,
    s: VatState,
    date: Option<usize>,
    code: Option<usize>,
) -> VatState
    ensures { Told (point_found mode (doc_of doc.now) (lent_text doc.now) (vat_state_of s) (option_of date) (option_of code)) entries.old (vat_state_of result) entries.new }
{
    let point = point_date(doc, mode, entries, s, date);
    let code = doc.child_text(0, code);
    let after = point_code(doc, entries, s, code);
    VatState {
        point,
        code: after.code,
        first: after.first,
        ..s
    }
}

// An amount that the VAT breakdown of an index must have, by its rule, its path and its term.
fn wanted(rule: Rule, path: Path, term: Term, index: u32) -> Required
    ensures { Wanted result rule PathOf.SettlementTradeTax (grouped path (some term) index) }
{
    Required {
        rule,
        group: Path::SettlementTradeTax,
        site: values::grouped(path, Some(term), index),
    }
}

// Where the category and rate of a VAT breakdown are said.
fn vat_category() -> Category
    ensures { result ≡ vat_category }
{
    Category {
        code: Path::TradeTaxTypeCode,
        whole: Path::SettlementTradeTax,
        share: Path::TradeTaxRateApplicablePercent,
        category: Some(Term::Bt118),
        rate: Some(Term::Bt119),
        rule: Rule::Br47,
    }
}

// The VAT breakdown that element n is, after those counted so far, and what it makes of BT-7 and BT-8.
pub fn vat_breakdown(
    doc: &Document,
    lent: &Lent,
    entries: &mut Entries,
    s: VatState,
    n: usize,
) -> (VatState, Vat)
    ensures { Told (trade_tax_says (lent_of lent.now) (doc_of doc.now) (vat_state_of s) n) entries.old ((vat_state_of result.0, vat_of result.1)) entries.new }
{
    let mut kids = [None; 9];
    let names: [&[u8]; 9] = [
        b"TaxPointDate",
        b"DueDateTypeCode",
        b"BasisAmount",
        b"CalculatedAmount",
        b"TypeCode",
        b"CategoryCode",
        b"RateApplicablePercent",
        b"ExemptionReason",
        b"ExemptionReasonCode",
    ];
    doc.first_children(n, &names, &mut kids);
    let [date, due, basis, tax, kind, code, rate, reason, reason_code] = kids;
    let found = CategoryKids { kind, code, rate };
    let state = point(doc, lent.mode, entries, s, date, due);
    let index = s.breakdowns;
    let q = wanted(Rule::Br45, Path::TradeTaxBasisAmount, Term::Bt116, index);
    let taxable = amounts::required_amount(doc, lent, entries, q, basis);
    let q = wanted(
        Rule::Br46,
        Path::TradeTaxCalculatedAmount,
        Term::Bt117,
        index,
    );
    let tax = amounts::required_amount(doc, lent, entries, q, tax);
    let category = category_of(doc, lent, entries, vat_category(), index, found);
    let vat = Vat {
        taxable,
        tax,
        category: category.category,
        rate: category.rate,
        reason: doc.child_text(0, reason),
        code: doc.child_text(0, reason_code),
    };
    (state, vat)
}
