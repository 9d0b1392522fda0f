// Tax totals: BT-110 and BT-111.
ghost use Rattle.std.specs.Prelude.{◌≡◌, cond, ◌&&◌, List};
ghost use Rattle.report.specs.Rows as rows;
ghost use Rattle.report.specs.Values.{place_of, text_of, amount_of};
ghost use Rattle.settlement.specs.Summation.{is_none, is_currency, tax_in, tax_total_of};
ghost use Rattle.settlement.specs.Values.{Lent};
ghost use Rattle.element.specs.LinkDoc.{doc_of};
ghost use Rattle.values.specs.Told.{Said, Told};
ghost use Rattle.values.specs.declared.saying.Entries.{Entries};
ghost use Rattle.totals.specs.Reading.{currencies, taxes_of, taxing, taxed};

use crate::state::Currencies;
use amount::InvoiceAmount;
use element::Document;
use names::{Message, Path, Term};
use report::Place;
use values::Entries;

// BT-110 and BT-111.
#[derive(Clone, Copy)]
pub(crate) struct Taxes {
    pub(crate) vat: Option<InvoiceAmount>,
    pub(crate) accounting: Option<InvoiceAmount>,
}

// Whether a currency was read and is this.
#[tactic(auto, unfolding(settlement::specs::Summation::is_currency))]
fn is_currency(doc: &Document, read: Option<Place>, id: Place) -> bool
    ensures { result ≡ is_currency (doc_of doc.now) (text_of read) (place_of id) }
{
    match read {
        None => false,
        Some(p) => text::same(doc.shown(p), doc.shown(id)),
    }
}

// BT-110 after a tax total in BT-6: its amount, if BT-6 is BT-5 and BT-110 is absent.
fn vat_beside(
    both: bool,
    held: Option<InvoiceAmount>,
    read: Option<InvoiceAmount>,
) -> Option<InvoiceAmount>
    ensures { amount_of result ≡ cond (both && is_none (amount_of held)) (amount_of read) (amount_of held) }
{
    if both && held.is_none() { read } else { held }
}

// The two after a tax total of an amount in a currency: BT-111 in BT-6, BT-110 in BT-5; one in neither is said,
// behind what was said before.
#[tactic(auto, unfolding(settlement::specs::Summation::tax_in, settlement::specs::Summation::with_vat))]
fn tax_in(
    doc: &Document,
    entries: &mut Entries,
    read: Currencies,
    taxes: Taxes,
    amount: Option<InvoiceAmount>,
    id: Place,
) -> Taxes
    ensures { (es : List (rows.Entry rows.Place)) (e : Entries) → Said es e entries.old → Told (taxed (tax_in (doc_of doc.now) (currencies read) (amount_of amount) es (taxing (taxes_of taxes)) (place_of id))) e (taxes_of result) entries.new }
{
    let is_vat = is_currency(doc, read.bt5, id);
    if is_currency(doc, read.bt6, id) {
        return Taxes {
            vat: vat_beside(is_vat, taxes.vat, amount),
            accounting: amount,
        };
    }
    if is_vat {
        return Taxes {
            vat: amount,
            ..taxes
        };
    }
    let site = values::site(Path::SummationTaxTotalAmount, Some(Term::Bt110));
    entries.say(Message::TaxTotalCurrency, site, Some(id));
    taxes
}

// The two after child c, a tax total: BT-110 where it has no currencyID.
#[tactic(auto, unfolding(settlement::specs::Summation::tax_total_of, settlement::specs::Summation::with_vat, text::specs::Utf8::bytes, text::specs::Utf8::encode))]
pub(crate) fn tax_total(
    doc: &Document,
    mode: u32,
    entries: &mut Entries,
    read: Currencies,
    taxes: Taxes,
    c: usize,
) -> Taxes
    ensures { (L : Lent) → L.mode ≡ mode → Told (taxed (tax_total_of L (doc_of doc.now) (currencies read) (taxing (taxes_of taxes)) c)) entries.old (taxes_of result) entries.new }
{
    let amount = amounts::tax_amount(doc, mode, entries, c);
    match doc.attribute(c, b"currencyID") {
        None => Taxes {
            vat: amount,
            ..taxes
        },
        Some(p) => tax_in(doc, entries, read, taxes, amount, p),
    }
}
