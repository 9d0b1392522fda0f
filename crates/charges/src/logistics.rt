// A logistics charge: BG-21 under the identifier of a conformant extension, else message 20.
ghost use Rattle.std.specs.Prelude.{◌≡◌};
ghost use Rattle.report.specs.Values.{allowance_charge_of};
ghost use Rattle.settlement.specs.Tax.{applied_paths};
ghost use Rattle.element.specs.LinkDoc.{doc_of};
ghost use Rattle.values.specs.Sites.{lent_of};
ghost use Rattle.values.specs.Told.{Told};
ghost use Rattle.charges.specs.Charges.{tax_paths_of, maybe_charge_of, logistics_row, logistics_says};

use crate::categories::required_trade_tax;
use crate::grouping::{charge_group, wanted_amount};
use crate::shapes::TaxPaths;
use element::Document;
use names::{Message, Path};
use report::AllowanceCharge;
use values::{Entries, Lent};

// Where BT-102 and BT-103 of a logistics charge are said.
fn applied_paths() -> TaxPaths
    ensures { tax_paths_of result ≡ applied_paths }
{
    TaxPaths {
        type_code: Path::AppliedTradeTaxTypeCode,
        whole: Path::SettlementLogisticsChargeAppliedTradeTax,
        rate: Path::AppliedTradeTaxRateApplicablePercent,
        parent: Path::SettlementLogisticsCharge,
    }
}

// The row of a logistics charge n, the charge of this index: category and rate, amount.
fn logistics_row(
    doc: &Document,
    lent: &Lent,
    entries: &mut Entries,
    index: u32,
    n: usize,
) -> AllowanceCharge
    ensures { Told (logistics_row (lent_of lent.now) (doc_of doc.now) index n) entries.old (allowance_charge_of result) entries.new }
{
    let mut kids = [None; 3];
    let names: [&[u8]; 3] = [b"AppliedTradeTax", b"AppliedAmount", b"Description"];
    doc.first_children(n, &names, &mut kids);
    let [tax, applied, description] = kids;
    let g = charge_group(index);
    let tax = required_trade_tax(doc, lent, entries, applied_paths(), g, tax);
    let wanted = wanted_amount(
        g,
        Path::SettlementLogisticsCharge,
        Path::LogisticsChargeAppliedAmount,
    );
    let amount = amounts::required_amount(doc, lent, entries, wanted, applied);
    AllowanceCharge {
        amount,
        base: None,
        percentage: None,
        category: tax.category,
        rate: tax.rate,
        reason: doc.child_text(0, description),
        code: None,
    }
}

// The charge that a logistics charge n is, after this many charges.
#[tactic(auto, using(values::proofs::Telling::told_said), unfolding(crate::specs::Charges::logistics_says))]
pub fn logistics_charge(
    doc: &Document,
    lent: &Lent,
    entries: &mut Entries,
    charges: u32,
    n: usize,
) -> Option<AllowanceCharge>
    ensures { Told (logistics_says (lent_of lent.now) (doc_of doc.now) charges n) entries.old (maybe_charge_of result) entries.new }
{
    if lent.extension {
        return Some(logistics_row(doc, lent, entries, charges, n));
    }
    let site = values::site(Path::SettlementLogisticsCharge, None);
    entries.say(Message::LogisticsCharge, site, None);
    None
}
