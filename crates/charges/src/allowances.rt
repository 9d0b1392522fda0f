// BG-20 document level allowance or BG-21 charge, by its indicator.
ghost use Rattle.std.specs.Prelude.{◌≡◌};
ghost use Rattle.report.specs.Values.{allowance_charge_of};
ghost use Rattle.settlement.specs.Tax.{category_paths};
ghost use Rattle.element.specs.LinkDoc.{doc_of};
ghost use Rattle.values.specs.Sites.{lent_of};
ghost use Rattle.values.specs.Told.{Told};
ghost use Rattle.charges.specs.Charges.{group_terms_of, tax_paths_of, counts_of, row_says, allowance_charge_says};

use crate::categories::required_trade_tax;
use crate::grouping::{group_terms, wanted_amount};
use crate::indicators::is_charge;
use crate::shapes::{Group, TaxPaths};
use element::Document;
use names::Path;
use report::AllowanceCharge;
use values::{Entries, Lent};

// Where BT-95 and BT-96, or BT-102 and BT-103, are said; `applied_paths` is the same table of other constants.
fn category_paths() -> TaxPaths
    ensures { tax_paths_of result ≡ category_paths }
{
    TaxPaths {
        type_code: Path::CategoryTradeTaxTypeCode,
        whole: Path::SettlementAllowanceChargeCategoryTradeTax,
        rate: Path::CategoryTradeTaxRateApplicablePercent,
        parent: Path::SettlementAllowanceCharge,
    }
}

// The row of element n, in a group: category and rate, amount, base, percentage.
fn row_in(doc: &Document, lent: &Lent, entries: &mut Entries, g: Group, n: usize) -> AllowanceCharge
    ensures { Told (row_says (lent_of lent.now) (doc_of doc.now) (group_terms_of g) g.index n) entries.old (allowance_charge_of result) entries.new }
{
    let mut kids = [None; 6];
    let names: [&[u8]; 6] = [
        b"CategoryTradeTax",
        b"ActualAmount",
        b"BasisAmount",
        b"CalculationPercent",
        b"Reason",
        b"ReasonCode",
    ];
    doc.first_children(n, &names, &mut kids);
    let [tax, actual, basis, share, reason, code] = kids;
    let tax = required_trade_tax(doc, lent, entries, category_paths(), g, tax);
    let wanted = wanted_amount(
        g,
        Path::SettlementAllowanceCharge,
        Path::AllowanceChargeActualAmount,
    );
    let amount = amounts::required_amount(doc, lent, entries, wanted, actual);
    let site = values::grouped(Path::AllowanceChargeBasisAmount, g.base, g.index);
    let base = amounts::amount(doc, lent, entries, site, basis);
    let share = doc.child_text(lent.mode, share);
    let site = values::grouped(
        Path::AllowanceChargeCalculationPercent,
        g.percentage,
        g.index,
    );
    let percentage = values::percent(doc, entries, site, share);
    AllowanceCharge {
        amount,
        base,
        percentage,
        category: tax.category,
        rate: tax.rate,
        reason: doc.child_text(0, reason),
        code: doc.child_text(0, code),
    }
}

// Whether element n is a charge, and the allowance or charge that it is, after this many allowances and
// charges.
pub fn allowance_charge(
    doc: &Document,
    lent: &Lent,
    entries: &mut Entries,
    allowances: u32,
    charges: u32,
    n: usize,
) -> (bool, AllowanceCharge)
    ensures { Told (allowance_charge_says (lent_of lent.now) (doc_of doc.now) (counts_of allowances charges) n) entries.old ((result.0, allowance_charge_of result.1)) entries.new }
{
    let charge = is_charge(doc, entries, n);
    let g = group_terms(charge, allowances, charges);
    (charge, row_in(doc, lent, entries, g, n))
}
