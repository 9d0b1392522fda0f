// The optional amounts in the currency of the invoice. Every child of such a name reads the first child of that
// name again, so that child is heard once: the amount is its, and only what it says is repeated.
ghost use Rattle.std.specs.Prelude.{◌≡◌};
ghost use Rattle.text.specs.Options.{option_of};
ghost use Rattle.report.specs.Values.{amount_of};
ghost use Rattle.element.specs.LinkDoc.{doc_of};
ghost use Rattle.values.specs.Sites.{site_of, lent_of};
ghost use Rattle.values.specs.Told.{Said};
ghost use Rattle.amounts.specs.Amounts.{amount_found};
ghost use Rattle.totals.specs.Reading.{first_of, said_by, Hears};

use crate::sum::Optional;
use amount::InvoiceAmount;
use amounts::Heard;
use element::Document;
use names::{Path, Term};
use values::{Entries, Lent, Site};

// What the first child of a name says as an amount, and where.
#[derive(Clone, Copy)]
pub(crate) struct First {
    pub(crate) heard: Heard,
    pub(crate) site: Site,
}

// That of the first AllowanceTotalAmount, ChargeTotalAmount, RoundingAmount and TotalPrepaidAmount.
#[derive(Clone, Copy)]
pub(crate) struct Firsts {
    pub(crate) allowance: First,
    pub(crate) charge: First,
    pub(crate) rounding: First,
    pub(crate) paid: First,
}

// What a child e that was looked for says, nothing where there is none.
#[tactic(auto, unfolding(amounts::specs::Amounts::amount_found))]
fn hear_child(doc: &Document, lent: &Lent, site: Site, e: Option<usize>) -> First
    ensures { said_by result ≡ amount_found (lent_of lent.now) (doc_of doc.now) (site_of site) (option_of e) }
{
    match e {
        None => First {
            heard: Ok(None),
            site,
        },
        Some(e) => First {
            heard: amounts::hear(doc, lent, e),
            site,
        },
    }
}

// What the first child of each optional amount's name of a summation n says.
pub(crate) fn hear_firsts(doc: &Document, lent: &Lent, n: usize) -> Firsts
    ensures { Hears (lent_of lent.now) (doc_of doc.now) n result }
{
    let mut kids = [None; 4];
    let names: [&[u8]; 4] = [
        b"AllowanceTotalAmount",
        b"ChargeTotalAmount",
        b"RoundingAmount",
        b"TotalPrepaidAmount",
    ];
    doc.first_children(n, &names, &mut kids);
    let [allowance, charge, rounding, paid] = kids;
    let site = values::site(Path::SummationAllowanceTotalAmount, Some(Term::Bt107));
    let allowance = hear_child(doc, lent, site, allowance);
    let site = values::site(Path::SummationChargeTotalAmount, Some(Term::Bt108));
    let charge = hear_child(doc, lent, site, charge);
    let site = values::site(Path::SummationRoundingAmount, Some(Term::Bt114));
    let rounding = hear_child(doc, lent, site, rounding);
    let site = values::site(Path::SummationTotalPrepaidAmount, Some(Term::Bt113));
    let paid = hear_child(doc, lent, site, paid);
    Firsts {
        allowance,
        charge,
        rounding,
        paid,
    }
}

// The amount that is read.
pub(crate) fn amount_of(first: First) -> Option<InvoiceAmount>
    ensures { amount_of result ≡ (said_by first).0 }
{
    match first.heard {
        Ok(amount) => amount,
        Err(_) => None,
    }
}

// That of an optional amount's name.
fn first_of(firsts: &Firsts, which: Optional) -> First
    ensures { result ≡ first_of firsts.now which }
{
    match which {
        Optional::AllowanceTotal => firsts.allowance,
        Optional::ChargeTotal => firsts.charge,
        Optional::Rounding => firsts.rounding,
        Optional::Prepaid => firsts.paid,
    }
}

// Says it again.
pub(crate) fn say_again(entries: &mut Entries, firsts: &Firsts, which: Optional)
    ensures { Said (said_by (first_of firsts.now which)).1 entries.old entries.new }
{
    let first = first_of(firsts, which);
    amounts::tell(entries, first.heard, first.site);
}
