// The end of a reading: what is missing, and the terms.
ghost use Rattle.std.specs.Prelude.{◌≡◌, []};
ghost use Rattle.std.proofs.Math.Option.{none};
ghost use Rattle.report.specs.Values.{text_of};
ghost use Rattle.settlement.specs.Document.{maybe, or};
ghost use Rattle.settlement.specs.Settlement as reading;
ghost use Rattle.settlement.specs.Shapes.{no_totals};
ghost use Rattle.values.specs.Told.{Said};
ghost use Rattle.totals.specs.Reading.{totals_of};
ghost use Rattle.steps.specs.States.{reference_of, maybe_totals_of, state_of};
ghost use Rattle.terms.specs.Endings.{missing_totals, is_paid, Ended};

use crate::debit::debited;
use crate::terms::{Terms, no_totals};
use codes::Rule;
use names::{Path, Term};
use report::Place;
use steps::State;
use totals::Totals;
use values::Entries;

// The four required amounts of a summation that is not there.
fn missing_totals(entries: &mut Entries, rules: u32)
    ensures { Said (missing_totals rules) entries.old entries.new }
{
    let path = Path::SettlementSummation;
    entries.missing(rules, Rule::Br12, values::site(path, Some(Term::Bt106)));
    entries.missing(rules, Rule::Br13, values::site(path, Some(Term::Bt109)));
    entries.missing(rules, Rule::Br14, values::site(path, Some(Term::Bt112)));
    entries.missing(rules, Rule::Br15, values::site(path, Some(Term::Bt115)));
}

// Says what is missing where there was no summation.
fn say_totals(entries: &mut Entries, rules: u32, totals: Option<Totals>)
    ensures { Said (maybe (missing_totals rules) (λ t. []) (maybe_totals_of totals)) entries.old entries.new }
{
    match totals {
        None => missing_totals(entries, rules),
        Some(_) => {}
    }
}

// The totals, those of no summation where there was none.
fn totals_or_none(totals: Option<Totals>) -> Totals
    ensures { totals_of result ≡ or no_totals (maybe_totals_of totals) }
{
    match totals {
        None => no_totals(),
        Some(t) => t,
    }
}

// BT-83.
fn reference_text(reference: Option<Option<Place>>) -> Option<Place>
    ensures { text_of result ≡ or none (reference_of reference) }
{
    match reference {
        None => None,
        Some(t) => t,
    }
}

// Whether there is BG-16: a payment means, a reference, a mandate or a creditor identifier.
fn is_paid(
    met: bool,
    reference: Option<Option<Place>>,
    mandate: Option<Place>,
    creditor: Option<Place>,
) -> bool
    ensures { result ≡ is_paid met (reference_of reference) (text_of mandate) (text_of creditor) }
{
    met || reference.is_some() || mandate.is_some() || creditor.is_some()
}

// The terms after all children, and what is said at the end.
pub fn finish(entries: &mut Entries, rules: u32, s: State) -> Terms
    ensures { Ended (reading.terms_of (state_of s)) (reading.late_of rules (state_of s)) entries.old result entries.new }
{
    let plain = s.plain;
    let payment = s.billing.payment;
    let terms = s.billing.terms;
    let vat = s.tally.vat;
    say_totals(entries, rules, s.totals);
    let debit = debited(entries, payment.means, terms.mandate, plain.creditor);
    Terms {
        bt5: plain.invoice_currency,
        bt6: plain.tax_currency,
        bt7: vat.point,
        bt8: vat.code,
        bt9: terms.due,
        bt19: plain.accounting,
        bt20: terms.note,
        payee: plain.payee,
        period: s.billing.period,
        paid: is_paid(payment.met, plain.reference, terms.mandate, plain.creditor),
        bt81: payment.code,
        bt82: payment.text,
        bt83: reference_text(plain.reference),
        means: debit.means,
        bt89: debit.mandate,
        bt90: debit.creditor,
        totals: totals_or_none(s.totals),
    }
}
