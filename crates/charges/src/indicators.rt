// Whether an allowance or a charge is a charge: ChargeIndicator/Indicator.
ghost use Rattle.std.specs.Prelude.{◌≡◌};
ghost use Rattle.codes.specs.Boolean.{boolean_of};
ghost use Rattle.text.specs.Options.{option_of};
ghost use Rattle.settlement.specs.TableDoc.{shows};
ghost use Rattle.settlement.specs.Tax as reading;
ghost use Rattle.settlement.specs.Values.{own_text};
ghost use Rattle.element.specs.LinkDoc.{doc_of, lent_text};
ghost use Rattle.values.specs.Told.{Told};

use element::Document;
use names::{Message, Path};
use values::Entries;

// The Indicator in the ChargeIndicator of element n.
#[tactic(auto, unfolding(settlement::specs::Tax::indicator, text::specs::Utf8::bytes, text::specs::Utf8::encode))]
fn indicator(doc: &Document, n: usize) -> Option<usize>
    ensures { option_of result ≡ reading.indicator (doc_of doc.now) n }
{
    doc.kid(doc.kid(n, b"ChargeIndicator")?, b"Indicator")
}

// What indicator i writes; what is no boolean is said and means an allowance.
fn indicated(doc: &Document, entries: &mut Entries, i: usize) -> bool
    ensures { Told (reading.indicated (doc_of doc.now) i (boolean_of (shows (lent_text doc.now) (own_text (doc_of doc.now) 0 i)))) entries.old result entries.new }
{
    let own = doc.own_text(0, i);
    match codes::parse_boolean(doc.shown(own)) {
        Some(charge) => charge,
        None => {
            let site = values::site(Path::AllowanceChargeIndicator, None);
            entries.say(Message::IndicatorMalformed, site, Some(own));
            false
        }
    }
}

// Whether element n is a charge; an absent indicator is said and means an allowance.
#[tactic(auto, using(values::proofs::Telling::told_said), unfolding(settlement::specs::Tax::is_charge))]
pub(crate) fn is_charge(doc: &Document, entries: &mut Entries, n: usize) -> bool
    ensures { Told (reading.is_charge (doc_of doc.now) n) entries.old result entries.new }
{
    match indicator(doc, n) {
        Some(i) => indicated(doc, entries, i),
        None => {
            let site = values::site(Path::AllowanceChargeIndicator, None);
            entries.say(Message::IndicatorAbsent, site, None);
            false
        }
    }
}
