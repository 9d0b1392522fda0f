// BG-14 billing period, and the payment terms with due date and mandate.
ghost use Rattle.std.specs.Prelude.{◌≡◌};
ghost use Rattle.std.proofs.Math.Option.{some};
ghost use Rattle.report.specs.Values.{text_of};
ghost use Rattle.settlement.specs.Settlement as reading;
ghost use Rattle.element.specs.LinkDoc.{doc_of};
ghost use Rattle.values.specs.Told.{Told};
ghost use Rattle.groups.specs.Groups.{period_of, payment_terms_of, said, note_of};

use crate::shapes::{PaymentTerms, Period};
use element::Document;
use names::Path;
use report::Place;
use values::{DatePaths, Entries};

// The billing period that element n is.
pub fn period(doc: &Document, mode: u32, entries: &mut Entries, n: usize) -> Period
    ensures { Told (said (reading.period_of mode (doc_of doc.now) n)) entries.old (some (period_of result)) entries.new }
{
    let start = DatePaths {
        point: false,
        time: Path::PeriodStartDateTimeString,
        day: Path::PeriodStartDateString,
    };
    let end = DatePaths {
        point: false,
        time: Path::PeriodEndDateTimeString,
        day: Path::PeriodEndDateString,
    };
    Period {
        start: values::date(doc, mode, entries, start, doc.kid(n, b"StartDateTime")),
        end: values::date(doc, mode, entries, end, doc.kid(n, b"EndDateTime")),
    }
}

// The text of the first child Description of element n as it stands, absent where there is none.
#[tactic(auto, unfolding(crate::specs::Groups::note_of, text::specs::Utf8::bytes, text::specs::Utf8::encode))]
fn description(doc: &Document, n: usize) -> Option<Place>
    ensures { text_of result ≡ note_of (doc_of doc.now) n }
{
    doc.raw_text(doc.kid(n, b"Description")?)
}

// The payment terms that element n is.
pub fn payment_terms(doc: &Document, mode: u32, entries: &mut Entries, n: usize) -> PaymentTerms
    ensures { Told (said (reading.payment_terms_of mode (doc_of doc.now) n)) entries.old (payment_terms_of result) entries.new }
{
    let paths = DatePaths {
        point: false,
        time: Path::PaymentTermsDueDateTimeString,
        day: Path::PaymentTermsDueDateString,
    };
    PaymentTerms {
        note: description(doc, n),
        due: values::date(doc, mode, entries, paths, doc.kid(n, b"DueDateDateTime")),
        mandate: doc.kid_text(0, n, b"DirectDebitMandateID"),
    }
}
