// Dates: DateTimeString or DateString under a child, in the format 102.
ghost use Rattle.text.specs.Options.{option_of};
ghost use Rattle.std.specs.Prelude.{◌≡◌, true, Err};
ghost use Rattle.codes.specs.DateFormat.{date_format};
ghost use Rattle.date.specs.Answers.{date_answer};
ghost use Rattle.report.specs.Values.{place_of, text_of};
ghost use Rattle.settlement.specs.Document.{maybe};
ghost use Rattle.settlement.specs.TableDoc.{shows};
ghost use Rattle.settlement.specs.Values as reading;
ghost use Rattle.element.specs.LinkDoc.{doc_of, lent_text};
ghost use Rattle.values.specs.Sites.{site_of, day_at, date_at, spelling, date_of};
ghost use Rattle.values.specs.Told.{Told};

use crate::locating;
use crate::saying::{Entries, Site};
use date::DateError;
use element::Document;
use names::{Message, Path};
use report::Place;

// How a date is spelled: whether it is a tax point, which is a DateString, as no other date is, and the paths of
// its DateTimeString and DateString.
#[derive(Clone, Copy)]
pub struct DatePaths {
    pub point: bool,
    pub time: Path,
    pub day: Path,
}

// Whether a format attribute, if there is one, is 102.
fn is_right_format(doc: &Document, format: Option<Place>) -> bool
    ensures { result ≡ maybe true (λ f. date_format ((doc_of doc.now).bytes f)) (text_of format) }
{
    match format {
        None => true,
        Some(p) => codes::is_date_format(doc.shown(p)),
    }
}

// What is said of a text that is no date.
#[tactic(auto, unfolding(settlement::specs::Values::date_message))]
fn message_of(error: DateError) -> Message
    ensures { result ≡ reading.date_message (date_answer (Err error)).message }
{
    match error {
        DateError::Malformed => Message::NotCcyymmdd,
        DateError::NotACalendarDay => Message::NoSuchDay,
    }
}

// The date that a trimmed text spells.
// As for a percentage, but for its errors and what each says.
fn parsed(doc: &Document, entries: &mut Entries, site: Site, own: Place) -> Option<u32>
    ensures { Told (day_at (lent_text doc.now) (site_of site) (place_of own)) entries.old (option_of result) entries.new }
{
    match date::parse_trimmed(doc.shown(own)) {
        Ok(day) => Some(day),
        Err(error) => {
            entries.say(message_of(error), site, Some(own));
            None
        }
    }
}

// The date of element e, whose trimmed text is lent; its format comes first.
fn date_from(doc: &Document, entries: &mut Entries, path: Path, e: usize, own: Place) -> Option<u32>
    ensures { Told (date_at (doc_of doc.now) (lent_text doc.now) path e (place_of own)) entries.old (option_of result) entries.new }
{
    let site = locating::site(path, None);
    let format = doc.attribute_text(e, b"format");
    if is_right_format(doc, format) {
        return parsed(doc, entries, site, own);
    }
    entries.say(Message::DateFormat, site, Some(own));
    None
}

// The date of element e, where it is or is not of the other spelling, which is said first.
fn spelled(
    doc: &Document,
    mode: u32,
    entries: &mut Entries,
    other: bool,
    path: Path,
    e: usize,
) -> Option<u32>
    ensures { Told (spelling mode (doc_of doc.now) other path e) entries.old (option_of result) entries.new }
{
    let own = doc.own_text(mode, e);
    if other {
        let site = locating::site(path, None);
        entries.say(Message::OtherDateElement, site, Some(own));
        return date_from(doc, entries, path, e, own);
    }
    date_from(doc, entries, path, e, own)
}

// The date in element w: DateTimeString, else DateString; the other spelling is said.
fn date_in(
    doc: &Document,
    mode: u32,
    entries: &mut Entries,
    paths: DatePaths,
    w: usize,
) -> Option<u32>
    ensures { Told (reading.date_in mode (doc_of doc.now) paths.point paths.time paths.day w) entries.old (option_of result) entries.new }
{
    match doc.kid(w, b"DateTimeString") {
        Some(e) => spelled(doc, mode, entries, paths.point, paths.time, e),
        None => {
            let e = doc.kid(w, b"DateString")?;
            spelled(doc, mode, entries, !paths.point, paths.day, e)
        }
    }
}

// The date in a child w that was looked for, absent where there is none.
pub fn date(
    doc: &Document,
    mode: u32,
    entries: &mut Entries,
    paths: DatePaths,
    w: Option<usize>,
) -> Option<u32>
    ensures { Told (date_of mode (doc_of doc.now) paths (option_of w)) entries.old (option_of result) entries.new }
{
    date_in(doc, mode, entries, paths, w?)
}
