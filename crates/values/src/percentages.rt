// Percentages.
ghost use Rattle.std.specs.Prelude.{◌≡◌, Err};
ghost use Rattle.amount.specs.Answers.{percentage_answer};
ghost use Rattle.report.specs.Values.{place_of, text_of, percent_of};
ghost use Rattle.settlement.specs.Values as reading;
ghost use Rattle.element.specs.LinkDoc.{lent_text};
ghost use Rattle.values.specs.Sites.{site_of, percent_at, percent_in};
ghost use Rattle.values.specs.Told.{Told};

use crate::saying::{Entries, Site};
use amount::{Percentage, PercentageError};
use element::Document;
use names::Message;
use report::Place;

// What is said of a text that is no percentage.
#[tactic(auto, unfolding(settlement::specs::Values::percent_message))]
fn message_of(error: PercentageError) -> Message
    ensures { result ≡ reading.percent_message (percentage_answer (Err error)).message }
{
    match error {
        PercentageError::Malformed => Message::NotADecimal,
        PercentageError::TooPrecise => Message::TooManyDigits,
    }
}

// The percentage that a trimmed text spells.
// As for a date, but for its errors and what each says.
fn parsed(doc: &Document, entries: &mut Entries, site: Site, own: Place) -> Option<Percentage>
    ensures { Told (percent_at (lent_text doc.now) (site_of site) (place_of own)) entries.old (percent_of result) entries.new }
{
    match Percentage::parse_trimmed(doc.shown(own)) {
        Ok(percent) => Some(percent),
        Err(error) => {
            entries.say(message_of(error), site, Some(own));
            None
        }
    }
}

// The percentage that the text of a child spells, absent where there is none.
pub fn percent(
    doc: &Document,
    entries: &mut Entries,
    site: Site,
    content: Option<Place>,
) -> Option<Percentage>
    ensures { Told (percent_in (lent_text doc.now) (site_of site) (text_of content)) entries.old (percent_of result) entries.new }
{
    match content {
        None => None,
        Some(own) => parsed(doc, entries, site, own),
    }
}
