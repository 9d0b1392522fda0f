// What an element says as an amount. It is decided here, without a list, and put among the entries by
// `tell`, as often as it is to be said.
ghost use Rattle.std.specs.Prelude.{◌≡◌, Err};
ghost use Rattle.amount.specs.Answers.{amount_answer};
ghost use Rattle.amount.specs.Amount as money;
ghost use Rattle.report.specs.Values.{place_of, amount_of};
ghost use Rattle.settlement.specs.TableDoc.{shows};
ghost use Rattle.settlement.specs.Values as reading;
ghost use Rattle.element.specs.LinkDoc.{doc_of, lent_text};
ghost use Rattle.values.specs.Sites.{site_of, answered_at};
ghost use Rattle.values.specs.Told.{Told};
ghost use Rattle.amounts.specs.Amounts.{saying, amount_at, amount_in, amount_beside};

use crate::currencies::in_document_currency;
use amount::{AmountError, InvoiceAmount};
use element::Document;
use names::Message;
use report::Place;
use values::{Entries, Lent, Site};

// A message with the text that is its value.
#[derive(Clone, Copy)]
pub struct Fault {
    pub message: Message,
    pub value: Place,
}

// What is said of an amount: the amount, if there is one, or what is wrong with it.
pub type Heard = Result<Option<InvoiceAmount>, Fault>;

// What is said of a text that is no amount: an empty one is malformed.
#[tactic(auto, unfolding(settlement::specs::Values::amount_message))]
fn message_of(error: AmountError) -> Message
    ensures { result ≡ reading.amount_message (amount_answer (Err error)).message }
{
    match error {
        AmountError::Empty | AmountError::Malformed => Message::AmountMalformed,
        AmountError::TooManyDecimals => Message::TooManyDecimals,
        AmountError::OutOfRange => Message::AmountOutOfRange,
    }
}

// The amount that a trimmed text spells.
fn parsed(doc: &Document, own: Place) -> Heard
    ensures { (s : reading.Site) → saying result s ≡ amount_at (lent_text doc.now) s (place_of own) }
{
    match InvoiceAmount::parse_trimmed(doc.shown(own)) {
        Ok(amount) => Ok(Some(amount)),
        Err(error) => Err(Fault {
            message: message_of(error),
            value: own,
        }),
    }
}

// The amount that a trimmed text spells; anything else is told by one message.
// One error for all is no less than the match on each in `parsed`.
pub(crate) fn parsed_or(doc: &Document, own: Place, message: Message) -> Heard
    ensures { (s : reading.Site) → saying result s ≡ answered_at (λ n. message) s (place_of own) (money.amount_of (shows (lent_text doc.now) (place_of own))) }
{
    match InvoiceAmount::parse_trimmed(doc.shown(own)) {
        Ok(amount) => Ok(Some(amount)),
        Err(_) => Err(Fault {
            message,
            value: own,
        }),
    }
}

// The same beside a currency, which must be right.
fn in_currency(doc: &Document, currency: &[u8], own: Place, id: Place) -> Heard
    ensures { (s : reading.Site) → saying result s ≡ amount_in currency.now (lent_text doc.now) s (place_of own) (place_of id) }
{
    match in_document_currency(currency, doc.shown(id)) {
        None => parsed(doc, own),
        Some(message) => Err(Fault { message, value: id }),
    }
}

// The same of element e, with or without a currency beside it.
pub(crate) fn hear_text(doc: &Document, currency: &[u8], e: usize, own: Place) -> Heard
    ensures { (s : reading.Site) → saying result s ≡ amount_beside currency.now (doc_of doc.now) (lent_text doc.now) s e (place_of own) }
{
    match doc.attribute(e, b"currencyID") {
        None => parsed(doc, own),
        Some(p) => in_currency(doc, currency, own, p),
    }
}

// What element e says as an amount: nothing where it has no text.
pub fn hear(doc: &Document, lent: &Lent, e: usize) -> Heard
    ensures { (s : reading.Site) → saying result s ≡ reading.amount_of lent.now.mode lent.now.currency.now (doc_of doc.now) s e }
{
    match doc.text_in(lent.mode, e) {
        None => Ok(None),
        Some(own) => hear_text(doc, lent.currency, e, own),
    }
}

// Says what was heard, at a site, and answers the amount.
pub fn tell(entries: &mut Entries, heard: Heard, site: Site) -> Option<InvoiceAmount>
    ensures { Told (saying heard (site_of site)) entries.old (amount_of result) entries.new }
{
    match heard {
        Ok(amount) => amount,
        Err(fault) => {
            entries.say(fault.message, site, Some(fault.value));
            None
        }
    }
}
