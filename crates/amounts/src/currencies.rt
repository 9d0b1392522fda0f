// The currency beside an amount (`in_document_currency`).
ghost use Rattle.text.specs.Options.{option_of};
ghost use Rattle.std.specs.Prelude.{◌≡◌};
ghost use Rattle.settlement.specs.Values.{wrong_currency};

use names::Message;

// What is wrong with a currencyID beside an invoice currency: it must be listed, and the same where
// there is one.
pub(crate) fn in_document_currency(currency: &[u8], id: &[u8]) -> Option<Message>
    ensures { option_of result ≡ wrong_currency currency.now id.now }
{
    if codes::is_currency(id) {
        if currency.len() == 0 {
            return None;
        }
        if text::same(currency, id) {
            return None;
        }
        return Some(Message::OtherCurrency);
    }
    Some(Message::UnlistedCurrency)
}
