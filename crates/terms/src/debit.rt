// What becomes of mandate and creditor identifier at the end of a reading.
ghost use Rattle.std.specs.Prelude.{◌≡◌, [], ◌∷◌};
ghost use Rattle.std.proofs.Math.Option.{none};
ghost use Rattle.report.specs.Values.{text_of};
ghost use Rattle.settlement.specs.Document.{maybe};
ghost use Rattle.settlement.specs.Settlement as reading;
ghost use Rattle.settlement.specs.Values.{site, entry};
ghost use Rattle.values.specs.Told.{Said};
ghost use Rattle.payment.specs.Walks.{means_of};
ghost use Rattle.terms.specs.Endings.{fresh_means, Debited};

use names::{Message, Path};
use payment::Means;
use report::Place;
use values::Entries;

// The means with mandate and creditor identifier.
#[derive(Clone, Copy)]
pub(crate) struct Debit {
    pub means: Means,
    pub mandate: Option<Place>,
    pub creditor: Option<Place>,
}

// Says that a text is lost, if it is there.
fn say_lost(entries: &mut Entries, message: Message, path: Path, lost: Option<Place>)
    ensures { Said (maybe [] (λ p. entry message (site path none) none ∷ []) (text_of lost)) entries.old entries.new }
{
    match lost {
        None => {}
        Some(_) => entries.say(message, values::site(path, None), None),
    }
}

// Mandate and creditor identifier beside a card or transfers: both are lost, and said.
fn besides(
    entries: &mut Entries,
    means: Means,
    mandate: Option<Place>,
    creditor: Option<Place>,
) -> Debit
    ensures { Debited (reading.besides (means_of means) (text_of mandate) (text_of creditor)) entries.old result entries.new }
{
    let path = Path::PaymentTermsDirectDebitMandate;
    say_lost(entries, Message::MandateBesideOther, path, mandate);
    let path = Path::SettlementCreditorReference;
    say_lost(entries, Message::CreditorBesideOther, path, creditor);
    Debit {
        means,
        mandate: None,
        creditor: None,
    }
}

// Where no means are held, a mandate or a creditor identifier makes a direct debit.
fn debit_of(mandate: Option<Place>, creditor: Option<Place>) -> Means
    ensures { means_of result ≡ fresh_means (text_of mandate) (text_of creditor) }
{
    if mandate.is_none() && creditor.is_none() {
        return Means::Unset;
    }
    Means::Debit(None)
}

// What becomes of the means, the mandate and the creditor identifier: the state has them apart, so that they
// come in as three and go out as one.
pub(crate) fn debited(
    entries: &mut Entries,
    means: Means,
    mandate: Option<Place>,
    creditor: Option<Place>,
) -> Debit
    ensures { Debited (reading.debited (means_of means) (text_of mandate) (text_of creditor)) entries.old result entries.new }
{
    match means {
        Means::Unset => Debit {
            means: debit_of(mandate, creditor),
            mandate,
            creditor,
        },
        Means::Debit(account) => Debit {
            means: Means::Debit(account),
            mandate,
            creditor,
        },
        Means::Card(card) => besides(entries, Means::Card(card), mandate, creditor),
        Means::Transfers => besides(entries, Means::Transfers, mandate, creditor),
    }
}
