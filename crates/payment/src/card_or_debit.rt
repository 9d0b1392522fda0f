// BG-18 and BG-19: a card and a debited account, of which the first fixes the kind of means.
ghost use Rattle.std.specs.Prelude.{◌≡◌, List, [], ◌∷◌, ℕ};
ghost use Rattle.std.proofs.Math.Option.{none};
ghost use Rattle.report.specs.Values.{text_of};
ghost use Rattle.report.specs.declared.held.HeldRows.{HeldRows};
ghost use Rattle.settlement.specs.Values.{entry, site};
ghost use Rattle.settlement.specs.Payments.{financial_card, debtor_account, account_of, not_held, with_means, first_means, part};
ghost use Rattle.values.specs.Told.{Said};
ghost use Rattle.element.specs.LinkDoc.{doc_of, lent_text};
ghost use Rattle.unmapped.specs.declared.note.UnmappedRows.{UnmappedRows};
ghost use Rattle.values.specs.declared.saying.Entries.{Entries};
ghost use Rattle.payment.specs.Walks.{means_of, paying_of};
ghost use Rattle.payment.specs.Walked.{Walked};

use crate::paying::{Means, Payment, PaymentCard, Walk};
use element::Document;
use names::{Message, Path};
use report::Place;
use values::Entries;

// Says that the model can't hold what stands at a path.
pub(crate) fn not_held(entries: &mut Entries, path: Path, message: Message)
    ensures { Said (entry message (site path none) none ∷ []) entries.old entries.new }
{
    entries.say(message, values::site(path, None), None);
}

// The same on the walk.
pub(crate) fn leave_out(entries: &mut Entries, walk: Walk, path: Path, message: Message) -> Walk
    ensures { (x : List ℕ) (h : HeldRows) (u : UnmappedRows) → Walked (not_held message path (paying_of walk)) walk result x h h entries.old entries.new u u }
{
    not_held(entries, path, message);
    walk
}

// The walk with another kind of means.
fn with_means(walk: Walk, means: Means) -> Walk
    ensures { (x : List ℕ) (h : HeldRows) (e : Entries) (u : UnmappedRows) → Walked (with_means (means_of means) (paying_of walk)) walk result x h h e e u u }
{
    Walk {
        payment: Payment {
            met: true,
            means,
            ..walk.payment
        },
        ..walk
    }
}

// The means, unless another kind is held already; then that is said.
fn first_means(
    entries: &mut Entries,
    walk: Walk,
    means: Means,
    path: Path,
    message: Message,
) -> Walk
    ensures { (x : List ℕ) (h : HeldRows) (u : UnmappedRows) → Walked (first_means (means_of walk.payment.means) message path (means_of means) (paying_of walk)) walk result x h h entries.old entries.new u u }
{
    match walk.payment.means {
        Means::Unset => with_means(walk, means),
        Means::Card(_) => leave_out(entries, walk, path, message),
        Means::Debit(_) => leave_out(entries, walk, path, message),
        Means::Transfers => leave_out(entries, walk, path, message),
    }
}

// The account in element c: IBANID, else ProprietaryID.
pub(crate) fn account_of(doc: &Document, c: usize) -> Option<Place>
    ensures { text_of result ≡ account_of (doc_of doc.now) c }
{
    match doc.kid_text(0, c, b"IBANID") {
        None => doc.kid_text(0, c, b"ProprietaryID"),
        Some(p) => Some(p),
    }
}

// A child ApplicableTradeSettlementFinancialCard (BG-18).
pub(crate) fn financial_card(doc: &Document, entries: &mut Entries, walk: Walk, c: usize) -> Walk
    ensures { (h : HeldRows) (u : UnmappedRows) → Walked (part (doc_of doc.now) financial_card (paying_of walk) c) walk result (lent_text doc.now) h h entries.old entries.new u u }
{
    let card = PaymentCard {
        number: doc.kid_text(0, c, b"ID"),
        holder: doc.kid_text(0, c, b"CardholderName"),
    };
    first_means(
        entries,
        walk,
        Means::Card(card),
        Path::PaymentMeansFinancialCard,
        Message::CardBesideOther,
    )
}

// A child PayerPartyDebtorFinancialAccount (BG-19).
pub(crate) fn debtor_account(doc: &Document, entries: &mut Entries, walk: Walk, c: usize) -> Walk
    ensures { (h : HeldRows) (u : UnmappedRows) → Walked (part (doc_of doc.now) debtor_account (paying_of walk) c) walk result (lent_text doc.now) h h entries.old entries.new u u }
{
    let account = account_of(doc, c);
    first_means(
        entries,
        walk,
        Means::Debit(account),
        Path::PaymentMeansDebtorAccount,
        Message::DebitedAccountBesideOther,
    )
}
