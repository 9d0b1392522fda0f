// BG-17: accounts, and the providers that follow them.
ghost use Rattle.std.specs.Prelude.{false, List, [], map, ℕ};
ghost use Rattle.report.specs.HeldRows.{Holds};
ghost use Rattle.report.specs.Rows.{transfer};
ghost use Rattle.report.specs.Values.{text_of};
ghost use Rattle.report.specs.declared.held.HeldRows.{HeldRows};
ghost use Rattle.settlement.specs.Payments.{creditor_account, institution, joined, lost, provider_of, part};
ghost use Rattle.element.specs.LinkDoc.{doc_of, lent_text};
ghost use Rattle.unmapped.specs.declared.note.UnmappedRows.{UnmappedRows};
ghost use Rattle.values.specs.declared.saying.Entries.{Entries};
ghost use Rattle.payment.specs.Walks.{waiting_rows, paying_of};
ghost use Rattle.payment.specs.Walked.{Walked};

use crate::card_or_debit::{account_of, leave_out, not_held};
use crate::paying::{Means, Payment, Walk};
use element::Document;
use names::{Message, Path};
use report::{HeldRows, Place, Transfer};
use values::Entries;

// Puts the row of the account that waits, if one does.
pub(crate) fn put_waiting(held: &mut HeldRows, waiting: Option<Transfer>)
    ensures { Holds (map transfer (waiting_rows waiting)) held.old held.new }
{
    if let Some(t) = waiting {
        held.hold_transfer(t);
    }
}

// An account that is held: BT-84, BT-85. The one before it waits no longer.
fn hold_account(doc: &Document, held: &mut HeldRows, walk: Walk, c: usize) -> Walk
    ensures { (x : List ℕ) (e : Entries) (u : UnmappedRows) → Walked (joined (doc_of doc.now) c (paying_of walk)) walk result x held.old held.new e e u u }
{
    let account = Transfer {
        account: account_of(doc, c),
        name: doc.kid_text(0, c, b"AccountName"),
        provider: None,
    };
    put_waiting(held, walk.waiting);
    Walk {
        payment: Payment {
            met: true,
            means: Means::Transfers,
            ..walk.payment
        },
        waiting: Some(account),
    }
}

// An account beside a card or a debited account is lost, which is said; the one before it waits no
// longer.
fn lose_account(held: &mut HeldRows, entries: &mut Entries, walk: Walk) -> Walk
    ensures { (x : List ℕ) (u : UnmappedRows) → Walked (lost (paying_of walk)) walk result x held.old held.new entries.old entries.new u u }
{
    put_waiting(held, walk.waiting);
    not_held(
        entries,
        Path::PaymentMeansCreditorAccount,
        Message::AccountBesideOther,
    );
    Walk {
        waiting: None,
        ..walk
    }
}

// A child PayeePartyCreditorFinancialAccount: further accounts join transfers.
pub(crate) fn creditor_account(
    doc: &Document,
    held: &mut HeldRows,
    entries: &mut Entries,
    walk: Walk,
    c: usize,
) -> Walk
    ensures { (u : UnmappedRows) → Walked (part (doc_of doc.now) creditor_account (paying_of walk) c) walk result (lent_text doc.now) held.old held.new entries.old entries.new u u }
{
    match walk.payment.means {
        Means::Unset => hold_account(doc, held, walk, c),
        Means::Transfers => hold_account(doc, held, walk, c),
        Means::Card(_) => lose_account(held, entries, walk),
        Means::Debit(_) => lose_account(held, entries, walk),
    }
}

// A provider with no account before it in the same payment means: that is said if it has a BICID.
fn without_account(entries: &mut Entries, walk: Walk, provider: Option<Place>) -> Walk
    ensures { (x : List ℕ) (h : HeldRows) (u : UnmappedRows) → Walked (provider_of false [] (text_of provider) (paying_of walk)) walk result x h h entries.old entries.new u u }
{
    match provider {
        None => walk,
        Some(_) => leave_out(
            entries,
            walk,
            Path::PaymentMeansCreditorInstitution,
            Message::ProviderWithoutAccount,
        ),
    }
}

// A child PayeeSpecifiedCreditorFinancialInstitution: its BICID (BT-86) goes to the account that
// waits, even where there is none.
pub(crate) fn institution(doc: &Document, entries: &mut Entries, walk: Walk, c: usize) -> Walk
    ensures { (h : HeldRows) (u : UnmappedRows) → Walked (part (doc_of doc.now) institution (paying_of walk) c) walk result (lent_text doc.now) h h entries.old entries.new u u }
{
    let provider = doc.kid_text(0, c, b"BICID");
    match walk.waiting {
        None => without_account(entries, walk, provider),
        Some(t) => Walk {
            waiting: Some(Transfer { provider, ..t }),
            ..walk
        },
    }
}
