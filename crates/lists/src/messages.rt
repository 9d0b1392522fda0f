// docs/MESSAGES.md.
use crate::output::print_cell;
use names::Message;
use std::io;

// The messages in order, each with the columns meaning, kind, rule and hint of its row.
const ROWS: [(Message, &str); 26] = [
    (
        Message::UnlistedCurrency,
        "unlisted currency | Malformed | | BR-CL-03: currencyID MUST be coded using ISO code list 4217 alpha-3",
    ),
    (
        Message::OtherCurrency,
        "not the invoice currency | Malformed | |",
    ),
    (Message::AmountMalformed, "amount malformed | Malformed | |"),
    (
        Message::TooManyDecimals,
        "amount with over two decimals | Malformed | |",
    ),
    (
        Message::AmountOutOfRange,
        "amount out of range | Malformed | |",
    ),
    (Message::NotADecimal, "not an xs:decimal | Malformed | |"),
    (
        Message::TooManyDigits,
        "percentage with over 18 digits (added) | Malformed | |",
    ),
    (Message::NotVat, "tax not VAT | Unmapped | |"),
    (Message::Missing, "required term absent | Missing | |"),
    (
        Message::OtherDateElement,
        "date element of the other spelling | Schema | |",
    ),
    (Message::DateFormat, "date format not 102 | Malformed | |"),
    (Message::NotCcyymmdd, "date not CCYYMMDD | Malformed | |"),
    (Message::NoSuchDay, "no such day | Malformed | |"),
    (
        Message::SecondVatPointCode,
        "second, different VAT point code | Duplicate | CII-SR-462 |",
    ),
    (
        Message::UnknownVatPointCode,
        "unknown VAT point code | Malformed | | CII spells the model's 3, 35 and 432 as 5, 29 and 72 — the same three meanings",
    ),
    (
        Message::TaxTotalUnreadable,
        "tax total unreadable | Malformed | |",
    ),
    (
        Message::TaxTotalCurrency,
        "tax total in a third currency | Malformed | |",
    ),
    (
        Message::IndicatorMalformed,
        "indicator not boolean | Malformed | | the value must be `true` or `false`",
    ),
    (
        Message::IndicatorAbsent,
        "indicator absent | Malformed | | the value must be `true` or `false`",
    ),
    (
        Message::LogisticsCharge,
        "logistics charge | Unmapped | CII-SR-396 | declare the extension in BT-24 (`#conformant#`), or send the charge as a document-level charge (BG-21)",
    ),
    (
        Message::CardBesideOther,
        "card beside another payment means | Unmapped | |",
    ),
    (
        Message::DebitedAccountBesideOther,
        "debited account beside another payment means | Unmapped | |",
    ),
    (
        Message::AccountBesideOther,
        "account beside a card or mandate | Unmapped | |",
    ),
    (
        Message::ProviderWithoutAccount,
        "payment service provider without an account | Unmapped | |",
    ),
    (
        Message::MandateBesideOther,
        "mandate beside a card or an account | Unmapped | |",
    ),
    (
        Message::CreditorBesideOther,
        "creditor identifier beside a card or an account | Unmapped | |",
    ),
];

// The paragraph under the table.
fn print_required(rt: &impl Print) -> io::Result<()> {
    rt.print(
        "
An entry of message 9 cites no rule. Its wording names the one that requires the term: BT-106 BR-12,
BT-109 BR-13, BT-112 BR-14, BT-115 BR-15, BT-92 BR-31, BT-95 BR-32, BT-99 BR-36, BT-102 BR-37, BT-116 BR-45,
BT-117 BR-46, BT-118 BR-47, BT-25 BR-55.
",
    )
}

pub(crate) fn print_messages(rt: &impl Print) -> io::Result<()> {
    rt.print(
        "# Messages

The number of an entry's message, what it means, and the kind, rule and hint that the Rust gives it.

| No. | Meaning | Kind | Rule | Hint |
|---|---|---|---|---|
",
    )?;
    for (message, columns) in &ROWS {
        print_cell(rt, u32::from(*message))?;
        print!(rt; "{columns} |\n")?;
    }
    print_required(rt)
}
