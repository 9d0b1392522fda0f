// The messages of entries.
ghost use Rattle.std.specs.Prelude.{◌≡◌};
ghost use Rattle.names.specs.Message.{message_number};

// What an entry says, in the order of document 01. Kind, rule and hint follow from it
// (docs/MESSAGES.md).
#[derive(Clone, Copy, Debug, PartialEq, Eq)]
pub enum Message {
    UnlistedCurrency = 1,
    OtherCurrency = 2,
    AmountMalformed = 3,
    TooManyDecimals = 4,
    AmountOutOfRange = 5,
    NotADecimal = 6,
    TooManyDigits = 7,
    NotVat = 8,
    Missing = 9,
    OtherDateElement = 10,
    DateFormat = 11,
    NotCcyymmdd = 12,
    NoSuchDay = 13,
    SecondVatPointCode = 14,
    UnknownVatPointCode = 15,
    TaxTotalUnreadable = 16,
    TaxTotalCurrency = 17,
    IndicatorMalformed = 18,
    IndicatorAbsent = 19,
    LogisticsCharge = 20,
    CardBesideOther = 21,
    DebitedAccountBesideOther = 22,
    AccountBesideOther = 23,
    ProviderWithoutAccount = 24,
    MandateBesideOther = 25,
    CreditorBesideOther = 26,
}

// The message's number in document 01.
impl From<Message> for u32 {
    ghost from_gives = { λ message n. n ≡ message_number message };

    fn from(message: Message) -> u32 {
        message as u32
    }
}
