// The children of a settlement, by their names.
ghost use Rattle.std.specs.Prelude.{◌≡◌};
ghost use Rattle.settlement.specs.Kinds.{kind_named};
ghost use Rattle.settlement.specs.Settlement.{kind_of};
ghost use Rattle.element.specs.LinkDoc.{doc_of};
ghost use Rattle.kinds.specs.Kinds.{kind_is};

use element::Document;

// A child that gives a term or a group alone.
#[derive(Clone, Copy)]
pub enum PlainKind {
    CreditorReference,
    PaymentReference,
    TaxCurrency,
    InvoiceCurrency,
    Payee,
    Accounting,
}

// A child that says when or how is paid.
#[derive(Clone, Copy)]
pub enum BillingKind {
    Period,
    PaymentTerms,
    PaymentMeans,
}

// A child that makes a row.
#[derive(Clone, Copy)]
pub enum RowKind {
    TradeTax,
    AllowanceCharge,
    LogisticsCharge,
    PrecedingInvoice,
}

// What a child is, by the part of the state that it changes.
#[derive(Clone, Copy)]
pub enum Kind {
    Plain(PlainKind),
    Row(RowKind),
    Billing(BillingKind),
    Summation,
    Other,
}

// The names that are read. Most children make rows, so theirs come first.
const KINDS: [(&[u8], Kind); 14] = [
    (b"ApplicableTradeTax", Kind::Row(RowKind::TradeTax)),
    (
        b"SpecifiedTradeAllowanceCharge",
        Kind::Row(RowKind::AllowanceCharge),
    ),
    (
        b"SpecifiedLogisticsServiceCharge",
        Kind::Row(RowKind::LogisticsCharge),
    ),
    (
        b"InvoiceReferencedDocument",
        Kind::Row(RowKind::PrecedingInvoice),
    ),
    (
        b"CreditorReferenceID",
        Kind::Plain(PlainKind::CreditorReference),
    ),
    (
        b"PaymentReference",
        Kind::Plain(PlainKind::PaymentReference),
    ),
    (b"TaxCurrencyCode", Kind::Plain(PlainKind::TaxCurrency)),
    (
        b"InvoiceCurrencyCode",
        Kind::Plain(PlainKind::InvoiceCurrency),
    ),
    (b"PayeeTradeParty", Kind::Plain(PlainKind::Payee)),
    (
        b"SpecifiedTradeSettlementPaymentMeans",
        Kind::Billing(BillingKind::PaymentMeans),
    ),
    (
        b"BillingSpecifiedPeriod",
        Kind::Billing(BillingKind::Period),
    ),
    (
        b"SpecifiedTradePaymentTerms",
        Kind::Billing(BillingKind::PaymentTerms),
    ),
    (
        b"SpecifiedTradeSettlementHeaderMonetarySummation",
        Kind::Summation,
    ),
    (
        b"ReceivableSpecifiedTradeAccountingAccount",
        Kind::Plain(PlainKind::Accounting),
    ),
];

// What a name stands for.
// `meaning_of` is what this, `part_named` and `sum_named` share; the table and its enum are each one's own.
fn kind_named(name: &[u8]) -> Kind
    ensures { kind_is result ≡ kind_named name.now }
{
    text::meaning_of(&KINDS, name).unwrap_or(Kind::Other)
}

// What element c is.
pub fn kind_of(doc: &Document, c: usize) -> Kind
    ensures { kind_is result ≡ kind_of (doc_of doc.now) c }
{
    kind_named(doc.shown(doc.name(c)))
}
