// The children of a payment means, by their names.
ghost use Rattle.std.specs.Prelude.{◌≡◌};
ghost use Rattle.settlement.specs.Kinds.{meant};
ghost use Rattle.settlement.specs.Payments.{unknown, parts, part_of};
ghost use Rattle.element.specs.LinkDoc.{doc_of};
ghost use Rattle.payment.specs.Parts.{part_is};

use element::Document;

// What a child is.
#[derive(Clone, Copy)]
pub(crate) enum Part {
    TypeCode,
    Information,
    FinancialCard,
    DebtorAccount,
    CreditorAccount,
    Institution,
    Unknown,
}

// The names that are mapped.
const PARTS: [(&[u8], Part); 6] = [
    (b"TypeCode", Part::TypeCode),
    (b"Information", Part::Information),
    (
        b"ApplicableTradeSettlementFinancialCard",
        Part::FinancialCard,
    ),
    (b"PayerPartyDebtorFinancialAccount", Part::DebtorAccount),
    (b"PayeePartyCreditorFinancialAccount", Part::CreditorAccount),
    (
        b"PayeeSpecifiedCreditorFinancialInstitution",
        Part::Institution,
    ),
];

// What a name stands for.
// As `kind_named` in `kinds`, over a table and an enum of its own.
fn part_named(name: &[u8]) -> Part
    ensures { part_is result ≡ meant unknown parts name.now }
{
    text::meaning_of(&PARTS, name).unwrap_or(Part::Unknown)
}

// What element c is.
pub(crate) fn part_of(doc: &Document, c: usize) -> Part
    ensures { part_is result ≡ part_of (doc_of doc.now) c }
{
    part_named(doc.shown(doc.name(c)))
}
