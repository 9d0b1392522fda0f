// The children of a summation, by their names.
ghost use Rattle.std.specs.Prelude.{◌≡◌};
ghost use Rattle.settlement.specs.Kinds.{meant};
ghost use Rattle.settlement.specs.Summation.{unread, sums, sum_of};
ghost use Rattle.element.specs.LinkDoc.{doc_of};
ghost use Rattle.totals.specs.State.{sum_is};

use element::Document;

// An optional amount in the currency of the invoice: BT-107, BT-108, BT-114 or BT-113.
#[derive(Clone, Copy)]
pub(crate) enum Optional {
    AllowanceTotal,
    ChargeTotal,
    Rounding,
    Prepaid,
}

// What a child is: read once after all others, an optional amount, a tax total, or unmapped.
#[derive(Clone, Copy)]
pub(crate) enum Sum {
    Required,
    Optional(Optional),
    TaxTotal,
    Unread,
}

// The names that are mapped.
const SUMS: [(&[u8], Sum); 9] = [
    (b"LineTotalAmount", Sum::Required),
    (b"TaxBasisTotalAmount", Sum::Required),
    (b"GrandTotalAmount", Sum::Required),
    (b"DuePayableAmount", Sum::Required),
    (b"ChargeTotalAmount", Sum::Optional(Optional::ChargeTotal)),
    (
        b"AllowanceTotalAmount",
        Sum::Optional(Optional::AllowanceTotal),
    ),
    (b"TaxTotalAmount", Sum::TaxTotal),
    (b"RoundingAmount", Sum::Optional(Optional::Rounding)),
    (b"TotalPrepaidAmount", Sum::Optional(Optional::Prepaid)),
];

// What a name stands for.
// As `kind_named` in `kinds`, over a table and an enum of its own.
fn sum_named(name: &[u8]) -> Sum
    ensures { sum_is result ≡ meant unread sums name.now }
{
    text::meaning_of(&SUMS, name).unwrap_or(Sum::Unread)
}

// What child c is.
#[tactic(auto, unfolding(settlement::specs::Summation::sum_of))]
pub(crate) fn sum_of(doc: &Document, c: usize) -> Sum
    ensures { sum_is result ≡ sum_of (doc_of doc.now) c }
{
    sum_named(doc.shown(doc.name(c)))
}
