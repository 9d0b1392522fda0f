// The groups of the answer's row: payee, period, means and totals, each with a number that says whether
// it is there.
ghost use Rattle.std.specs.Prelude.{◌≡◌};
ghost use Rattle.report.specs.Placed.{Placed};
ghost use Rattle.settlement.specs.Result.{identifier_cells, payee_cells, period_cells, means_cells, totals_cells};
ghost use Rattle.groups.specs.Groups.{maybe_identifier_of};
ghost use Rattle.payment.specs.Walks.{means_of};
ghost use Rattle.totals.specs.Reading.{totals_of};
ghost use Rattle.steps.specs.States.{maybe_payee_of, maybe_period_of};

use groups::{Identifier, Payee, Period};
use payment::Means;
use report::{amount_hundredths, amount_present, or_absent, put_row, text_length, text_start};
use totals::Totals;

// An identifier and its scheme.
fn identifier_cells(i: Option<Identifier>) -> [i64; 4]
    ensures { result ≡ identifier_cells (maybe_identifier_of i) }
{
    match i {
        None => [-1, 0, -1, 0],
        Some(id) => [
            id.content.start(),
            id.content.length(),
            text_start(id.scheme),
            text_length(id.scheme),
        ],
    }
}

// BG-10: whether there is one, BT-59, BT-60, BT-61.
pub(crate) fn put_payee(row: &mut [i64], at: usize, p: Option<Payee>) -> usize
    ensures { Placed row.old at (payee_cells (maybe_payee_of p)) row.new result }
{
    match p {
        None => put_row(row, at, &[0, -1, 0, -1, 0, -1, 0, -1, 0, -1, 0]),
        Some(payee) => {
            let cells: [i64; 3] = [1, text_start(payee.name), text_length(payee.name)];
            let at = put_row(row, at, &cells);
            let at = put_row(row, at, &identifier_cells(payee.identifier));
            put_row(row, at, &identifier_cells(payee.legal))
        }
    }
}

// BG-14: whether there is one, BT-73, BT-74.
pub(crate) fn period_cells(p: Option<Period>) -> [i64; 3]
    ensures { result ≡ period_cells (maybe_period_of p) }
{
    match p {
        None => [0, -1, -1],
        Some(period) => [1, or_absent(period.start), or_absent(period.end)],
    }
}

// BG-18 with BT-87 and BT-88, BG-19 with BT-91.
pub(crate) fn means_cells(m: Means) -> [i64; 8]
    ensures { result ≡ means_cells (means_of m) }
{
    match m {
        Means::Unset => [0, -1, 0, -1, 0, 0, -1, 0],
        Means::Transfers => [0, -1, 0, -1, 0, 0, -1, 0],
        Means::Card(card) => [
            1,
            text_start(card.number),
            text_length(card.number),
            text_start(card.holder),
            text_length(card.holder),
            0,
            -1,
            0,
        ],
        Means::Debit(account) => [
            0,
            -1,
            0,
            -1,
            0,
            1,
            text_start(account),
            text_length(account),
        ],
    }
}

// BG-22: BT-106 to BT-115.
pub(crate) fn totals_cells(t: Totals) -> [i64; 16]
    ensures { result ≡ totals_cells (totals_of t) }
{
    [
        t.line.to_minor_units(),
        amount_present(t.sums.allowance),
        amount_hundredths(t.sums.allowance),
        amount_present(t.sums.charge),
        amount_hundredths(t.sums.charge),
        t.taxable.to_minor_units(),
        amount_present(t.sums.vat),
        amount_hundredths(t.sums.vat),
        amount_present(t.sums.accounting),
        amount_hundredths(t.sums.accounting),
        t.gross.to_minor_units(),
        amount_present(t.sums.paid),
        amount_hundredths(t.sums.paid),
        amount_present(t.sums.rounding),
        amount_hundredths(t.sums.rounding),
        t.due.to_minor_units(),
    ]
}
