// The answer as one row: refusal number, record, three counts, the terms.
ghost use Rattle.std.specs.Prelude.{◌≡◌, ◌<◌, ◌^◌, pos, Ok, Err};
ghost use Rattle.report.specs.Placed.{Placed};
ghost use Rattle.report.specs.Encoding.{text_cells};
ghost use Rattle.report.specs.Values.{text_of};
ghost use Rattle.settlement.specs.Result.{flag, terms_row};
ghost use Rattle.terms.specs.Terms.{terms_of};
ghost use Rattle.reader.specs.Answers.{answer_of};
ghost use Rattle.rulzhamm.specs.Parts.{plain_cells, payment_cells, count_cells, answer_cells, Small};

use crate::groups_row::{means_cells, period_cells, put_payee, totals_cells};
use reader::Reading;
use refusals::Refusal;
use report::{Place, or_absent, put_row, text_length, text_start};
use terms::Terms;

// A count as a signed number: it fits, so that no `try_from` is asked.
fn signed(n: usize) -> i64
    requires { n < 2 ^ 63 }
    ensures { result ≡ pos n }
{
    n as i64
}

// 1 for what is there, 0 for what is not.
fn flag_number(there: bool) -> i64
    ensures { result ≡ flag there }
{
    i64::from(there)
}

// A text.
fn text_cells(t: Option<Place>) -> [i64; 2]
    ensures { result ≡ text_cells (text_of t) }
{
    [text_start(t), text_length(t)]
}

// BT-5 to BT-9, BT-19 and BT-20.
fn plain_cells(t: Terms) -> [i64; 11]
    ensures { result ≡ plain_cells t }
{
    [
        text_start(t.bt5),
        text_length(t.bt5),
        text_start(t.bt6),
        text_length(t.bt6),
        or_absent(t.bt7),
        or_absent(t.bt8),
        or_absent(t.bt9),
        text_start(t.bt19),
        text_length(t.bt19),
        text_start(t.bt20),
        text_length(t.bt20),
    ]
}

// Whether there is BG-16, and BT-81 to BT-83.
fn payment_cells(t: Terms) -> [i64; 7]
    ensures { result ≡ payment_cells t }
{
    [
        flag_number(t.paid),
        text_start(t.bt81),
        text_length(t.bt81),
        text_start(t.bt82),
        text_length(t.bt82),
        text_start(t.bt83),
        text_length(t.bt83),
    ]
}

// Puts all terms into the row at a place, and answers where the next numbers go.
fn put_terms(row: &mut [i64], at: usize, t: Terms) -> usize
    ensures { Placed row.old at (terms_row (terms_of t)) row.new result }
{
    let at = put_row(row, at, &plain_cells(t));
    let at = put_payee(row, at, t.payee);
    let at = put_row(row, at, &period_cells(t.period));
    let at = put_row(row, at, &payment_cells(t));
    let at = put_row(row, at, &means_cells(t.means));
    let at = put_row(row, at, &text_cells(t.bt89));
    let at = put_row(row, at, &text_cells(t.bt90));
    put_row(row, at, &totals_cells(t.totals))
}

// The counts of a reading, behind 0 for refusal and record.
fn reading_counts(reading: Reading) -> [i64; 5]
    requires { Small (answer_of (Ok reading)) }
    ensures { result ≡ count_cells (answer_of (Ok reading)) }
{
    [
        0,
        0,
        signed(reading.held),
        signed(reading.entries),
        signed(reading.unmapped),
    ]
}

// The number and the record of a refusal, before counts of 0.
fn refusal_counts(refusal: Refusal) -> [i64; 5]
    requires { Small (answer_of (Err refusal)) }
    ensures { result ≡ count_cells (answer_of (Err refusal)) }
{
    [
        i64::from(u32::from(refusal.reason)),
        signed(refusal.record),
        0,
        0,
        0,
    ]
}

// The whole answer: its counts, and its terms, blank ones where it is a refusal.
pub(crate) fn put_answer(row: &mut [i64; 65], answer: Result<Reading, Refusal>)
    requires { Small (answer_of answer) }
    ensures { row.new ≡ answer_cells (answer_of answer) }
{
    match answer {
        Ok(reading) => {
            let at = put_row(row, 0, &reading_counts(reading));
            put_terms(row, at, reading.terms);
        }
        Err(refusal) => {
            let at = put_row(row, 0, &refusal_counts(refusal));
            put_terms(row, at, terms::blank_terms());
        }
    }
}
