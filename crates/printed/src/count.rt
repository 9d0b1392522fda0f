// How many lines a call has.
ghost use Rattle.std.specs.Prelude.{◌≡◌, ◌<◌};
ghost use Rattle.decimals.specs.Decimal.{natural};
ghost use Rattle.fields.specs.Columns.{cell};
ghost use Rattle.printed.specs.Numbers.{there, row_count, line_count};

use report::{ENTRY_WIDTH, HELD_WIDTH, UNMAPPED_WIDTH};

// A number of a row, 0 for one below that.
pub(crate) fn count_at(row: &[i64], i: usize) -> usize
    ensures { result ≡ natural (cell row.now i) }
{
    decimals::natural(fields::number_at(row, i))
}

// Whether the call was refused.
pub(crate) fn is_refused(answer: &[i64]) -> bool
    ensures { result ≡ there (cell answer.now 0) }
{
    count_at(answer, 0) != 0
}

// How many rows of a width a list has: as many as the answer says in number i, if the list has so many.
pub(crate) fn row_count(width: usize, answer: &[i64], i: usize, rows: &[i64]) -> usize
    requires { 0 < width }
    ensures { result ≡ row_count width (cell answer.now i) rows.now }
{
    count_at(answer, i).min(rows.len() / width)
}

// How many lines the numbers of a call have, the empty ones of absent groups and terms among them.
pub fn line_count(answer: &[i64], held: &[i64], entries: &[i64], unmapped: &[i64]) -> usize
    ensures { result ≡ line_count answer.now held.now entries.now unmapped.now }
{
    if is_refused(answer) {
        return 1;
    }
    let h = row_count(HELD_WIDTH, answer, 2, held);
    let e = row_count(ENTRY_WIDTH, answer, 3, entries);
    let u = row_count(UNMAPPED_WIDTH, answer, 4, unmapped);
    36 + h + e + u
}
