// What the numbers of a row show, by the kind of their column. Where they say that it is absent, a
// hyphen.
ghost use Rattle.decimals.specs.Puts.{Puts};
ghost use Rattle.fields.specs.Line.{printable, field};
ghost use Rattle.fields.specs.Columns.{text_shown, amount_shown, percent_shown, date_shown, column_of, shown};

use crate::column::Column;
use crate::row::number_at;
use decimals::{Line, natural, size};

// Puts a text, a space for each byte below 32.
pub fn put_printable(line: &mut Line, s: &[u8])
    ensures { Puts (printable s.now) line.old line.new }
{
    for &b in s {
        line.put_byte(b.max(b' '));
    }
}

// Puts the bytes of a text at a place.
fn put_text(line: &mut Line, text: &[u8], start: i64, length: i64)
    ensures { Puts (field (text_shown text.now start length)) line.old line.new }
{
    if start < 0 || length < 0 {
        return line.put_byte(b'-');
    }
    put_printable(line, text::clip(text, natural(start), natural(length)));
}

// Puts an amount that may be absent.
fn put_amount(line: &mut Line, present: i64, hundredths: i64)
    ensures { Puts (field (amount_shown present hundredths)) line.old line.new }
{
    if natural(present) == 0 {
        return line.put_byte(b'-');
    }
    line.put_signed(hundredths);
}

// Puts a percentage.
fn put_percent(line: &mut Line, unscaled: i64, scale: i64)
    ensures { Puts (field (percent_shown unscaled scale)) line.old line.new }
{
    if scale < 0 {
        return line.put_byte(b'-');
    }
    line.put_signed(unscaled);
    line.put_byte(b'/');
    line.put_decimal(size(scale));
}

// Puts a date.
fn put_date(line: &mut Line, date: i64)
    ensures { Puts (field (date_shown date)) line.old line.new }
{
    if date < 0 {
        return line.put_byte(b'-');
    }
    line.put_decimal(size(date));
}

// Puts what a column shows, by a row's numbers from it on.
pub(crate) fn put_shown(line: &mut Line, text: &[u8], column: Column, cells: &[i64])
    ensures { Puts (field (shown text.now (column_of column) cells.now)) line.old line.new }
{
    let a = number_at(cells, 0);
    let b = number_at(cells, 1);
    match column {
        Column::Text => put_text(line, text, a, b),
        Column::Amount => put_amount(line, a, b),
        Column::Percent => put_percent(line, a, b),
        Column::Date => put_date(line, a),
        Column::Plain => line.put_signed(a),
    }
}
