// The fields of a row, each behind a tab.
ghost use Rattle.std.specs.Prelude.{◌∷◌, drop, map};
ghost use Rattle.decimals.specs.Puts.{Puts};
ghost use Rattle.fields.specs.Line.{field, tabbed};
ghost use Rattle.fields.specs.Columns.{column_of, shown, fields};

use crate::column::Column;
use crate::row::numbers_from;
use crate::shown::put_shown;
use decimals::Line;

// Puts a tab and what a column shows, by a row's numbers from a place on.
pub fn put_field(line: &mut Line, text: &[u8], column: Column, row: &[i64], k: usize)
    ensures { Puts (0x9 ∷ field (shown text.now (column_of column) (drop k row.now))) line.old line.new }
{
    line.put_byte(b'\t');
    put_shown(line, text, column, numbers_from(row, k));
}

// Puts the fields of a row's numbers from a place on, one for each column.
pub fn put_fields(line: &mut Line, text: &[u8], columns: &[Column], row: &[i64], from: usize)
    ensures { Puts (tabbed (fields text.now (map column_of columns.now) (drop from row.now))) line.old line.new }
{
    let mut rest = numbers_from(row, from);
    for &column in columns {
        put_field(line, text, column, rest, 0);
        rest = numbers_from(rest, column.width());
    }
}
