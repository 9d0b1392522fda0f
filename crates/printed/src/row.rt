// The lines of rows: of what is held, of entries and of unmapped elements, and the line that a call
// begins with.
ghost use Rattle.std.specs.Prelude.{◌≡◌, [], ◌∷◌, ◌++◌, drop, map};
ghost use Rattle.text.specs.Utf8.{bytes};
ghost use Rattle.labels.specs.PathText.{path_text_at};
ghost use Rattle.report.specs.Columns.{held_columns};
ghost use Rattle.decimals.specs.Decimal.{signed, natural};
ghost use Rattle.decimals.specs.Puts.{Puts};
ghost use Rattle.fields.specs.Line.{field, tabbed};
ghost use Rattle.fields.specs.Columns.{column_of, cell, fields};
ghost use Rattle.lines.specs.Labels.{term_shown, unmapped_path, name_shown};
ghost use Rattle.printed.specs.Numbers.{accepted_line, refused_line, held_numbers, entry_numbers, unmapped_numbers};

use crate::count::count_at;
use decimals::Line;
use fields::Column::{self, Amount, Date, Percent, Plain, Text};
use fields::{number_at, put_field, put_fields};

// The columns of a held row, by its kind: kind, account, name, provider; kind, taxable, tax, category, rate,
// exemption reason, its code; kind, amount, base, percentage, category, rate, reason, code; kind,
// reference, date.
const TRANSFER: [Column; 4] = [Plain, Text, Text, Text];

const VAT: [Column; 7] = [Plain, Plain, Plain, Text, Percent, Text, Text];

const ALLOWANCE_CHARGE: [Column; 8] = [Plain, Plain, Amount, Percent, Text, Percent, Text, Text];

const PRECEDING: [Column; 3] = [Plain, Text, Date];

// Puts a word, the fields of a row's numbers from a place on, one for each column, and a line feed.
fn put_row_line(
    line: &mut Line,
    word: &[u8],
    text: &[u8],
    columns: &[Column],
    row: &[i64],
    from: usize,
)
    ensures { Puts (word.now ++ tabbed (fields text.now (map column_of columns.now) (drop from row.now)) ++ 0xA ∷ []) line.old line.new }
{
    line.put_bytes(word);
    put_fields(line, text, columns, row, from);
    line.put_byte(b'\n');
}

// The three counts of a call that read.
pub(crate) fn put_accepted(line: &mut Line, text: &[u8], answer: &[i64])
    ensures { Puts (accepted_line text.now answer.now) line.old line.new }
{
    put_row_line(line, b"accepted", text, &[Plain, Plain, Plain], answer, 2);
}

// The number and record of a refusal.
pub(crate) fn put_refused(line: &mut Line, text: &[u8], answer: &[i64])
    ensures { Puts (refused_line text.now answer.now) line.old line.new }
{
    put_row_line(line, b"refused", text, &[Plain, Plain], answer, 0);
}

// The columns of a held row of a kind.
#[tactic(auto, using(crate::proofs::Putting::kind_other), unfolding(report::specs::Columns::held_columns))]
fn columns_held(kind: usize) -> &'static [Column]
    ensures { map column_of result.now ≡ held_columns kind }
{
    match kind {
        1 => &TRANSFER,
        2 => &VAT,
        3 => &ALLOWANCE_CHARGE,
        4 => &ALLOWANCE_CHARGE,
        5 => &PRECEDING,
        _ => &[Plain],
    }
}

// What is held, by its kind.
pub(crate) fn put_held(line: &mut Line, text: &[u8], row: &[i64])
    ensures { Puts (held_numbers text.now row.now) line.old line.new }
{
    put_row_line(line, b"held", text, columns_held(count_at(row, 0)), row, 0);
}

// The path of an entry, behind a tab.
fn put_path(line: &mut Line, row: &[i64])
    ensures { Puts (0x9 ∷ path_text_at (natural (cell row.now 1))) line.old line.new }
{
    lines::put_path_field(line, number_at(row, 1));
}

// Its term.
fn put_term(line: &mut Line, row: &[i64])
    ensures { Puts (0x9 ∷ field (term_shown (natural (cell row.now 2)) (cell row.now 3))) line.old line.new }
{
    lines::put_term_field(line, number_at(row, 2), number_at(row, 3));
}

// An entry: message, path, term, value.
pub(crate) fn put_entry(line: &mut Line, text: &[u8], row: &[i64])
    ensures { Puts (entry_numbers text.now row.now) line.old line.new }
{
    line.put_bytes(b"entry");
    put_field(line, text, Plain, row, 0);
    put_path(line, row);
    put_term(line, row);
    put_field(line, text, Text, row, 4);
    line.put_byte(b'\n');
}

// The path of an unmapped element, behind a tab.
fn put_element(line: &mut Line, text: &[u8], row: &[i64])
    ensures { Puts (0x9 ∷ unmapped_path (natural (cell row.now 0)) (name_shown text.now (cell row.now 1) (cell row.now 2))) line.old line.new }
{
    lines::put_unmapped_field(
        line,
        text,
        number_at(row, 0),
        number_at(row, 1),
        number_at(row, 2),
    );
}

// An unmapped element: its path.
pub(crate) fn put_unmapped(line: &mut Line, text: &[u8], row: &[i64])
    ensures { Puts (unmapped_numbers text.now row.now) line.old line.new }
{
    line.put_bytes(b"unmapped");
    put_element(line, text, row);
    line.put_byte(b'\n');
}
