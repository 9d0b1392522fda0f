// The paths and terms of entries and the paths of unmapped elements, by their numbers, each behind a tab.
ghost use Rattle.std.specs.Prelude.{◌∷◌};
ghost use Rattle.labels.specs.PathText.{path_text_at};
ghost use Rattle.labels.specs.TermName.{term_group_at, term_name_at};
ghost use Rattle.decimals.specs.Decimal as decimal;
ghost use Rattle.decimals.specs.Puts.{Puts};
ghost use Rattle.fields.specs.Line.{field};
ghost use Rattle.lines.specs.Labels.{bracketed, group_text, term_text, term_shown, unmapped_path, name_shown};

use decimals::{Line, natural, size};
use fields::put_printable;

// Puts a tab and the text of the path that has a number.
pub fn put_path_field(line: &mut Line, number: i64)
    ensures { Puts (0x9 ∷ path_text_at (decimal.natural number)) line.old line.new }
{
    line.put_byte(b'\t');
    line.put_bytes(labels::path_text(natural(number)).as_bytes());
}

// Puts a group's index in brackets, nothing where it is below 0.
fn put_index(line: &mut Line, index: i64)
    ensures { Puts (bracketed index) line.old line.new }
{
    if index < 0 {
        return;
    }
    line.put_byte(b'[');
    line.put_decimal(size(index));
    line.put_byte(b']');
}

// Puts the group of the term that has a number, with an index and a slash, nothing where it stands in
// none.
fn put_group(line: &mut Line, number: usize, index: i64)
    ensures { Puts (group_text (term_group_at number) index) line.old line.new }
{
    let group = labels::group_name(number);
    if group.is_empty() {
        return;
    }
    line.put_bytes(group.as_bytes());
    put_index(line, index);
    line.put_byte(b'/');
}

// Puts the term that has a number, with its group and index.
fn put_term(line: &mut Line, number: usize, index: i64)
    ensures { Puts (term_text (term_group_at number) index (term_name_at number)) line.old line.new }
{
    put_group(line, number, index);
    line.put_bytes(labels::term_name(number).as_bytes());
}

// Puts a tab and the term that has a number, with its group and index, or a hyphen for none, 0.
pub fn put_term_field(line: &mut Line, number: i64, index: i64)
    ensures { Puts (0x9 ∷ field (term_shown (decimal.natural number) index)) line.old line.new }
{
    line.put_byte(b'\t');
    let term = natural(number);
    if term == 0 {
        return line.put_byte(b'-');
    }
    put_term(line, term, index);
}

// Puts a tab, the name of the parent that has a number, a slash and an element's name.
pub fn put_unmapped_field(line: &mut Line, text: &[u8], parent: i64, start: i64, length: i64)
    ensures { Puts (0x9 ∷ unmapped_path (decimal.natural parent) (name_shown text.now start length)) line.old line.new }
{
    line.put_byte(b'\t');
    line.put_bytes(labels::parent_name(natural(parent)).as_bytes());
    line.put_byte(b'/');
    put_printable(line, text::clip(text, natural(start), natural(length)));
}
