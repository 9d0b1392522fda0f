// The lines of terms.
ghost use Rattle.std.specs.Prelude.{◌≡◌, [], ◌∷◌, ◌++◌};
ghost use Rattle.settlement.specs.Document.{maybe};
ghost use Rattle.text.specs.Utf8.{bytes};
ghost use Rattle.decimals.specs.Decimal.{decimal};
ghost use Rattle.decimals.specs.Puts.{Puts};
ghost use Rattle.fields.specs.Line.{tabbed};
ghost use Rattle.fields.specs.Columns.{column_of};
ghost use Rattle.printed.specs.Numbers.{is_natural, is_shown, has_scheme, scheme_shown, term_numbers};
ghost use Rattle.printed.specs.Tables.{term_of};

use decimals::{Line, natural};
use fields::Column::{self, Amount, Date, Percent, Plain, Text};
use fields::{number_at, numbers_from, put_field};

// A term: its number, its column, and where it stands in the answer.
#[derive(Clone, Copy)]
pub(crate) struct Term(pub u8, pub Column, pub u8);

// The terms, ascending.
pub(crate) const TERMS: [Term; 30] = [
    Term(5, Text, 5),
    Term(6, Text, 7),
    Term(7, Date, 9),
    Term(8, Date, 10),
    Term(9, Date, 11),
    Term(19, Text, 12),
    Term(20, Text, 14),
    Term(59, Text, 17),
    Term(60, Text, 19),
    Term(61, Text, 23),
    Term(73, Date, 28),
    Term(74, Date, 29),
    Term(81, Text, 31),
    Term(82, Text, 33),
    Term(83, Text, 35),
    Term(87, Text, 38),
    Term(88, Text, 40),
    Term(89, Text, 45),
    Term(90, Text, 47),
    Term(91, Text, 43),
    Term(106, Plain, 49),
    Term(107, Amount, 50),
    Term(108, Amount, 52),
    Term(109, Plain, 54),
    Term(110, Amount, 55),
    Term(111, Amount, 57),
    Term(112, Plain, 59),
    Term(113, Amount, 60),
    Term(114, Amount, 62),
    Term(115, Plain, 64),
];

// Whether a number is not below 0.
fn is_natural(z: i64) -> bool
    ensures { result ≡ is_natural z }
{
    z >= 0
}

// Whether a column shows something, by a row's numbers from it on.
fn is_shown(column: Column, cells: &[i64]) -> bool
    ensures { result ≡ is_shown (column_of column) cells.now }
{
    let a = number_at(cells, 0);
    let b = number_at(cells, 1);
    match column {
        Text => is_natural(a) && is_natural(b),
        Amount => natural(a) != 0,
        Percent => is_natural(b),
        Date => is_natural(a),
        Plain => true,
    }
}

// Whether a term has a scheme.
#[tactic(auto, unfolding(crate::specs::Numbers::has_scheme))]
fn is_identifier(number: u8) -> bool
    ensures { result ≡ has_scheme number }
{
    number == 60 || number == 61
}

// Puts the scheme of an identifier behind its content, if there is one.
fn put_scheme(line: &mut Line, text: &[u8], answer: &[i64], term: Term)
    ensures { Puts (tabbed (maybe [] (λ t. t ∷ []) (scheme_shown text.now answer.now term.0 term.2))) line.old line.new }
{
    if !is_identifier(term.0) {
        return;
    }
    let place = term.2 as usize + 2;
    if !is_shown(Text, numbers_from(answer, place)) {
        return;
    }
    put_field(line, text, Text, answer, place);
}

// Puts the line of a term, nothing where it is absent.
pub(crate) fn put_term(line: &mut Line, text: &[u8], answer: &[i64], term: Term)
    ensures { Puts (term_numbers text.now answer.now (term_of term)) line.old line.new }
{
    let place = term.2 as usize;
    if !is_shown(term.1, numbers_from(answer, place)) {
        return;
    }
    line.put_bytes(b"term\tBT-");
    line.put_decimal(term.0 as u64);
    put_field(line, text, term.1, answer, place);
    put_scheme(line, text, answer, term);
    line.put_byte(b'\n');
}
