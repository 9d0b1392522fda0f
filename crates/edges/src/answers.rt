// What the leaf functions answer, as the numbers that are printed.
ghost use Rattle.std.specs.Prelude.{◌≡◌, [], ◌∷◌, ◌/◌, ◌%◌, ◌≤◌, length, take, drop, pos};
ghost use Rattle.text.specs.Order.{equal, order, ordering};
ghost use Rattle.text.specs.Span.{part_of};
ghost use Rattle.characters.specs.Trim.{trimmed};
ghost use Rattle.amount.specs.Answers.{amount_answer, percentage_answer};
ghost use Rattle.date.specs.Answers.{date_answer};
ghost use Rattle.codes.specs.VatPoint.{vat_point_answer};
ghost use Rattle.codes.specs.Boolean.{boolean_answer};
ghost use Rattle.cases.specs.Symbols.{filled};
ghost use Rattle.edges.specs.Answers.{numbers, truth, places, sign, first_byte, part_numbers, amount_numbers, percentage_numbers, natural_numbers, boolean_numbers, rule_of, rule_numbers, answer_of};

use crate::leaves::Leaf;
use amount::{AmountError, InvoiceAmount, Percentage, PercentageError};
use codes::Rule;
use date::DateError;
use std::cmp::Ordering;

// Up to three numbers.
#[derive(Clone, Copy, PartialEq, Eq)]
pub(crate) enum Numbers {
    Nothing,
    One(i64),
    Two(i64, i64),
    Three(i64, i64, i64),
}

fn of_trim(s: &[u8], mode: u32) -> Numbers
    ensures { result ≡ numbers (places (trimmed mode s.now)) }
{
    let t = characters::trim(s, mode);
    Numbers::Two(t.start as i64, t.end as i64)
}

// The first n bytes of s, or all, and those after them.
fn halves(s: &[u8], n: u32) -> (&[u8], &[u8])
    ensures first { result.0.now ≡ take n s.now }
    ensures second { result.1.now ≡ drop n s.now }
{
    s.split_at((n as usize).min(s.len()))
}

fn of_same(s: &[u8], n: u32) -> Numbers
    ensures { result ≡ numbers (truth (equal (take n s.now) (drop n s.now)) ∷ []) }
{
    let (first, second) = halves(s, n);
    Numbers::One(i64::from(text::same(first, second)))
}

fn of_ordering(o: Ordering) -> Numbers
    ensures { result ≡ numbers (sign (ordering o) ∷ []) }
{
    match o {
        Ordering::Less => Numbers::One(-1),
        Ordering::Equal => Numbers::One(0),
        Ordering::Greater => Numbers::One(1),
    }
}

fn of_compare(s: &[u8], n: u32) -> Numbers
    ensures { result ≡ numbers (sign (order (take n s.now) (drop n s.now)) ∷ []) }
{
    let (first, second) = halves(s, n);
    of_ordering(text::compare(first, second))
}

// The first byte of s, and -1 where there is none.
#[tactic(auto, unfolding(crate::specs::Answers::first_byte))]
fn first_byte(s: &[u8]) -> i64
    ensures { result ≡ first_byte s.now }
{
    match s {
        [b, ..] => i64::from(*b),
        [] => -1,
    }
}

fn of_part(s: &[u8], n: u32) -> Numbers
    ensures { result ≡ numbers (part_numbers (part_of s.now (n / 1000) (n % 1000))) }
{
    let p = text::part(s, (n / 1000) as usize, (n % 1000) as usize);
    Numbers::Two(p.len() as i64, first_byte(p))
}

fn of_amount(p: Result<InvoiceAmount, AmountError>) -> Numbers
    ensures { result ≡ numbers (amount_numbers (amount_answer p)) }
{
    match p {
        Ok(a) => Numbers::Two(0, a.to_minor_units()),
        Err(AmountError::Empty) => Numbers::One(0),
        Err(AmountError::Malformed) => Numbers::One(3),
        Err(AmountError::TooManyDecimals) => Numbers::One(4),
        Err(AmountError::OutOfRange) => Numbers::One(5),
    }
}

fn of_rate(p: Percentage) -> Numbers
    ensures { result ≡ numbers (pos 0 ∷ p.unscaled ∷ pos p.scale ∷ []) }
{
    Numbers::Three(0, p.to_unscaled(), i64::from(p.to_scale()))
}

fn of_percentage(p: Result<Percentage, PercentageError>) -> Numbers
    ensures { result ≡ numbers (percentage_numbers (percentage_answer p)) }
{
    match p {
        Ok(a) => of_rate(a),
        Err(PercentageError::Malformed) => Numbers::One(6),
        Err(PercentageError::TooPrecise) => Numbers::One(7),
    }
}

fn of_date(p: Result<u32, DateError>) -> Numbers
    ensures { result ≡ numbers (natural_numbers (date_answer p)) }
{
    match p {
        Ok(n) => Numbers::Two(0, i64::from(n)),
        Err(DateError::Malformed) => Numbers::One(12),
        Err(DateError::NotACalendarDay) => Numbers::One(13),
    }
}

fn of_point(p: Option<u32>) -> Numbers
    ensures { result ≡ numbers (natural_numbers (vat_point_answer p)) }
{
    match p {
        Some(n) => Numbers::Two(0, i64::from(n)),
        None => Numbers::One(15),
    }
}

fn of_boolean(p: Option<bool>) -> Numbers
    ensures { result ≡ numbers (boolean_numbers (boolean_answer p)) }
{
    match p {
        Some(b) => Numbers::Two(0, i64::from(b)),
        None => Numbers::One(18),
    }
}

const RULES: [(&[u8], Rule); 12] = [
    (b"12", Rule::Br12),
    (b"13", Rule::Br13),
    (b"14", Rule::Br14),
    (b"15", Rule::Br15),
    (b"31", Rule::Br31),
    (b"32", Rule::Br32),
    (b"36", Rule::Br36),
    (b"37", Rule::Br37),
    (b"45", Rule::Br45),
    (b"46", Rule::Br46),
    (b"47", Rule::Br47),
    (b"55", Rule::Br55),
];

// The rule of a text.
fn rule_of(s: &[u8]) -> Option<Rule>
    ensures { result ≡ rule_of s.now }
{
    text::meaning_of(&RULES, s)
}

fn of_rule(rules: u32, named: Option<Rule>) -> Numbers
    ensures { result ≡ numbers (rule_numbers rules named) }
{
    match named {
        Some(rule) => Numbers::One(i64::from(codes::is_in_force(rules, rule))),
        None => Numbers::Nothing,
    }
}

// What a leaf answers on a text, with the case's number.
// A `match` on the leaf: no function is handed on.
fn answer(leaf: Leaf, n: u32, s: &[u8]) -> Numbers
    ensures { result ≡ numbers (answer_of leaf n s.now) }
{
    match leaf {
        Leaf::Utf8 => Numbers::One(i64::from(characters::is_utf8(s))),
        Leaf::Trim => of_trim(s, n),
        Leaf::Digit => Numbers::One(i64::from(text::is_digit(cases::byte_at(s, 0)))),
        Leaf::Same => of_same(s, n),
        Leaf::Compare => of_compare(s, n),
        Leaf::Part => of_part(s, n),
        Leaf::Amount => of_amount(InvoiceAmount::parse(s, n)),
        Leaf::Percentage => of_percentage(Percentage::parse(s, n)),
        Leaf::Date => of_date(date::parse(s, n)),
        Leaf::Currency => Numbers::One(i64::from(codes::is_currency(s))),
        Leaf::Vat => Numbers::One(i64::from(codes::is_vat(s))),
        Leaf::Conformant => Numbers::One(i64::from(codes::is_conformant(s))),
        Leaf::Format => Numbers::One(i64::from(codes::is_date_format(s))),
        Leaf::Point => of_point(codes::vat_point_date_code_from_cii(s)),
        Leaf::Boolean => of_boolean(codes::parse_boolean(s)),
        Leaf::Rule => of_rule(n, rule_of(s)),
    }
}

// What a leaf answers on a text whose hole is filled by a byte. The text is put into the space,
// which has room for it where it is as long as the text.
pub(crate) fn answer_at(leaf: Leaf, n: u32, s: &[u8], hole: u8, space: &mut [u8]) -> Numbers
    ensures { length s.now ≤ length space.old → result ≡ numbers (answer_of leaf n (filled hole s.now)) }
{
    let many = cases::fill(s, hole, space);
    answer(leaf, n, text::part(space, 0, many))
}
