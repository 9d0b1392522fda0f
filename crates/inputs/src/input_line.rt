// The input line: mode, rules, currency and identifier.
ghost use Rattle.std.specs.Prelude.{◌≡◌};
ghost use Rattle.inputs.specs.Places.{spaced_at, named_at, fit_at, Parsed};

use crate::parts::{bytes_at, field_at, is_closing, is_space};
use text::{Span, numeral_of};

// The most bytes of an input line, with its line feed.
const LONGEST: usize = 4194304;

// The most digits of mode and of rules.
const DIGITS: usize = 9;

// What a line says: two numbers, and where currency and identifier stand in it. The place of one that
// is not given is empty.
#[derive(Clone, Copy)]
pub struct Fields {
    pub mode: u32,
    pub rules: u32,
    pub currency: Span,
    pub identifier: Span,
}

// The place of a currency or an identifier, empty where `-` stands for none; none where the field is empty.
#[tactic(auto, using(crate::proofs::Bytes::name_long), unfolding(crate::specs::Line::filled, crate::specs::Places::name_at, crate::specs::Places::named_at, text::specs::Order::equal))]
fn name_at(input: &[u8], place: Span) -> Option<Span>
    ensures { result ≡ named_at input.now place }
{
    match bytes_at(input, place) {
        [] => None,
        [b'-'] => Some(Span {
            start: place.start,
            end: place.start,
        }),
        _ => Some(place),
    }
}

// What four fields say, by their places.
fn fields_of(
    input: &[u8],
    mode: Span,
    rules: Span,
    currency: Span,
    identifier: Span,
) -> Option<Fields>
    ensures { result ≡ fit_at input.now mode rules currency identifier }
{
    Some(Fields {
        mode: numeral_of(bytes_at(input, mode), DIGITS)?,
        rules: numeral_of(bytes_at(input, rules), DIGITS)?,
        currency: name_at(input, currency)?,
        identifier: name_at(input, identifier)?,
    })
}

// The field that begins at start, if a space ends it.
#[tactic(auto, unfolding(crate::specs::Places::spaced_at))]
fn spaced_at(input: &[u8], start: usize) -> Option<Span>
    ensures { result ≡ spaced_at input.now start }
{
    let field = field_at(input, start);
    is_space(input, field.end).then_some(field)
}

// What an input line says.
pub fn parse_line(input: &[u8]) -> Option<Fields>
    ensures { Parsed input.now result }
{
    if input.len() > LONGEST {
        return None;
    }
    let mode = spaced_at(input, 0)?;
    let rules = spaced_at(input, mode.end + 1)?;
    let currency = spaced_at(input, rules.end + 1)?;
    let identifier = field_at(input, currency.end + 1);
    if !is_closing(input, identifier.end) {
        return None;
    }
    fields_of(input, mode, rules, currency, identifier)
}
