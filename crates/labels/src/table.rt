// Tables of texts, by their numbers from 0.
ghost use Rattle.std.specs.Prelude.{◌≡◌, [], get_or, map};

// The text of a table that has a number, none past its end.
pub(crate) fn text_of<'a>(table: &[&'a str], number: usize) -> &'a str
    ensures { result.now ≡ get_or (map (λ t. t.now) table.now) number [] }
{
    table.get(number).copied().unwrap_or("")
}
