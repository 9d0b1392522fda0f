// The columns of a row.
ghost use Rattle.std.specs.Prelude.{◌≡◌};
ghost use Rattle.report.specs.Columns.{width};
ghost use Rattle.fields.specs.Columns.{column_of, column_by};

// What the numbers of a column are: a text (start, length), a plain number, an amount that may be absent
// (1 or 0, amount), a percentage (unscaled number, scale), a date.
#[derive(Clone, Copy)]
pub enum Column {
    Text,
    Plain,
    Amount,
    Percent,
    Date,
}

impl Column {
    // How many numbers it has.
    pub(crate) fn width(self) -> usize
        ensures { result ≡ width (column_of self) }
    {
        match self {
            Column::Text | Column::Amount | Column::Percent => 2,
            Column::Plain | Column::Date => 1,
        }
    }
}

// By a letter, for callers that write columns so: t text, a amount, p percentage, d date, any other plain.
impl From<u8> for Column {
    ghost from_gives = { λ letter c. column_of c ≡ column_by letter };

    #[tactic(auto, unfolding(crate::specs::Columns::column_by))]
    fn from(letter: u8) -> Column {
        match letter {
            b't' => Column::Text,
            b'a' => Column::Amount,
            b'p' => Column::Percent,
            b'd' => Column::Date,
            _ => Column::Plain,
        }
    }
}
