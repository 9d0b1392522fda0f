// The numbers of a row.
ghost use Rattle.std.specs.Prelude.{◌≡◌, drop};
ghost use Rattle.fields.specs.Columns.{cell};

// A row's number, 0 past its end.
// One call of the library; so are the like of bytes and of other lists, and one for all is no plainer.
pub fn number_at(row: &[i64], i: usize) -> i64
    ensures { result ≡ cell row.now i }
{
    row.get(i).copied().unwrap_or(0)
}

// A row's numbers from a place on, none past its end.
pub fn numbers_from(row: &[i64], k: usize) -> &[i64]
    ensures { result.now ≡ drop k row.now }
{
    row.get(k..).unwrap_or(&[])
}
