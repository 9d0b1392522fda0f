// Writing to standard output.
use std::io;

// More numbers than there are paths or terms.
const LIMIT: u32 = 1000;

// The start of a table's row: a number, and the mark that parts it from the next column.
pub(crate) fn print_cell(rt: &impl Print, n: u32) -> io::Result<()> {
    print!(rt; "| {n} | ")
}

// Prints a row for each number from 1 on, up to the first that has no text. `text_of` answers a number's
// text, and `before` prints what stands before it.
pub(crate) fn print_rows<'a, T: Fn(usize) -> &'a str, B: Fn(u32) -> io::Result<()>>(
    rt: &impl Print,
    text_of: T,
    before: B,
) -> io::Result<()>
    requires text { T.IsAlwaysCallable text_of }
    requires group { B.IsAlwaysCallable before }
{
    for number in 1..LIMIT {
        let text = text_of(number as usize);
        if text.is_empty() {
            break;
        }
        print_cell(rt, number)?;
        before(number)?;
        print!(rt; "{text} |\n")?;
    }
    Ok(())
}
