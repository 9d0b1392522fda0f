// docs/TERMS.md.
use crate::output::print_rows;
use names::Term;
use std::io;

// Prints the group of a term, with an index unless it is BG-22, which is there once.
fn print_group(rt: &impl Print, number: u32) -> io::Result<()> {
    let group = labels::group_name(number as usize);
    if group.is_empty() {
        return Ok(());
    }
    rt.print(group)?;
    if number > u32::from(Term::Bt115) {
        rt.print("[i]")?;
    }
    rt.print("/")
}

pub(crate) fn print_terms(rt: &impl Print) -> io::Result<()> {
    rt.print(
        "# Terms

The number of an entry's term, and the term as the Rust prints it, where i is the index of its group; 0 is no term.

| No. | Term |
|---|---|
",
    )?;
    print_rows(
        rt,
        |number| labels::term_name(number),
        |number| print_group(rt, number),
    )
}
