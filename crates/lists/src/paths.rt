// docs/PATHS.md.
use crate::output::print_rows;
use std::io;

pub(crate) fn print_paths(rt: &impl Print) -> io::Result<()> {
    rt.print(
        "# Paths

The number of an entry's path, and the path as the Rust prints it, without the names above the settlement.

| No. | Path |
|---|---|
",
    )?;
    print_rows(rt, |number| labels::path_text(number), |_| Ok(()))
}
