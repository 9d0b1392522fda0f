// The reader on stored cases: each line of standard input is a case, and its reading is printed as
// document 01 says, and then an empty line.
//
// A case is an input line (mode, rules number, currency, identifier), the table's numbers and, after
// ` :`, its text. `stdout` has the answers that the Rust gave, or that were worked out from document 01;
// oracle/README.md says how both files were made.
#![tactic(auto)]

ghost use Rattle.std.specs.Prelude.{◌≡◌, length};
ghost use Rattle.replay.specs.Case.{next_space, fields_end};

use cases::{find, read_full};
use std::io;

fn print_unfit(rt: &impl Print) -> io::Result<()> {
    rt.write_all(b"unfit\n")
}

// The next space behind a place.
#[tactic(auto, unfolding(crate::specs::Case::next_space, crate::specs::Case::space_from))]
fn next_space(line: &[u8], at: usize) -> usize
    ensures { result ≡ next_space line.now at }
{
    if at < line.len() {
        return find(line, at + 1, b' ');
    }
    line.len()
}

// Where the fourth field ends.
#[tactic(auto, unfolding(crate::specs::Case::fields_end, crate::specs::Case::space_from))]
fn fields_end(line: &[u8]) -> usize
    ensures { result ≡ fields_end line.now }
{
    let first = find(line, 0, b' ');
    let second = next_space(line, first);
    let third = next_space(line, second);
    next_space(line, third)
}

// The reading of a table and its text under an input line, unless that is unfit.
fn print_table(rt: &impl Print, input: &[u8], table: &[u32], text: &[u8]) -> io::Result<()> {
    match inputs::parse_line(input) {
        Some(fields) => printer::print_fields(rt, table, text, input, fields),
        None => print_unfit(rt),
    }
}

// A case by its parts: input line, numbers, text, the table being the space for the numbers.
fn print_parts(
    rt: &impl Print,
    input: &[u8],
    numbers: &[u8],
    text: &[u8],
    table: &mut [u32],
) -> io::Result<()> {
    let n = cases::numbers(numbers, table);
    if n <= table.len() {
        return print_table(rt, input, &table[..n], text);
    }
    print_unfit(rt)
}

// A case, for which table and text are the space. No numbers are an empty table.
fn print_case(rt: &impl Print, line: &[u8], table: &mut [u32], text: &mut [u8]) -> io::Result<()> {
    let head = fields_end(line);
    let colon = find(line, head, b':');
    if line.len() <= colon {
        return print_unfit(rt);
    }
    let from = head + 1;
    let m = cases::fill(&line[colon + 1..], 0, text);
    if colon <= from {
        return print_table(rt, &line[..head], &[], text::clip(text, 0, m));
    }
    print_parts(
        rt,
        &line[..head],
        &line[from..colon - 1],
        text::clip(text, 0, m),
        table,
    )
}

// Zeros for the input. The `ensures` gives only the length: so many zeros are more than a proof can hold.
fn input_buffer() -> [u8; 524288]
    ensures { 524288 ≡ length result }
{
    [0; 524288]
}

// Each line of the first 524,288 bytes of the input, of which the last may lack its line feed. All of them
// are read before a case is answered, and no heap is taken.
fn main(rt: HostRuntime) -> io::Result<()> {
    let mut input = input_buffer();
    let mut table = [0u32; 1536];
    let mut text = [0u8; 65536];
    let n = read_full(&mut rt.stdin(), &mut input)?;
    for line in input[..n].split_inclusive(|b| *b == b'\n') {
        let line = line.strip_suffix(b"\n").unwrap_or(line);
        print_case(&rt, line, &mut table, &mut text)?;
        rt.write_all(b"\n")?;
    }
    Ok(())
}
