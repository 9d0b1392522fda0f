// Prints the reading of a settlement that is laid out in two files: `settlement.rec`, its records as
// little-endian numbers of 32 bits, and `settlement.txt`, their text. Standard input is one line: mode,
// rules number, currency or `-`, identifier or `-` (document 01, "The printed reading"). A line of more than
// 4,194,304 bytes is unfit: it stands on the stack.
//
// What is fit to be read is decided by crate `inputs`, and the lines are made by crate `printed`; both
// are proved. Here files are read and `unfit` is written, which trusts the C library's `open`, `read` and
// `write`, through `std`.
#![tactic(auto)]

ghost use Rattle.std.specs.Prelude.{◌≡◌, ◌≤◌, IfOk, length};

use inputs::{Fields, input_of, numbers_of, read_full};
use std::rt::Files;
use std::{fs, io};

// Reads a file by its name.
fn read_file(rt: &impl Files, name: &str, buf: &mut [u8]) -> io::Result<usize>
    ensures { IfOk result (λ n. n ≤ length buf.new) }
{
    read_full(&mut fs::open(rt, name)?, buf)
}

// The reading of a fit input. More numbers than the table has room for are not fit.
fn print_fit(
    rt: &impl Print,
    records: &[u8],
    text: &[u8],
    input: &[u8],
    fields: Fields,
) -> io::Result<()> {
    let mut table = [0u32; 1536];
    let count = numbers_of(records, &mut table);
    match table.get(..count) {
        Some(numbers) => printer::print_fields(rt, numbers, text, input, fields),
        None => Ok(()),
    }
}

// The reading, or that the input is unfit.
fn print_input(rt: &impl Print, records: &[u8], text: &[u8], input: &[u8]) -> io::Result<()> {
    match input_of(records, text, input) {
        Some(fields) => print_fit(rt, records, text, input, fields),
        None => rt.print("unfit\n"),
    }
}

// Zeros for the input line. The `ensures` gives only the length: so many zeros are more than a proof can hold.
fn line_buffer() -> [u8; 4194305]
    ensures { 4194305 ≡ length result }
{
    [0; 4194305]
}

// Each buffer has a byte more than is fit, so that what is too long is seen.
fn main(rt: HostRuntime) -> io::Result<()> {
    let mut records = [0u8; 6145];
    let mut text = [0u8; 65537];
    let mut input = line_buffer();
    let read = (
        read_file(&rt, "settlement.rec", &mut records),
        read_file(&rt, "settlement.txt", &mut text),
        read_full(&mut rt.stdin(), &mut input),
    );
    match read {
        (Ok(n), Ok(m), Ok(k)) => print_input(&rt, &records[..n], &text[..m], &input[..k]),
        _ => rt.print("unfit\n"),
    }
}
