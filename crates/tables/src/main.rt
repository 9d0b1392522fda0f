// The table's functions on stored cases: each line of standard input is a case, and its answer is
// printed.
//
// A case is a table's numbers and, after ` :`, its text, or `zeros N M`, a table of N zeros and a
// text of M zero bytes. The answer is the verdict, the children (`>`) and attributes (`@`) of each
// record by its links, and for each later record the first of its kind and name under its parent, 0
// for none. Of long tables the first 64 records are shown. tools/tables.py writes cases and answers.
#![tactic(auto)]

mod answer;

use crate::answer::print_answer;
use cases::{find, read_full};
use std::io;
use table::Table;

// The most zeros and zero bytes of a case.
const ZEROS: usize = 24600;

const BLANK: usize = 65536;

// The answer for the first n of the zeros and the first m of their zero bytes.
fn print_zeros(rt: &impl Print, n: usize, m: usize, zeros: &Table<'_>) -> io::Result<()> {
    if n > zeros.records.len() || m > zeros.text.len() {
        return rt.print("unfit");
    }
    let table = Table {
        records: &zeros.records[..n],
        text: &zeros.text[..m],
    };
    print_answer(rt, &table)
}

// The two numbers of a line `zeros N M`.
fn print_counts(rt: &impl Print, counts: &[u8], zeros: &Table<'_>) -> io::Result<()> {
    let mut both = [0u32; 2];
    if cases::numbers(counts, &mut both) == 2 {
        return print_zeros(rt, both[0] as usize, both[1] as usize, zeros);
    }
    rt.print("unfit")
}

// A table's numbers and its text, for which table and text are the space.
fn print_table(
    rt: &impl Print,
    numbers: &[u8],
    escaped: &[u8],
    table: &mut [u32],
    text: &mut [u8],
) -> io::Result<()> {
    let n = cases::numbers(numbers, table);
    let m = cases::fill(escaped, 0, text);
    if n <= table.len() {
        let table = Table {
            records: &table[..n],
            text: text::part(text, 0, m),
        };
        return print_answer(rt, &table);
    }
    rt.print("unfit")
}

fn print_line(
    rt: &impl Print,
    line: &[u8],
    table: &mut [u32],
    text: &mut [u8],
    zeros: &Table<'_>,
) -> io::Result<()> {
    if line.len() < 6 {
        return rt.print("unfit");
    }
    if line[0] == b'z' {
        return print_counts(rt, &line[6..], zeros);
    }
    let colon = find(line, 1, b':');
    if colon == line.len() {
        return rt.print("unfit");
    }
    print_table(rt, &line[..colon - 1], &line[colon + 1..], table, text)
}

// Each line of the first 262,144 bytes of the input, of which the last may lack its line feed. All of them
// are read before a line is answered, and no heap is taken. The zeros are made once, for all cases.
fn main(rt: HostRuntime) -> io::Result<()> {
    let mut input = [0u8; 262144];
    let mut table = [0u32; 4096];
    let mut text = [0u8; 65536];
    let numbers = [0u32; ZEROS];
    let blank = [0u8; BLANK];
    let zeros = Table {
        records: &numbers,
        text: &blank,
    };
    let n = read_full(&mut rt.stdin(), &mut input)?;
    for line in input[..n].split_inclusive(|b| *b == b'\n') {
        let line = line.strip_suffix(b"\n").unwrap_or(line);
        print_line(&rt, line, &mut table, &mut text, &zeros)?;
        rt.print("\n")?;
    }
    Ok(())
}
