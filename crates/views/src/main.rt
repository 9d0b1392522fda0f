// The view of values at places of every kind, each in an empty text and in one of six bytes: absent,
// empty, inside, up to the end, over it, outside, and numbers at the ends of their type.
//
// A line is a place (start and length), `there` or `none`, and behind a colon the bytes that the view
// answers. tools/views.py has the lines that must come, written from document 01 ("Rows").
#![tactic(auto)]

use std::io;

// Starts and lengths.
const NUMBERS: [i64; 12] = [
    -9223372036854775808,
    -2,
    -1,
    0,
    1,
    3,
    5,
    6,
    7,
    4294967296,
    9223372036854775801,
    9223372036854775807,
];

// What the view of a place answers.
fn print_view(rt: &impl Print, text: &[u8], start: i64, length: i64) -> io::Result<()> {
    let there = if view::is_there_at(text, start, length) {
        "there"
    } else {
        "none"
    };
    print!(rt; "{start} {length} {there}:")?;
    rt.write_all(view::bytes_at(text, start, length))?;
    rt.write_all(b"\n")
}

// Each start with each length.
fn print_text(rt: &impl Print, text: &[u8]) -> io::Result<()> {
    for start in NUMBERS {
        for length in NUMBERS {
            print_view(rt, text, start, length)?;
        }
    }
    Ok(())
}

fn main(rt: HostRuntime) -> io::Result<()> {
    print_text(&rt, b"")?;
    print_text(&rt, b"DE1EUR")
}
