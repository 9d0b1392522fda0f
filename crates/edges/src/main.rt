// The edges of the leaf functions: each line of standard input is a case, and is printed with its
// answer.
//
// A case is `LEAF NUMBER TEXT`. The number is of 32 bits and one to ten digits: the mode, the rules
// number, how many bytes of the text are compared with the rest (same, compare), or a start times
// 1000 and a length (part). In the text printable ASCII stands for itself, `\HH` for one byte, and
// one `\*` for a hole: the case is then run with each byte in that place, and the answers are
// printed by runs of bytes that have the same one. A line of another form is printed as unfit.
//
// An answer is its numbers, document 01's message first; `answer_of` (specs/Answers.antt) has those
// of each leaf. tools/edges.py makes the cases, and their answers by a model of its own.
#![tactic(auto)]

mod answers;
mod leaves;

use crate::answers::{Numbers, answer_at};
use crate::leaves::{Leaf, leaf_of};
use cases::{holes, read_full};
use std::io;
use text::numeral_of;

// A leaf function, the number that it takes, and a text as it is written.
#[derive(Clone, Copy)]
struct Case<'a> {
    leaf: Leaf,
    number: u32,
    text: &'a [u8],
}

// The numbers of an answer, parted by a separator, and a question mark where there are none.
fn print_answer(rt: &impl Print, a: Numbers, separator: &str) -> io::Result<()> {
    match a {
        Numbers::Nothing => rt.print("?"),
        Numbers::One(a) => rt.print(a),
        Numbers::Two(a, b) => print!(rt; "{a}{separator}{b}"),
        Numbers::Three(a, b, c) => print!(rt; "{a}{separator}{b}{separator}{c}"),
    }
}

// The bytes from first to last, which have the same answer.
fn print_run(rt: &impl Print, first: u8, last: u8, a: Numbers) -> io::Result<()> {
    print!(rt; " {first:02x}")?;
    if first < last {
        print!(rt; "-{last:02x}")?;
    }
    rt.print(":")?;
    print_answer(rt, a, ",")
}

// The answers for each byte in the hole, by runs of bytes with the same one.
fn print_runs(rt: &impl Print, case: Case<'_>, space: &mut [u8]) -> io::Result<()> {
    let mut first = 0;
    let mut held = answer_at(case.leaf, case.number, case.text, 0, space);
    for b in 1..=255 {
        let a = answer_at(case.leaf, case.number, case.text, b, space);
        if a != held {
            print_run(rt, first, b - 1, held)?;
            first = b;
            held = a;
        }
    }
    print_run(rt, first, 255, held)
}

fn print_unfit(rt: &impl Print, line: &[u8]) -> io::Result<()> {
    rt.print("unfit: ")?;
    rt.write_all(line)
}

// The line of a case with its answers.
fn print_case(rt: &impl Print, line: &[u8], case: Case<'_>, space: &mut [u8]) -> io::Result<()> {
    match holes(case.text) {
        0 => {
            rt.write_all(line)?;
            rt.print(" = ")?;
            let a = answer_at(case.leaf, case.number, case.text, 0, space);
            print_answer(rt, a, " ")
        }
        1 => {
            rt.write_all(line)?;
            rt.print(" =")?;
            print_runs(rt, case, space)
        }
        _ => print_unfit(rt, line),
    }
}

fn print_line(rt: &impl Print, line: &[u8], space: &mut [u8]) -> io::Result<()> {
    let mut parts = line.splitn(3, |b| *b == b' ');
    let (Some(name), Some(digits), Some(text)) = (parts.next(), parts.next(), parts.next()) else {
        return print_unfit(rt, line);
    };
    let (Some(leaf), Some(number)) = (leaf_of(name), numeral_of(digits, 10)) else {
        return print_unfit(rt, line);
    };
    let case = Case { leaf, number, text };
    print_case(rt, line, case, space)
}

// Each line of the first 262,144 bytes of the input, of which the last may lack its line feed. All of them
// are read before a line is answered, and no heap is taken.
fn main(rt: HostRuntime) -> io::Result<()> {
    let mut input = [0u8; 262144];
    let mut space = [0u8; 262144];
    let n = read_full(&mut rt.stdin(), &mut input)?;
    for line in input[..n].split_inclusive(|b| *b == b'\n') {
        print_line(&rt, line.strip_suffix(b"\n").unwrap_or(line), &mut space)?;
        rt.print("\n")?;
    }
    Ok(())
}
