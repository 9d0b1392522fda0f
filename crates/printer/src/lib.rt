// Reads a settlement of at most 256 records and prints its reading on standard output (document 01,
// "The printed reading"), for the programs that do so.
//
// The lines are made by crate `printed`, which is proved; here they are only written, until a write fails:
// what arrives is a beginning of the reading, and the error is the answer. The crate trusts the C library's
// `write`, through `std`.
#![tactic(auto)]

use inputs::{Fields, bytes_at};
use report::{ENTRY_ROOM, HELD_ROOM, UNMAPPED_ROOM};
use rulzhamm::rulzhamm_read;
use std::io;

// The room of the three lists, for 256 records.
const HELD: usize = 256 * HELD_ROOM;

const ENTRIES: usize = 256 * ENTRY_ROOM;

const UNMAPPED: usize = 256 * UNMAPPED_ROOM;

// Writes the lines of what a call left, up to the first write that fails. A line of a text of at most
// 65,536 bytes has room in `out`.
fn print_lines(
    rt: &impl Print,
    out: &mut [u8; 524288],
    text: &[u8],
    answer: &[i64; 65],
    held: &[i64; HELD],
    entries: &[i64; ENTRIES],
    unmapped: &[i64; UNMAPPED],
) -> io::Result<()> {
    for k in 0..printed::line_count(answer, held, entries, unmapped) {
        let n = printed::put_line(out, text, answer, held, entries, unmapped, k);
        rt.write_all(text::clip(out, 0, n))?;
    }
    Ok(())
}

// Reads a settlement and prints its reading; a larger table is refused (10).
pub fn print_reading(
    rt: &impl Print,
    table: &[u32],
    text: &[u8],
    currency: &[u8],
    identifier: &[u8],
    rules: u32,
    mode: u32,
) -> io::Result<()> {
    let mut held = [0i64; HELD];
    let mut entries = [0i64; ENTRIES];
    let mut unmapped = [0i64; UNMAPPED];
    let mut answer = [0i64; 65];
    rulzhamm_read(
        table,
        text,
        currency,
        identifier,
        rules,
        mode,
        &mut held,
        &mut entries,
        &mut unmapped,
        &mut answer,
    );
    let mut out = [0u8; 524288];
    print_lines(rt, &mut out, text, &answer, &held, &entries, &unmapped)
}

// The same under what an input line says, by its fields.
pub fn print_fields(
    rt: &impl Print,
    table: &[u32],
    text: &[u8],
    input: &[u8],
    fields: Fields,
) -> io::Result<()> {
    print_reading(
        rt,
        table,
        text,
        bytes_at(input, fields.currency),
        bytes_at(input, fields.identifier),
        fields.rules,
        fields.mode,
    )
}
