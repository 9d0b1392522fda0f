// The record file and the text, beside the input line.
ghost use Rattle.inputs.specs.Places.{Listed, Decided};

use crate::input_line::{Fields, parse_line};
use names::put;

// The most bytes of a record file, which are 256 records, and of a text.
const RECORDS: usize = 6144;

const TEXT: usize = 65536;

// Puts the numbers of a record file into a table, each where there is room, and answers how many
// there are.
pub fn numbers_of(records: &[u8], table: &mut [u32]) -> usize
    ensures { Listed records.now table.old table.new result }
{
    let (numbers, _) = records.as_chunks::<4>();
    // By `put`: with a `zip` of the table's `iter_mut` the proof does not close at `returns`, where nothing is
    // known of what then stands in the table.
    for (k, number) in numbers.iter().enumerate() {
        put(table, k, &[u32::from_le_bytes(*number)]);
    }
    numbers.len()
}

// What record file, text and input line give, or that one of them is unfit.
pub fn input_of(records: &[u8], text: &[u8], input: &[u8]) -> Option<Fields>
    ensures { Decided records.now text.now input.now result }
{
    if records.len() > RECORDS || records.len() % 4 != 0 || text.len() > TEXT {
        return None;
    }
    parse_line(input)
}
