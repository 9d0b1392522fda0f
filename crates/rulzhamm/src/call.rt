// The function for hosts.
ghost use Rattle.codes.specs.Conformant.{conformant};
ghost use Rattle.settlement.specs.Outcome.{outcome};
ghost use Rattle.reader.specs.Answered.{lent_with, room_of};
ghost use Rattle.rulzhamm.specs.Called.{Called};

use crate::terms_row::put_answer;
use table::Table;

// Reads a settlement: `reader::read`, with its answer written as a row. Slices and numbers are lent side by
// side, as C lends them.
pub fn rulzhamm_read(
    table: &[u32],
    text: &[u8],
    currency: &[u8],
    identifier: &[u8],
    rules: u32,
    mode: u32,
    held: &mut [i64],
    entries: &mut [i64],
    unmapped: &mut [i64],
    answer: &mut [i64; 65],
)
    ensures { Called (outcome (lent_with mode rules currency.now (conformant identifier.now)) (room_of held.old entries.old unmapped.old) table.now text.now) answer.new held.old held.new entries.old entries.new unmapped.old unmapped.new }
{
    let table = Table {
        records: table,
        text,
    };
    let read = reader::read(
        &table, currency, identifier, rules, mode, held, entries, unmapped,
    );
    put_answer(answer, read);
}
