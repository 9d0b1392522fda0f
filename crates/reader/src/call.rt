// The reader: refusals first, then the children of record 0 by their links, and the end.
ghost use Rattle.std.specs.Prelude.{◌≡◌, false, ◌||◌, ◌*◌, ltb, Ok};
ghost use Rattle.std.proofs.Math.Option.{none};
ghost use Rattle.codes.specs.Conformant.{conformant};
ghost use Rattle.refusals.specs.Refusals.{refuse, at_root, refusal};
ghost use Rattle.report.specs.Encoding.{held_room, entry_room, unmapped_room};
ghost use Rattle.settlement.specs.Outcome.{read, cramped, unless, outcome};
ghost use Rattle.settlement.specs.Settlement.{reading};
ghost use Rattle.settlement.specs.TableDoc.{table_doc};
ghost use Rattle.values.specs.Sites.{lent_of};
ghost use Rattle.reader.specs.Answered.{lent_with, room_of, Answered, Readable, AnsweredRows};
ghost use Rattle.reader.specs.Answers.{answer_of};
ghost use Rattle.reader.specs.Spelled.{Spelled};

use crate::reading::Reading;
use element::Document;
use refusals::{Reason, Refusal};
use report::{ENTRY_ROOM, ENTRY_WIDTH, HELD_ROOM, HELD_WIDTH, HeldRows, UNMAPPED_ROOM};
use table::Table;
use unmapped::UnmappedRows;
use values::{Entries, Lent};

// Whether lists of these lengths have less room than n records ask for: a held row, four entries and
// an unmapped row for each.
fn is_cramped(n: usize, held: usize, entries: usize, unmapped: usize) -> bool
    ensures { result ≡ (ltb held (held_room * n) || (ltb entries (entry_room * n) || ltb unmapped (unmapped_room * n))) }
{
    if held / HELD_ROOM < n {
        return true;
    }
    if entries / ENTRY_ROOM < n {
        return true;
    }
    if unmapped / UNMAPPED_ROOM < n {
        return true;
    }
    false
}

// Reads the settlement of an accepted table, by links that spell its document, into rows with room from
// their fronts on.
fn read_rows(
    doc: &Document,
    lent: &Lent,
    held: &mut HeldRows,
    entries: &mut Entries,
    unmapped: &mut UnmappedRows,
) -> Reading
    requires { Readable doc.now held.old entries.old unmapped.old }
    ensures { AnsweredRows (read (reading (lent_of lent.now) (table_doc doc.now.table.records.now doc.now.table.text.now) 0)) (answer_of (Ok result)) held.old held.new entries.old entries.new unmapped.old unmapped.new }
{
    let s = children::settlement(doc, lent, held, entries, unmapped);
    let terms = terms::finish(entries, lent.rules, s);
    Reading {
        held: held.at / HELD_WIDTH,
        entries: entries.at / ENTRY_WIDTH,
        unmapped: unmapped.count,
        terms,
    }
}

// The same into lists with room.
fn read_linked(
    table: &Table,
    links: &[u16],
    lent: &Lent,
    held: &mut [i64],
    entries: &mut [i64],
    unmapped: &mut [i64],
) -> Reading
    requires { (refusal table.now.records.now table.now.text.now ≡ none) × (cramped (room_of held.old entries.old unmapped.old) table.now.records.now ≡ false) × Spelled table.now.records.now table.now.text.now links.now }
    ensures { Answered (read (reading (lent_of lent.now) (table_doc table.now.records.now table.now.text.now) 0)) (answer_of (Ok result)) held.old held.new entries.old entries.new unmapped.old unmapped.new }
{
    let doc = Document::new(*table, links);
    let mut held = HeldRows { list: held, at: 0 };
    let mut entries = Entries {
        list: entries,
        at: 0,
    };
    let mut unmapped = UnmappedRows {
        list: unmapped,
        count: 0,
    };
    read_rows(&doc, lent, &mut held, &mut entries, &mut unmapped)
}

// Links an accepted table in an array of zeros and reads its settlement into lists with room. Most
// tables are small, and a small array is sooner filled.
fn link_and_read(
    table: &Table,
    lent: &Lent,
    held: &mut [i64],
    entries: &mut [i64],
    unmapped: &mut [i64],
) -> Reading
    requires { (refusal table.now.records.now table.now.text.now ≡ none) × (cramped (room_of held.old entries.old unmapped.old) table.now.records.now ≡ false) }
    ensures { Answered (read (reading (lent_of lent.now) (table_doc table.now.records.now table.now.text.now) 0)) (answer_of (Ok result)) held.old held.new entries.old entries.new unmapped.old unmapped.new }
{
    if table.count() <= 256 {
        let mut few: [u16; 768] = [0; 768];
        links::link(table, &mut few);
        return read_linked(table, &few, lent, held, entries, unmapped);
    }
    let mut links: [u16; 12288] = [0; 12288];
    links::link(table, &mut links);
    read_linked(table, &links, lent, held, entries, unmapped)
}

// Reads the settlement of an accepted table, unless the lists have too little room. The identifier is
// looked at once, and not where a call is refused.
fn read_accepted(
    table: &Table,
    currency: &[u8],
    identifier: &[u8],
    rules: u32,
    mode: u32,
    held: &mut [i64],
    entries: &mut [i64],
    unmapped: &mut [i64],
) -> Result<Reading, Refusal>
    requires { refusal table.now.records.now table.now.text.now ≡ none }
    ensures { Answered (unless (refuse 10 (at_root (cramped (room_of held.old entries.old unmapped.old) table.now.records.now)) none) (reading (lent_with mode rules currency.now (conformant identifier.now)) (table_doc table.now.records.now table.now.text.now) 0)) (answer_of result) held.old held.new entries.old entries.new unmapped.old unmapped.new }
{
    if is_cramped(table.count(), held.len(), entries.len(), unmapped.len()) {
        return Err(Refusal {
            reason: Reason::Cramped,
            record: 0,
        });
    }
    let lent = Lent {
        mode,
        rules,
        extension: codes::is_conformant(identifier),
        currency,
    };
    Ok(link_and_read(table, &lent, held, entries, unmapped))
}

// Reads a settlement: its terms are answered, its held rows, entries and unmapped rows go to the front
// of the three lists. A refusal changes nothing. Rules and mode are any numbers, as C lends them, and the
// definitions speak of these. The three lists stay three: most functions below are lent one of them.
pub fn read(
    table: &Table,
    currency: &[u8],
    identifier: &[u8],
    rules: u32,
    mode: u32,
    held: &mut [i64],
    entries: &mut [i64],
    unmapped: &mut [i64],
) -> Result<Reading, Refusal>
    ensures { Answered (outcome (lent_with mode rules currency.now (conformant identifier.now)) (room_of held.old entries.old unmapped.old) table.now.records.now table.now.text.now) (answer_of result) held.old held.new entries.old entries.new unmapped.old unmapped.new }
{
    if mode > 1 {
        return Err(Refusal {
            reason: Reason::Mode,
            record: 0,
        });
    }
    if rules > 4095 {
        return Err(Refusal {
            reason: Reason::Rules,
            record: 0,
        });
    }
    refusals::check(table)?;
    read_accepted(
        table, currency, identifier, rules, mode, held, entries, unmapped,
    )
}
