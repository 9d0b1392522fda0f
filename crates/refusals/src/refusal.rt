// The refusals 3 to 9 of a table (document 01, "Where each refusal is checked"), in their order,
// each with the first offending record.
ghost use Rattle.std.specs.Prelude.{◌≡◌, ◌-◌, ◌<◌};
ghost use Rattle.std.proofs.Math.Option.{none};
ghost use Rattle.text.specs.Span.{clipped};
ghost use Rattle.characters.specs.Characters.{utf8};
ghost use Rattle.text.specs.Options.{option_of};
ghost use Rattle.table.specs.Table.{records, first_from};
ghost use Rattle.refusals.specs.Refusals.{not_root, misplaced, beyond, outside, not_utf8, not_settlement, at_root, refuse, record_refusal, size_refusal, refusal};
ghost use Rattle.refusals.specs.Reasons.{number};
ghost use Rattle.refusals.specs.Verdicts.{whole, unsound, verdict};

use crate::reasons::{Reason, Refusal};
use table::{Field, Table};

// Whether record 0 is anything but an element with parent 0.
#[tactic(auto, unfolding(crate::specs::Refusals::not_root))]
fn is_not_root(table: &Table) -> bool
    ensures { result ≡ not_root table.now.records.now }
{
    table.field_of(0, Field::Kind) != 1 || table.field_of(0, Field::Parent) != 0
}

// Whether record j is neither element nor attribute, or its parent no earlier element.
#[tactic(auto, unfolding(crate::specs::Refusals::misplaced))]
fn is_misplaced(table: &Table, j: usize) -> bool
    requires { j < records table.now.records.now }
    ensures { result ≡ misplaced table.now.records.now j }
{
    let parent = table.records[j * 6 + 1] as usize;
    parent >= j || table.records[parent * 6] != 1 || !matches!(table.records[j * 6], 1 | 2)
}

// Whether start plus length, two numbers of 32 bits, is beyond the text.
#[tactic(auto, unfolding(crate::specs::Refusals::beyond))]
fn is_beyond(text: &[u8], start: u32, len: u32) -> bool
    ensures { result ≡ beyond text.now start len }
{
    text.len() < start as usize + len as usize
}

// Whether the name or the text of record j is not inside the text.
#[tactic(auto, unfolding(crate::specs::Refusals::outside))]
fn is_outside(table: &Table, j: usize) -> bool
    ensures { result ≡ outside table.now.records.now table.now.text.now j }
{
    let name_start = table.field_of(j, Field::NameStart);
    let name_len = table.field_of(j, Field::NameLength);
    let text_start = table.field_of(j, Field::TextStart);
    let text_len = table.field_of(j, Field::TextLength);
    is_beyond(table.text, name_start, name_len) || is_beyond(table.text, text_start, text_len)
}

// Whether len bytes from start on are inside the text, with boundaries of characters at both ends.
#[tactic(auto, unfolding(crate::specs::Verdicts::whole))]
fn is_whole(text: &[u8], start: u32, len: u32) -> bool
    ensures { result ≡ whole text.now start len }
{
    !is_beyond(text, start, len)
        && characters::is_boundary(text, start as usize)
        && characters::is_boundary(text, start as usize + len as usize)
}

// Whether record j is unsound: misplaced, if it is not record 0, or its name or text not whole.
#[tactic(auto, unfolding(crate::specs::Verdicts::unsound))]
fn is_unsound(table: &Table, j: usize) -> bool
    requires { j < records table.now.records.now }
    ensures { result ≡ unsound table.now.records.now table.now.text.now j }
{
    let at = j * 6;
    !is_whole(table.text, table.records[at + 2], table.records[at + 3])
        || !is_whole(table.text, table.records[at + 4], table.records[at + 5])
        || (j != 0 && is_misplaced(table, j))
}

// Whether len bytes from start on are UTF-8. `all` is found once, in `check_records`, and handed down; a struct
// that carries it would say the same in its invariant. Where all of the text is UTF-8, what is whole is so
// without a look at its bytes.
#[tactic(auto, using(crate::proofs::Wholes::whole_utf8))]
fn is_readable(text: &[u8], all: bool, start: u32, len: u32) -> bool
    requires { all ≡ utf8 text.now }
    ensures { result ≡ utf8 (clipped text.now start len) }
{
    (all && is_whole(text, start, len))
        || characters::is_utf8(text::clip(text, start as usize, len as usize))
}

// Whether the name or the text of record j is not UTF-8.
#[tactic(auto, unfolding(crate::specs::Refusals::not_utf8, table::specs::Table::name_of, table::specs::Table::text_of))]
fn is_not_utf8(table: &Table, all: bool, j: usize) -> bool
    requires { all ≡ utf8 table.now.text.now }
    ensures { result ≡ not_utf8 table.now.records.now table.now.text.now j }
{
    let name_start = table.field_of(j, Field::NameStart);
    let name_len = table.field_of(j, Field::NameLength);
    let text_start = table.field_of(j, Field::TextStart);
    let text_len = table.field_of(j, Field::TextLength);
    !is_readable(table.text, all, name_start, name_len)
        || !is_readable(table.text, all, text_start, text_len)
}

// Refuses what offends at a record, if one does.
fn refuse(reason: Reason, offender: Option<usize>) -> Result<(), Refusal>
    ensures { verdict result ≡ refuse (number reason) (option_of offender) none }
{
    match offender {
        Some(record) => Err(Refusal { reason, record }),
        None => Ok(()),
    }
}

// Refusal 6.
fn check_placed(table: &Table) -> Result<(), Refusal>
    ensures { verdict result ≡ refuse 6 (first_from (misplaced table.now.records.now) 1 (records table.now.records.now - 1)) none }
{
    let n = table.count();
    refuse(Reason::Misplaced, (1..n).find(|&j| is_misplaced(table, j)))
}

// Refusal 7.
fn check_inside(table: &Table) -> Result<(), Refusal>
    ensures { verdict result ≡ refuse 7 (first_from (outside table.now.records.now table.now.text.now) 0 (records table.now.records.now - 0)) none }
{
    let n = table.count();
    refuse(Reason::Outside, (0..n).find(|&j| is_outside(table, j)))
}

// Refusal 8.
fn check_readable(table: &Table, all: bool) -> Result<(), Refusal>
    requires { all ≡ utf8 table.now.text.now }
    ensures { verdict result ≡ refuse 8 (first_from (not_utf8 table.now.records.now table.now.text.now) 0 (records table.now.records.now - 0)) none }
{
    let n = table.count();
    refuse(
        Reason::NotUtf8,
        (0..n).find(|&j| is_not_utf8(table, all, j)),
    )
}

// Refusal 9.
#[tactic(auto, unfolding(crate::specs::Refusals::not_settlement, text::specs::Utf8::bytes, text::specs::Utf8::encode))]
fn check_name(table: &Table) -> Result<(), Refusal>
    ensures { verdict result ≡ refuse 9 (at_root (not_settlement table.now.records.now table.now.text.now)) none }
{
    if table.is_named(b"ApplicableHeaderTradeSettlement", 0) {
        return Ok(());
    }
    refuse(Reason::NotSettlement, Some(0))
}

// The refusals 6 to 9, each over all records before the next.
#[tactic(auto, using(crate::proofs::Checks::stops, crate::proofs::Checks::passes), unfolding(crate::specs::Refusals::record_refusal))]
fn check_each(table: &Table, all: bool) -> Result<(), Refusal>
    requires { all ≡ utf8 table.now.text.now }
    ensures { verdict result ≡ record_refusal table.now.records.now table.now.text.now }
{
    check_placed(table)?;
    check_inside(table)?;
    check_readable(table, all)?;
    check_name(table)
}

// The same in one pass where the text is UTF-8 and all records are sound.
fn check_records(table: &Table) -> Result<(), Refusal>
    ensures { verdict result ≡ record_refusal table.now.records.now table.now.text.now }
{
    let all = characters::is_utf8(table.text);
    if all && !(0..table.count()).any(|j| is_unsound(table, j)) {
        return check_name(table);
    }
    check_each(table, all)
}

// The refusals 3 to 9 of a table and its text.
#[tactic(auto, unfolding(crate::specs::Refusals::refusal, crate::specs::Refusals::ragged, crate::specs::Refusals::size_refusal, crate::specs::Refusals::oversized))]
pub fn check(table: &Table) -> Result<(), Refusal>
    ensures { verdict result ≡ refusal table.now.records.now table.now.text.now }
{
    let n = table.count();
    if n == 0 || table.records.len() % 6 != 0 {
        return refuse(Reason::Ragged, Some(0));
    }
    if n > 4096 || table.text.len() > 1048576 {
        return refuse(Reason::Oversized, Some(0));
    }
    if is_not_root(table) {
        return refuse(Reason::NotRoot, Some(0));
    }
    check_records(table)
}
