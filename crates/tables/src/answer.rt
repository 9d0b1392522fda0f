// The answer of a case: the verdict on a table, the records under each record, and look-ups by name.

use links::Siblings;
use refusals::Refusal;
use std::io;
use table::{Field, Table};

const SHOWN: usize = 64;

fn print_verdict(rt: &impl Print, verdict: Result<(), Refusal>) -> io::Result<()> {
    match verdict {
        Ok(()) => rt.print("accepted"),
        Err(refusal) => {
            let n = u32::from(refusal.reason);
            let r = refusal.record;
            print!(rt; "refused {n} {r}")
        }
    }
}

// The records that are linked under record i, if there are any, after a mark.
fn print_linked(rt: &impl Print, i: usize, mark: &str, mut linked: Siblings<'_>) -> io::Result<()> {
    let Some(first) = linked.next() else {
        return Ok(());
    };
    print!(rt; " {i}{mark}{first}")?;
    for c in linked {
        print!(rt; ",{c}")?;
    }
    Ok(())
}

// Children and attributes of the first n records.
fn print_links(rt: &impl Print, n: usize, links: &[u16]) -> io::Result<()> {
    for i in 0..n {
        print_linked(rt, i, ">", links::children(links, i))?;
        print_linked(rt, i, "@", links::attributes(links, i))?;
    }
    Ok(())
}

// The first record of the kind and name of record j under its parent, by looking at all records, and an
// exclamation mark where the links find another.
fn print_found(rt: &impl Print, table: &Table, j: usize, links: &[u16]) -> io::Result<()> {
    let kind = table.field_of(j, Field::Kind);
    let parent = table.field_at(j, Field::Parent);
    let name = table.name(j);
    let found = table.find(kind, parent, name);
    let k = found.unwrap_or(0);
    print!(rt; " {j}={k}")?;
    let linked = match kind {
        1 => links::first_child(table, links, parent, name),
        2 => links::attribute(table, links, parent, name),
        _ => return Ok(()),
    };
    if found != linked {
        rt.print("!")?;
    }
    Ok(())
}

// The same for each later record of the first n.
fn print_lookups(rt: &impl Print, table: &Table, n: usize, links: &[u16]) -> io::Result<()> {
    for j in 1..n {
        print_found(rt, table, j, links)?;
    }
    Ok(())
}

// The answer for a table and its text.
pub(crate) fn print_answer(rt: &impl Print, table: &Table) -> io::Result<()> {
    print_verdict(rt, refusals::check(table))?;
    let mut links = [0u16; 12288];
    links::link(table, &mut links);
    let n = table.count().min(SHOWN);
    print_links(rt, n, &links)?;
    print_lookups(rt, table, n, &links)
}
