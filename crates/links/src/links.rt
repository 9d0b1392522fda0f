// Links: of each record the first of its children, the first of its attributes, and the next record
// under the same parent and of the same kind. 0 is none, for record 0 is under no other. The three
// numbers stand in a row in one lent array and name records by number: the reader has no heap.
ghost use Rattle.std.specs.Prelude.{◌≡◌, ◌+◌, ◌*◌, ◌≤◌, ◌<◌, length};
ghost use Rattle.table.specs.Table.{records};
ghost use Rattle.links.specs.Links.{joins, in_front, link_one, link_below, link_all};

use table::{Field, Table};

// Whether a record j of this kind, a number as the table has it, and with parent p is an element or an
// attribute under an earlier record.
#[tactic(auto, unfolding(crate::specs::Links::joins))]
fn does_join(kind: usize, p: usize, j: usize) -> bool
    ensures { result ≡ joins kind p j }
{
    (kind == 1 || kind == 2) && p < j
}

// Puts record j in front among those under record p: the children (k is 0) or the attributes (1).
#[tactic(auto, unfolding(crate::specs::Links::in_front, crate::specs::Links::link))]
fn put_in_front(links: &mut [u16], k: usize, p: usize, j: usize)
    requires { (p * 3 + k < length links.old) × (j * 3 + 2 < length links.old) × (j < 65536) }
    ensures { links.new ≡ in_front links.old k p j }
{
    let front = p * 3 + k;
    let next = j * 3 + 2;
    links[next] = links[front];
    links[front] = j as u16;
}

// Links record j, if it joins.
fn link_one(table: &Table, links: &mut [u16], j: usize)
    requires { (j * 3 + 2 < length links.old) × (j < 65536) }
    ensures { links.new ≡ link_one table.now.records.now j links.old }
{
    let kind = table.field_at(j, Field::Kind);
    let p = table.field_at(j, Field::Parent);
    if does_join(kind, p, j) {
        put_in_front(links, kind - 1, p, j);
    }
}

// Links all records, from the last to the first, so that those under a parent stand in table order.
fn link_each(table: &Table, links: &mut [u16])
    requires { (records table.now.records.now * 3 ≤ length links.old) × (records table.now.records.now ≤ 65536) }
    ensures { links.new ≡ link_below table.now.records.now (records table.now.records.now) links.old }
{
    for j in (0..table.count()).rev() {
        link_one(table, links, j);
    }
}

// Links all records of a table in an array lent with zeros. Where it has no room for three numbers
// for each record, or a record's number would not fit, nothing changes.
#[tactic(auto, using(crate::proofs::Chains::link_roomy, crate::proofs::Chains::link_cramped))]
pub fn link(table: &Table, links: &mut [u16])
    ensures { links.new ≡ link_all table.now.records.now links.old }
{
    if table.count() * 3 <= links.len() && table.count() <= 65536 {
        link_each(table, links);
    }
}
