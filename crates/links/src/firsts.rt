// The first child or attribute of a name, and the first child of each of some names, in one pass.
ghost use Rattle.std.specs.Prelude.{◌≡◌, map};
ghost use Rattle.text.specs.Options.{option_of};
ghost use Rattle.table.specs.Table.{named, first_of};
ghost use Rattle.links.specs.Links.{linked};
ghost use Rattle.links.specs.Firsts.{keep, keep_all};
ghost use Rattle.links.specs.Siblings.{siblings};

use crate::siblings::{Siblings, attributes, children};
use table::Table;

// The first of some records that has a name.
fn first_named(table: &Table, mut records: Siblings, want: &[u8]) -> Option<usize>
    ensures { option_of result ≡ first_of (named table.now.records.now table.now.text.now want.now) (siblings records.entry) }
{
    records.find(|&c| table.is_named(want, c))
}

// The first child of a name of record i.
pub fn first_child(table: &Table, links: &[u16], i: usize, want: &[u8]) -> Option<usize>
    ensures { option_of result ≡ first_of (named table.now.records.now table.now.text.now want.now) (linked links.now 0 i) }
{
    first_named(table, children(links, i), want)
}

// The attribute of a name of record i: of two equal names the earlier.
pub fn attribute(table: &Table, links: &[u16], i: usize, want: &[u8]) -> Option<usize>
    ensures { option_of result ≡ first_of (named table.now.records.now table.now.text.now want.now) (linked links.now 1 i) }
{
    first_named(table, attributes(links, i), want)
}

// Number k becomes c, unless there is no such number or it was set before.
#[tactic(auto, unfolding(crate::specs::Firsts::keep))]
fn keep_first(firsts: &mut [Option<usize>], k: usize, c: usize)
    ensures { firsts.new ≡ keep firsts.old k c }
{
    if k < firsts.len() && firsts[k].is_none() {
        firsts[k] = Some(c);
    }
}

// The first child of each of some names of record i, put at the name's place in a lent array, unless one
// is there: of a name that stands among them twice the second place gets none.
#[tactic(auto, unfolding(crate::specs::Firsts::keep_all))]
pub fn first_children(
    table: &Table,
    links: &[u16],
    i: usize,
    names: &[&[u8]],
    firsts: &mut [Option<usize>],
)
    ensures { firsts.new ≡ keep_all table.now.records.now table.now.text.now links.now i (map (λ w. w.now) names.now) firsts.old }
{
    for c in children(links, i) {
        let k = text::position_of(names, table.name(c)).unwrap_or(names.len());
        keep_first(firsts, k, c);
    }
}
