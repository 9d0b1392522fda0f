// A table and its text: fields, names and texts of its records, and the first of a name under a parent.
ghost use Rattle.std.specs.Prelude.{◌≡◌, ◌+◌, ◌<◌};
ghost use Rattle.text.specs.Options.{option_of};
ghost use Rattle.text.specs.Span.{clipped};
ghost use Rattle.table.specs.Table.{records, cell, name_of, text_of, named, kin, kin_named, first_named};
ghost use Rattle.table.specs.Fields.{place};

use crate::record::Field;

// Records of six numbers, and the text where their names and texts stand: the two travel together.
#[derive(Clone, Copy)]
pub struct Table<'a> {
    pub records: &'a [u32],
    pub text: &'a [u8],
}

impl<'a> Table<'a> {
    // How many whole records it has.
    pub fn count(&self) -> usize
        ensures { result ≡ records self.now.records.now }
    {
        self.records.len() / 6
    }

    // A field of record r, and 0 where the table does not have it.
    pub fn field_of(&self, r: usize, f: Field) -> u32
        ensures { result ≡ cell self.now.records.now r (place f) }
    {
        if r < self.records.len() {
            return self.records.get(r * 6 + f as usize).copied().unwrap_or(0);
        }
        0
    }

    // A field of record r as a place or a record's number.
    pub fn field_at(&self, r: usize, f: Field) -> usize
        ensures { result ≡ cell self.now.records.now r (place f) }
    {
        self.field_of(r, f) as usize
    }

    // The bytes at the place whose start and length are number k of record r and the next, none where the
    // table does not have both: one look at its length does for the two.
    fn bytes_at(&self, r: usize, k: usize) -> &'a [u8]
        requires { k < 6 }
        ensures { result.now ≡ clipped self.now.text.now (cell self.now.records.now r k) (cell self.now.records.now r (k + 1)) }
    {
        let records = self.records;
        if r < records.len() && r * 6 + k + 1 < records.len() {
            let start = records[r * 6 + k] as usize;
            let len = records[r * 6 + k + 1] as usize;
            return text::clip(self.text, start, len);
        }
        &[]
    }

    // The name of record r.
    #[tactic(auto, unfolding(crate::specs::Table::name_of))]
    pub fn name(&self, r: usize) -> &'a [u8]
        ensures { result.now ≡ name_of self.now.records.now self.now.text.now r }
    {
        self.bytes_at(r, Field::NameStart as usize)
    }

    // The text of record r: an attribute's value, or all direct text of an element, joined.
    #[tactic(auto, unfolding(crate::specs::Table::text_of))]
    pub fn joined_text(&self, r: usize) -> &'a [u8]
        ensures { result.now ≡ text_of self.now.records.now self.now.text.now r }
    {
        self.bytes_at(r, Field::TextStart as usize)
    }

    // Whether record r has this name.
    #[tactic(auto, unfolding(crate::specs::Table::named))]
    pub fn is_named(&self, want: &[u8], r: usize) -> bool
        ensures { result ≡ named self.now.records.now self.now.text.now want.now r }
    {
        text::same_words(self.name(r), want)
    }

    // Whether record j is of a kind and names the earlier record i as its parent.
    #[tactic(auto, unfolding(crate::specs::Table::kin))]
    fn is_kin(&self, kind: u32, i: usize, j: usize) -> bool
        ensures { result ≡ kin self.now.records.now kind i j }
    {
        self.field_of(j, Field::Kind) == kind && self.field_at(j, Field::Parent) == i && i < j
    }

    // Whether it has this name, too.
    #[tactic(auto, unfolding(crate::specs::Table::kin_named))]
    fn is_kin_named(&self, kind: u32, i: usize, want: &[u8], j: usize) -> bool
        ensures { result ≡ kin_named self.now.records.now self.now.text.now kind i want.now j }
    {
        self.is_kin(kind, i, j) && self.is_named(want, j)
    }

    // The first child (kind 1) or attribute (kind 2) of a name under record i. All records are looked at;
    // crate `links` looks at those under i only. A kind is a number as the table has it, which need not be
    // accepted: an enum would take less.
    pub fn find(&self, kind: u32, i: usize, want: &[u8]) -> Option<usize>
        ensures { option_of result ≡ first_named self.now.records.now self.now.text.now kind i want.now }
    {
        (0..self.count()).find(|&j| self.is_kin_named(kind, i, want, j))
    }
}
