// A settlement as it is lent: a table and its links travel together.
ghost use Rattle.std.specs.Prelude.{◌≡◌};
ghost use Rattle.element.specs.LinkDoc.{lent_text};

use table::Table;

// A linked table and its links.
#[derive(Clone, Copy)]
pub struct Document<'a> {
    pub(crate) table: Table<'a>,
    pub(crate) links: &'a [u16],
}

impl<'a> Document<'a> {
    // The document of a linked table.
    pub fn new(table: Table<'a>, links: &'a [u16]) -> Document<'a>
        ensures table { result.table ≡ table.entry }
        ensures links { result.links ≡ links.entry }
    {
        Document { table, links }
    }

    // The text, where places are.
    pub fn text(&self) -> &'a [u8]
        ensures { result.now ≡ lent_text self.now }
    {
        self.table.text
    }

    // The links between its records.
    pub fn links(&self) -> &'a [u16]
        ensures { result.now ≡ self.now.links.now }
    {
        self.links
    }
}
