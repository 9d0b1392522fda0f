// Attributes of elements, by name.
ghost use Rattle.std.specs.Prelude.{◌≡◌};
ghost use Rattle.report.specs.Values.{text_of};
ghost use Rattle.settlement.specs.Values as reading;
ghost use Rattle.element.specs.LinkDoc.{doc_of};

use crate::document::Document;
use report::Place;
use table::Field;

impl Document<'_> {
    // The attribute of a name of element n as it stands, absent where there is none.
    pub fn attribute_text(&self, n: usize, want: &[u8]) -> Option<Place>
        ensures { text_of result ≡ (doc_of self.now).attr n want.now }
    {
        let a = links::attribute(&self.table, self.links, n, want)?;
        let start = self.table.field_of(a, Field::TextStart);
        let len = self.table.field_of(a, Field::TextLength);
        Some(Place::new(start, 0, len))
    }

    // The same, trimmed; empty is absent.
    pub fn attribute(&self, n: usize, want: &[u8]) -> Option<Place>
        ensures { text_of result ≡ reading.attribute (doc_of self.now) n want.now }
    {
        let a = links::attribute(&self.table, self.links, n, want)?;
        self.trimmed(0, a)
    }
}
