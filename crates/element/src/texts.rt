// Texts and names of elements, and the bytes at their places.
ghost use Rattle.std.specs.Prelude.{◌≡◌};
ghost use Rattle.table.specs.Table.{cell};
ghost use Rattle.report.specs.Values.{place_of, text_of};
ghost use Rattle.settlement.specs.Values as reading;
ghost use Rattle.element.specs.LinkDoc.{doc_of};
ghost use Rattle.element.specs.Trimmed.{trimmed_at};

use crate::document::Document;
use report::Place;
use table::Field;

// What trimming in a mode leaves of a record's text from start on, absent where that is nothing.
fn trimmed_at(text: &[u8], mode: u32, start: u32, len: u32) -> Option<Place>
    ensures { text_of result ≡ trimmed_at text.now mode start len }
{
    let kept = characters::trim(text::clip(text, start as usize, len as usize), mode);
    if kept.end <= kept.start {
        return None;
    }
    Some(Place::new(start, kept.start as u32, (kept.end - kept.start) as u32))
}

impl<'a> Document<'a> {
    // The bytes at a place of the text.
    pub fn shown(&self, p: Place) -> &'a [u8]
        ensures { result.now ≡ (doc_of self.now).bytes (place_of p) }
    {
        p.bytes(self.table.text)
    }

    // The name of element r.
    pub fn name(&self, r: usize) -> Place
        ensures { place_of result ≡ (doc_of self.now).name r }
    {
        let start = self.table.field_of(r, Field::NameStart);
        let len = self.table.field_of(r, Field::NameLength);
        Place::new(start, 0, len)
    }

    // The text of element r as it stands, absent where it has none.
    pub fn raw_text(&self, r: usize) -> Option<Place>
        ensures { text_of result ≡ (doc_of self.now).text r }
    {
        let len = self.table.field_of(r, Field::TextLength);
        if len == 0 {
            return None;
        }
        let start = self.table.field_of(r, Field::TextStart);
        Some(Place::new(start, 0, len))
    }

    // What trimming in a mode leaves of the text of record r, absent where that is nothing.
    pub(crate) fn trimmed(&self, mode: u32, r: usize) -> Option<Place>
        ensures { text_of result ≡ trimmed_at self.now.table.text.now mode (cell self.now.table.records.now r 4) (cell self.now.table.records.now r 5) }
    {
        let start = self.table.field_of(r, Field::TextStart);
        let len = self.table.field_of(r, Field::TextLength);
        trimmed_at(self.table.text, mode, start, len)
    }

    // The text of element r, trimmed in a mode; blank is absent.
    pub fn text_in(&self, mode: u32, r: usize) -> Option<Place>
        ensures { text_of result ≡ reading.text_in (doc_of self.now) mode r }
    {
        self.trimmed(mode, r)
    }

    // The same, empty where it is blank.
    pub fn own_text(&self, mode: u32, r: usize) -> Place
        ensures { place_of result ≡ reading.own_text (doc_of self.now) mode r }
    {
        match self.text_in(mode, r) {
            None => Place::new(0, 0, 0),
            Some(p) => p,
        }
    }
}
