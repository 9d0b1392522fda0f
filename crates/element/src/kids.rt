// Children of elements, by name.
ghost use Rattle.std.specs.Prelude.{◌≡◌};
ghost use Rattle.text.specs.Options.{option_of};
ghost use Rattle.std.proofs.Math.Option.{none};
ghost use Rattle.links.specs.Siblings.{siblings};
ghost use Rattle.report.specs.Values.{text_of};
ghost use Rattle.settlement.specs.Document.{maybe};
ghost use Rattle.settlement.specs.Values as reading;
ghost use Rattle.element.specs.LinkDoc.{doc_of, firsts_of};

use crate::document::Document;
use links::Siblings;
use report::Place;

impl<'a> Document<'a> {
    // The first child of a name of element n.
    pub fn kid(&self, n: usize, want: &[u8]) -> Option<usize>
        ensures { option_of result ≡ reading.kid (doc_of self.now) n want.now }
    {
        links::first_child(&self.table, self.links, n, want)
    }

    // The children of element n, in document order.
    pub fn kids(&self, n: usize) -> Siblings<'a>
        ensures { siblings result ≡ (doc_of self.now).kids n }
    {
        links::children(self.links, n)
    }

    // The text of a child that was looked for, trimmed in a mode; absent where there is no such child or its
    // text is blank.
    pub fn child_text(&self, mode: u32, c: Option<usize>) -> Option<Place>
        ensures { text_of result ≡ maybe none (reading.text_in (doc_of self.now) mode) (option_of c) }
    {
        self.text_in(mode, c?)
    }

    // The text of the first child of a name of element n.
    pub fn kid_text(&self, mode: u32, n: usize, want: &[u8]) -> Option<Place>
        ensures { text_of result ≡ reading.kid_text (doc_of self.now) mode n want.now }
    {
        self.child_text(mode, self.kid(n, want))
    }

    // The first child of each of some names of element n, put at the name's place in a lent array, unless
    // one is there.
    pub fn first_children(&self, n: usize, names: &[&[u8]], firsts: &mut [Option<usize>])
        ensures { firsts.new ≡ firsts_of self.now n names.now firsts.old }
    {
        links::first_children(&self.table, self.links, n, names, firsts);
    }
}
