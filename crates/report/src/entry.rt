// Entries: what the reader has to say about the settlement.
ghost use Rattle.std.specs.Prelude.{◌≡◌, pos};
ghost use Rattle.text.specs.Options.{option_of};
ghost use Rattle.names.specs.Term.{maybe_term_number};
ghost use Rattle.report.specs.Encoding.{entry_row};
ghost use Rattle.report.specs.Values.{entry_of};

use crate::list::ENTRY_WIDTH;
use crate::value::{Place, or_absent, text_length, text_start};
use names::{Message, Path, Term};

// What is said, of which element and term, and the value that it is about.
#[derive(Clone, Copy)]
pub struct Entry {
    pub message: Message,
    pub path: Path,
    pub term: Option<Term>,
    pub index: Option<u32>,
    pub value: Option<Place>,
}

// A term's number, 0 where there is none.
fn term_number(t: Option<Term>) -> i64
    ensures { result ≡ pos (maybe_term_number (option_of t)) }
{
    t.map_or(0, |t| i64::from(u32::from(t)))
}

impl Entry {
    // The row of an entry.
    pub fn row(self) -> [i64; ENTRY_WIDTH]
        ensures { result ≡ entry_row (entry_of self) }
    {
        [
            i64::from(u32::from(self.message)),
            i64::from(u32::from(self.path)),
            term_number(self.term),
            or_absent(self.index),
            text_start(self.value),
            text_length(self.value),
        ]
    }
}
