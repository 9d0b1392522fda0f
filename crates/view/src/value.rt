// A view holds the lent text and the place of one value. Its methods are thin: each takes the view
// apart and leaves the work to a function on the text and the two numbers.
ghost use Rattle.std.specs.Prelude.{◌≡◌};
ghost use Rattle.view.specs.View.{lies, shown_at};

use crate::place::{is_shown, shown};

// The lent text, and where the value starts and how long it is: -1 and 0 where it is absent.
#[derive(Clone, Copy)]
pub struct View<'a> {
    text: &'a [u8],
    start: i64,
    length: i64,
}

impl<'a> View<'a> {
    // The view of the value at a place.
    pub fn new(text: &'a [u8], start: i64, length: i64) -> View<'a>
        ensures { (result.text ≡ text.entry) × (result.start ≡ start) × (result.length ≡ length) }
    {
        View {
            text,
            start,
            length,
        }
    }

    // The value's bytes, none where its place is absent or outside the text.
    pub fn bytes(self) -> &'a [u8]
        ensures { result.now ≡ shown_at self.entry.text.now self.entry.start self.entry.length }
    {
        shown(self.text, self.start, self.length)
    }

    // Whether the value is there, empty or not: its place is present and inside the text.
    pub fn is_there(self) -> bool
        ensures { result ≡ lies self.entry.text.now self.entry.start self.entry.length }
    {
        is_shown(self.text, self.start, self.length)
    }
}

// The bytes by way of a view, for callers that have the text and the two numbers.
// Beside the method for callers with plain parameters.
pub fn bytes_at(text: &[u8], start: i64, length: i64) -> &[u8]
    ensures { result.now ≡ shown_at text.now start length }
{
    View::new(text, start, length).bytes()
}

// Whether the value is there, by way of a view, for the same callers.
// Beside the method for callers with plain parameters.
pub fn is_there_at(text: &[u8], start: i64, length: i64) -> bool
    ensures { result ≡ lies text.now start length }
{
    View::new(text, start, length).is_there()
}
