// Elements that the reader does not map.
ghost use Rattle.std.specs.Prelude.{◌≡◌};
ghost use Rattle.report.specs.Encoding.{unmapped_row};
ghost use Rattle.report.specs.Values.{unmapped_of};

use crate::list::UNMAPPED_WIDTH;
use crate::value::Place;
use names::Parent;

// The element's parent and its name.
#[derive(Clone, Copy)]
pub struct Unmapped {
    pub parent: Parent,
    pub name: Place,
}

impl Unmapped {
    // The row of an unmapped element.
    pub fn row(self) -> [i64; UNMAPPED_WIDTH]
        ensures { result ≡ unmapped_row (unmapped_of self) }
    {
        [
            i64::from(u32::from(self.parent)),
            self.name.start(),
            self.name.length(),
        ]
    }
}
