// The parents of elements that the reader does not map.
ghost use Rattle.std.specs.Prelude.{◌≡◌};
ghost use Rattle.names.specs.Parent.{parent_number};

// The elements whose children the reader walks.
#[derive(Clone, Copy, Debug, PartialEq, Eq)]
pub enum Parent {
    Settlement = 1,
    MonetarySummation = 2,
    PaymentMeans = 3,
}

// The parent's number in document 01.
impl From<Parent> for u32 {
    ghost from_gives = { λ parent n. n ≡ parent_number parent };

    fn from(parent: Parent) -> u32 {
        parent as u32
    }
}
