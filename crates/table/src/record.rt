// The numbers of a record.

// A number of a record, in its order.
#[derive(Clone, Copy, Debug, PartialEq, Eq)]
pub enum Field {
    Kind,
    Parent,
    NameStart,
    NameLength,
    TextStart,
    TextLength,
}
