// The kind of a settlement's child, by its name: fourteen names are read, and any other is unmapped. A name is
// looked up once. Kinds are parted by what such a child makes: a term or a group alone, rows, when and how is
// paid, the summation. No function has a `requires`, and the crate assumes nothing of its own.
#![tactic(auto)]

mod child;

pub use child::{BillingKind, Kind, PlainKind, RowKind, kind_of};
