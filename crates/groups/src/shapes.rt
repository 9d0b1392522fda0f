// What the groups hold.
use amount::Percentage;
use codes::Rule;
use names::{Path, Term};
use report::Place;

// BT-73 and BT-74.
#[derive(Clone, Copy)]
pub struct Period {
    pub start: Option<u32>,
    pub end: Option<u32>,
}

// BT-20, BT-9 and BT-89.
#[derive(Clone, Copy)]
pub struct PaymentTerms {
    pub note: Option<Place>,
    pub due: Option<u32>,
    pub mandate: Option<Place>,
}

// An identifier with its scheme.
#[derive(Clone, Copy)]
pub struct Identifier {
    pub content: Place,
    pub scheme: Option<Place>,
}

// BT-59, BT-60 and BT-61.
#[derive(Clone, Copy)]
pub struct Payee {
    pub name: Option<Place>,
    pub identifier: Option<Identifier>,
    pub legal: Option<Identifier>,
}

// How many VAT breakdowns there are, BT-7, BT-8, and the first code as it was written.
#[derive(Clone, Copy)]
pub struct VatState {
    pub breakdowns: u32,
    pub point: Option<u32>,
    pub code: Option<u32>,
    pub first: Option<Place>,
}

// Where a VAT category and its rate are said: the paths of its type code, its group and its rate, its
// terms, and the rule that requires it.
#[derive(Clone, Copy)]
pub struct Category {
    pub code: Path,
    pub whole: Path,
    pub share: Path,
    pub category: Option<Term>,
    pub rate: Option<Term>,
    pub rule: Rule,
}

// The children of a VAT category's element: type code, category code and rate.
#[derive(Clone, Copy)]
pub struct CategoryKids {
    pub kind: Option<usize>,
    pub code: Option<usize>,
    pub rate: Option<usize>,
}

// A VAT category and its rate.
#[derive(Clone, Copy)]
pub struct CategoryRate {
    pub category: Place,
    pub rate: Option<Percentage>,
}
