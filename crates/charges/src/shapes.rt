// What allowances and charges are read with.
use codes::Rule;
use names::{Path, Term};

// A group BG-20 or BG-21: its index, its terms, and the rules that require two of them.
#[derive(Clone, Copy)]
pub struct Group {
    pub index: u32,
    pub amount: Option<Term>,
    pub base: Option<Term>,
    pub percentage: Option<Term>,
    pub category: Option<Term>,
    pub rate: Option<Term>,
    pub amount_rule: Rule,
    pub category_rule: Rule,
}

// The paths of a VAT category's element: its type code, itself, its rate, and its parent.
#[derive(Clone, Copy)]
pub struct TaxPaths {
    pub type_code: Path,
    pub whole: Path,
    pub rate: Path,
    pub parent: Path,
}
