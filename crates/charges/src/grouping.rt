// The terms and rules of allowances and of charges.
ghost use Rattle.std.specs.Prelude.{◌≡◌, true, false, cond};
ghost use Rattle.text.specs.Options.{option_of};
ghost use Rattle.settlement.specs.Tax.{group_terms};
ghost use Rattle.settlement.specs.Values.{grouped};
ghost use Rattle.amounts.specs.Amounts.{Wanted};
ghost use Rattle.charges.specs.Charges.{group_terms_of};

use crate::shapes::Group;
use amounts::Required;
use codes::Rule;
use names::{Path, Term};

// The charge BG-21 of an index. It and the allowance differ in constants alone, and stay two tables of them: one
// function would take all seven.
pub(crate) fn charge_group(index: u32) -> Group
    ensures { (group_terms_of result ≡ group_terms true) × (result.index ≡ index) }
{
    Group {
        index,
        amount: Some(Term::Bt99),
        base: Some(Term::Bt100),
        percentage: Some(Term::Bt101),
        category: Some(Term::Bt102),
        rate: Some(Term::Bt103),
        amount_rule: Rule::Br36,
        category_rule: Rule::Br37,
    }
}

// The allowance BG-20 of an index.
fn allowance_group(index: u32) -> Group
    ensures { (group_terms_of result ≡ group_terms false) × (result.index ≡ index) }
{
    Group {
        index,
        amount: Some(Term::Bt92),
        base: Some(Term::Bt93),
        percentage: Some(Term::Bt94),
        category: Some(Term::Bt95),
        rate: Some(Term::Bt96),
        amount_rule: Rule::Br31,
        category_rule: Rule::Br32,
    }
}

// The next charge or allowance, after this many allowances and charges.
pub(crate) fn group_terms(charge: bool, allowances: u32, charges: u32) -> Group
    ensures { (group_terms_of result ≡ group_terms charge) × (result.index ≡ cond charge charges allowances) }
{
    if charge {
        return charge_group(charges);
    }
    allowance_group(allowances)
}

// The amount that a group must have (BT-92 or BT-99), by the path of the group and that of the amount.
pub(crate) fn wanted_amount(g: Group, group: Path, path: Path) -> Required
    ensures { Wanted result g.amount_rule group (grouped path (option_of g.amount) g.index) }
{
    Required {
        rule: g.amount_rule,
        group,
        site: values::grouped(path, g.amount, g.index),
    }
}
