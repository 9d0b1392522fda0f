// The rules of EN 16931 that require a term of the settlement, and which of them are in force.
ghost use Rattle.std.specs.Prelude.{◌≡◌};
ghost use Rattle.codes.specs.Rules.{bit_of, in_force};

// A rule BR-n, in the order of the bits of the rules number.
#[derive(Clone, Copy, Debug, PartialEq, Eq)]
pub enum Rule {
    Br12 = 0,
    Br13 = 1,
    Br14 = 2,
    Br15 = 3,
    Br31 = 4,
    Br32 = 5,
    Br36 = 6,
    Br37 = 7,
    Br45 = 8,
    Br46 = 9,
    Br47 = 10,
    Br55 = 11,
}

// The bit of a rule in the rules number.
// A cast, with the definitions' word for it: a rule has no other number, so that `From` would not say which.
fn bit_of(rule: Rule) -> u32
    ensures { result ≡ bit_of rule }
{
    rule as u32
}

// Whether a rule is in force: its bit of the rules number is 1.
pub fn is_in_force(rules: u32, rule: Rule) -> bool
    ensures { result ≡ in_force rules rule }
{
    (rules >> bit_of(rule)) % 2 == 1
}
