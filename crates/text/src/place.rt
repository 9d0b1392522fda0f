// A name looked up among names.
ghost use Rattle.std.specs.Prelude.{◌≡◌, position};
ghost use Rattle.text.specs.Order.{equal};
ghost use Rattle.text.specs.Place.{meaning};

use crate::word::same_words;

// Where a name stands among names.
pub fn position_of(names: &[&[u8]], name: &[u8]) -> Option<usize>
    ensures { result ≡ position (λ w. equal name.now w.now) names.now }
{
    names.iter().position(|w| same_words(name, w))
}

// What a name stands for in a list of names with their meanings.
#[tactic(auto, unfolding(crate::specs::Place::meaning))]
pub fn meaning_of<A: Copy>(names: &[(&[u8], A)], name: &[u8]) -> Option<A>
    ensures { result ≡ meaning names.now name.now }
{
    let found = names.iter().find(|w| same_words(name, w.0))?;
    Some(found.1)
}
