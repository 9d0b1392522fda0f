// Saying an entry: where it is made, and what it is about.
ghost use Rattle.std.specs.Prelude.{◌≡◌, ◌∷◌, []};
ghost use Rattle.report.specs.Values.{text_of};
ghost use Rattle.settlement.specs.Values as reading;
ghost use Rattle.values.specs.Sites.{site_of};
ghost use Rattle.values.specs.Told.{Said};

use codes::Rule;
use names::{Message, Path, Term};
use report::{Entry, Place};

// Where an entry is made: the element's path, the term, and the index of its group.
#[derive(Clone, Copy)]
pub struct Site {
    pub(crate) path: Path,
    pub(crate) term: Option<Term>,
    pub(crate) index: Option<u32>,
}

// The lent entries, and where the next goes: not `HeldRows`, so that no held row is put among them.
#[derive(Drop)]
pub struct Entries<'a> {
    pub list: &'a mut [i64],
    pub at: usize,
}

impl Entries<'_> {
    // Says a message at a site about a value.
    pub fn say(&mut self, message: Message, site: Site, value: Option<Place>)
        ensures { Said (reading.entry message (site_of site) (text_of value) ∷ []) self.old self.new }
    {
        let entry = Entry {
            message,
            path: site.path,
            term: site.term,
            index: site.index,
            value,
        };
        self.at = report::put_row(self.list, self.at, &entry.row());
    }

    // Says that a required term is missing, where its rule is in force.
    pub fn missing(&mut self, rules: u32, rule: Rule, site: Site)
        ensures { Said (reading.missing rules rule (site_of site)) self.old self.new }
    {
        if codes::is_in_force(rules, rule) {
            self.say(Message::Missing, site, None);
        }
    }
}
