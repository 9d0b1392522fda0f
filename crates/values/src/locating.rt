// Sites, with a group and without.
ghost use Rattle.std.specs.Prelude.{◌≡◌};
ghost use Rattle.text.specs.Options.{option_of};
ghost use Rattle.settlement.specs.Values as reading;
ghost use Rattle.values.specs.Sites.{site_of};

use crate::saying::Site;
use names::{Path, Term};

// A site without a group.
pub fn site(path: Path, term: Option<Term>) -> Site
    ensures { site_of result ≡ reading.site path (option_of term) }
{
    Site {
        path,
        term,
        index: None,
    }
}

// A site in the group of an index.
pub fn grouped(path: Path, term: Option<Term>, index: u32) -> Site
    ensures { site_of result ≡ reading.grouped path (option_of term) index }
{
    Site {
        path,
        term,
        index: Some(index),
    }
}

// The same term and group at another path.
pub fn moved(site: Site, path: Path) -> Site
    ensures { site_of result ≡ record { path = path; term = (site_of site).term; index = (site_of site).index } }
{
    Site { path, ..site }
}
