// Required codes, and the type code of a tax.
ghost use Rattle.report.specs.Values.{place_of, text_of};
ghost use Rattle.element.specs.LinkDoc.{lent_text};
ghost use Rattle.values.specs.Sites.{site_of, code_in, not_vat_in};
ghost use Rattle.values.specs.Told.{Said, Told};

use crate::saying::{Entries, Site};
use codes::Rule;
use element::Document;
use names::Message;
use report::Place;

// A required code, by the text of a child; empty where it is missing.
pub fn required_code(
    entries: &mut Entries,
    rules: u32,
    rule: Rule,
    site: Site,
    content: Option<Place>,
) -> Place
    ensures { Told (code_in rules rule (site_of site) (text_of content)) entries.old (place_of result) entries.new }
{
    match content {
        None => {
            entries.missing(rules, rule, site);
            Place::new(0, 0, 0)
        }
        Some(p) => p,
    }
}

// Says that a tax is not VAT, where it has a type code that is not.
pub fn say_non_vat(doc: &Document, entries: &mut Entries, site: Site, code: Option<Place>)
    ensures { Said (not_vat_in (lent_text doc.now) (site_of site) (text_of code)) entries.old entries.new }
{
    match code {
        None => {}
        Some(p) => {
            if !codes::is_vat(doc.shown(p)) {
                entries.say(Message::NotVat, site, Some(p));
            }
        }
    }
}
