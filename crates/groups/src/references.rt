// BG-3 preceding invoice.
ghost use Rattle.report.specs.Values.{preceding_of};
ghost use Rattle.element.specs.LinkDoc.{doc_of};
ghost use Rattle.values.specs.Told.{Told};
ghost use Rattle.groups.specs.Groups.{preceding_says};

use codes::Rule;
use element::Document;
use names::{Path, Term};
use report::Preceding;
use values::{DatePaths, Entries, Lent};

// The preceding invoice that element n is, the one of this index.
pub fn preceding(
    doc: &Document,
    lent: &Lent,
    entries: &mut Entries,
    index: u32,
    n: usize,
) -> Preceding
    ensures { Told (preceding_says lent.now.mode lent.now.rules (doc_of doc.now) index n) entries.old (preceding_of result) entries.new }
{
    let mut kids = [None; 2];
    let names: [&[u8]; 2] = [b"IssuerAssignedID", b"FormattedIssueDateTime"];
    doc.first_children(n, &names, &mut kids);
    let [id, issue] = kids;
    let id = doc.child_text(0, id);
    let site = values::grouped(
        Path::SettlementInvoiceReferencedDocument,
        Some(Term::Bt25),
        index,
    );
    let paths = DatePaths {
        point: false,
        time: Path::ReferencedDocumentIssueDateTimeString,
        day: Path::ReferencedDocumentIssueDateString,
    };
    Preceding {
        reference: values::required_code(entries, lent.rules, Rule::Br55, site, id),
        date: values::date(doc, lent.mode, entries, paths, issue),
    }
}
