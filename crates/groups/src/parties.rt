// BG-10 payee, with its identifiers.
ghost use Rattle.std.specs.Prelude.{◌≡◌};
ghost use Rattle.report.specs.Values.{text_of};
ghost use Rattle.settlement.specs.Settlement as reading;
ghost use Rattle.element.specs.LinkDoc.{doc_of};
ghost use Rattle.groups.specs.Groups.{identifier_of, maybe_identifier_of, payee_of, scheme_of, kid_identifier, payee_identifier, legal_identifier};

use crate::shapes::{Identifier, Payee};
use element::Document;
use report::Place;

// The scheme of element e: schemeID if there, else listID.
#[tactic(auto, unfolding(crate::specs::Groups::scheme_of, text::specs::Utf8::bytes, text::specs::Utf8::encode))]
fn scheme(doc: &Document, e: usize) -> Option<Place>
    ensures { text_of result ≡ scheme_of (doc_of doc.now) e }
{
    match doc.attribute_text(e, b"schemeID") {
        None => doc.attribute_text(e, b"listID"),
        Some(own) => Some(own),
    }
}

// The identifier that element e is.
#[tactic(auto, unfolding(settlement::specs::Settlement::identifier_of, crate::specs::Groups::scheme_of))]
fn identifier(doc: &Document, e: usize) -> Identifier
    ensures { identifier_of result ≡ reading.identifier_of (doc_of doc.now) e }
{
    Identifier {
        content: doc.own_text(0, e),
        scheme: scheme(doc, e),
    }
}

// The identifier in the first child ID of element n.
#[tactic(auto, unfolding(crate::specs::Groups::kid_identifier, text::specs::Utf8::bytes, text::specs::Utf8::encode))]
fn kid_identifier(doc: &Document, n: usize) -> Option<Identifier>
    ensures { maybe_identifier_of result ≡ kid_identifier (doc_of doc.now) n }
{
    let e = doc.kid(n, b"ID")?;
    Some(identifier(doc, e))
}

// The payee's identifier: GlobalID if there, else ID.
#[tactic(auto, unfolding(crate::specs::Groups::payee_identifier, crate::specs::Groups::kid_identifier, text::specs::Utf8::bytes, text::specs::Utf8::encode))]
fn payee_identifier(doc: &Document, n: usize) -> Option<Identifier>
    ensures { maybe_identifier_of result ≡ payee_identifier (doc_of doc.now) n }
{
    match doc.kid(n, b"GlobalID") {
        Some(e) => Some(identifier(doc, e)),
        None => kid_identifier(doc, n),
    }
}

// The payee's legal registration: the ID of SpecifiedLegalOrganization.
#[tactic(auto, unfolding(crate::specs::Groups::legal_identifier, text::specs::Utf8::bytes, text::specs::Utf8::encode))]
fn legal_identifier(doc: &Document, n: usize) -> Option<Identifier>
    ensures { maybe_identifier_of result ≡ legal_identifier (doc_of doc.now) n }
{
    kid_identifier(doc, doc.kid(n, b"SpecifiedLegalOrganization")?)
}

// The payee that element n is.
#[tactic(auto, unfolding(settlement::specs::Settlement::payee_of, crate::specs::Groups::payee_identifier, crate::specs::Groups::legal_identifier, crate::specs::Groups::kid_identifier, text::specs::Utf8::bytes, text::specs::Utf8::encode))]
pub fn payee(doc: &Document, n: usize) -> Payee
    ensures { payee_of result ≡ reading.payee_of (doc_of doc.now) n }
{
    Payee {
        name: doc.kid_text(0, n, b"Name"),
        identifier: payee_identifier(doc, n),
        legal: legal_identifier(doc, n),
    }
}
