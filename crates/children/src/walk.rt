// The walk over the children of a settlement. What is held, said and noted is lent as three values: most
// functions below write into one of them alone, and one struct would lend them the others, too.
ghost use Rattle.std.specs.Prelude.{◌≤◌, length, Option};
ghost use Rattle.report.specs.declared.held.HeldRows.{HeldRows};
ghost use Rattle.settlement.specs.Kinds.{other};
ghost use Rattle.settlement.specs.Values as reading;
ghost use Rattle.element.specs.LinkDoc.{doc_of, lent_text};
ghost use Rattle.values.specs.Sites.{lent_of};
ghost use Rattle.values.specs.declared.saying.Entries.{Entries};
ghost use Rattle.totals.specs.declared.state.Totals.{Totals};
ghost use Rattle.children.specs.Counts.{Counted};
ghost use Rattle.steps.specs.States.{state};
ghost use Rattle.steps.specs.Steps.{Stepped};
ghost use Rattle.children.specs.Walks.{Walked, Read, countable};
ghost use Rattle.steps.specs.declared.state.Plain.{Plain};
ghost use Rattle.steps.specs.declared.state.Tally.{Tally};
ghost use Rattle.steps.specs.declared.state.Billing.{Billing};

use crate::rows::row_child;
use element::Document;
use kinds::{Kind, kind_of};
use names::Parent;
use report::{HeldRows, Unmapped};
use steps::State;
use unmapped::UnmappedRows;
use values::{Entries, Lent};

// A child that is not mapped is noted.
// A call of `note`, as in `payment` and `totals`, under the contract of its own step.
fn unmapped_child(doc: &Document, unmapped: &mut UnmappedRows, c: usize)
    ensures { (L : reading.Lent) (p : Plain) (t : Tally) (b : Billing) (m : Option Totals) (h : HeldRows) (e : Entries) → Stepped other L (doc_of doc.now) (lent_text doc.now) c (state p t b m) (state p t b m) h h e e unmapped.old unmapped.new }
{
    let element = Unmapped {
        parent: Parent::Settlement,
        name: doc.name(c),
    };
    unmapped.note(doc.text(), element);
}

// All children of element n, from a state on, each by its kind.
fn read_children(
    doc: &Document,
    lent: &Lent,
    held: &mut HeldRows,
    entries: &mut Entries,
    unmapped: &mut UnmappedRows,
    start: State,
    n: usize,
) -> State
    requires { (length doc.now.links.now ≤ 12288) × Counted start.tally 0 }
    ensures { Walked (lent_of lent.now) (doc_of doc.now) (lent_text doc.now) ((doc_of doc.now).kids n) start result held.old held.new entries.old entries.new unmapped.old unmapped.new }
{
    let mut plain = start.plain;
    let mut tally = start.tally;
    let mut billing = start.billing;
    let mut totals = start.totals;
    for c in doc.kids(n) {
        match kind_of(doc, c) {
            Kind::Plain(k) => plain = steps::plain_child(doc, plain, k, c),
            Kind::Row(k) => tally = row_child(doc, lent, held, entries, tally, k, c),
            Kind::Billing(k) => {
                billing = steps::billing_child(doc, lent, held, entries, unmapped, billing, k, c);
            }
            Kind::Summation => {
                totals = Some(steps::summation(doc, lent, entries, unmapped, plain, c));
            }
            Kind::Other => unmapped_child(doc, unmapped, c),
        }
    }
    State {
        plain,
        tally,
        billing,
        totals,
    }
}

// The settlement that record 0 is: all its children, from nothing on. No child is read where there are more
// links than a table of 4,096 records has, for then there might be more rows than can be counted.
pub fn settlement(
    doc: &Document,
    lent: &Lent,
    held: &mut HeldRows,
    entries: &mut Entries,
    unmapped: &mut UnmappedRows,
) -> State
    ensures { Read (lent_of lent.now) (doc_of doc.now) (lent_text doc.now) (countable doc.now.links.now ((doc_of doc.now).kids 0)) result held.old held.new entries.old entries.new unmapped.old unmapped.new }
{
    let start = steps::blank();
    if doc.links().len() <= 12288 {
        return read_children(doc, lent, held, entries, unmapped, start, 0);
    }
    start
}
