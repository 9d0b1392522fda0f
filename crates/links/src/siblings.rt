// Links as they are read: the records under a record, one after the other.
ghost use Rattle.std.specs.Prelude.{◌≡◌, ◌<◌};
ghost use Rattle.std.specs.Iterator.{YieldsFirst, item_count};
ghost use Rattle.text.specs.Options.{option_of};
ghost use Rattle.table.specs.Table.{found};
ghost use Rattle.links.specs.Links.{link, linked};
ghost use Rattle.links.specs.Siblings.{siblings};

// One of the three links of record i, and 0 where there are none for it: k is its place among their
// numbers, 0 first child, 1 first attribute, 2 next.
#[tactic(auto, unfolding(crate::specs::Links::link))]
fn link_at(links: &[u16], i: usize, k: usize) -> u16
    requires { k < 3 }
    ensures { result ≡ link links.now i k }
{
    if i < links.len() {
        return links.get(i * 3 + k).copied().unwrap_or(0);
    }
    0
}

// The record that a link names, if it names one.
fn record_of(link: u16) -> Option<usize>
    ensures { option_of result ≡ found link }
{
    if link == 0 {
        return None;
    }
    Some(link as usize)
}

// The first child of record i.
pub fn first_of(links: &[u16], i: usize) -> Option<usize>
    ensures { option_of result ≡ found (link links.now i 0) }
{
    record_of(link_at(links, i, 0))
}

// The next record under the parent of record c and of its kind.
pub fn next_of(links: &[u16], c: usize) -> Option<usize>
    ensures { option_of result ≡ found (link links.now c 2) }
{
    record_of(link_at(links, c, 2))
}

// Records that links spell one after the other, from `next` on: at most `left`, so that links that go
// round end, too.
#[derive(Drop)]
pub struct Siblings<'a> {
    links: &'a [u16],
    next: u16,
    left: usize,
}

impl<'a> Iterator for Siblings<'a> {
    type Item = usize;

    ghost next_gives = { YieldsFirst siblings };

    ghost remaining = { item_count siblings };

    #[tactic(auto, unfolding(crate::specs::Siblings::siblings, crate::specs::Links::chain, crate::specs::Links::link))]
    fn next(&mut self) -> Option<usize> {
        let c = self.next as usize;
        if c == 0 || self.left == 0 {
            return None;
        }
        self.next = self.links.get(c * 3 + 2).copied().unwrap_or(0);
        self.left -= 1;
        Some(c)
    }
}

// The records that one of the three links of record i leads to.
#[tactic(auto, unfolding(crate::specs::Siblings::siblings, crate::specs::Links::linked))]
fn siblings_at(links: &[u16], i: usize, k: usize) -> Siblings<'_>
    requires { k < 3 }
    ensures { siblings result ≡ linked links.now k i }
{
    Siblings {
        links,
        next: link_at(links, i, k),
        left: links.len() / 3,
    }
}

// The children of record i, in table order.
pub fn children(links: &[u16], i: usize) -> Siblings<'_>
    ensures { siblings result ≡ linked links.now 0 i }
{
    siblings_at(links, i, 0)
}

// The attributes of record i, in table order.
pub fn attributes(links: &[u16], i: usize) -> Siblings<'_>
    ensures { siblings result ≡ linked links.now 1 i }
{
    siblings_at(links, i, 1)
}
