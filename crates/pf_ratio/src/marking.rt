// Marks that spread along links.
ghost use Rattle.std.specs.Prelude.{◌≡◌, ◌<◌, ℕ, length, false};
ghost use Rattle.pf_ratio.specs.declared.link.Link.{Link};
ghost use Rattle.pf_ratio.specs.Marking.{HavePlaces, IsEndMarked, IsRound, IsMarkedBy};

use crate::link::Link;

/// Links that are numbered from 0.
pub trait Links {
    // How many they are, and which.
    ghost count: { Self → ℕ };

    ghost link: { Self → ℕ → Link };

    // What they are read under.
    ghost is_ready: { Self → Type 0 };

    /// How many links there are.
    fn count(&self) -> usize
        ensures { result ≡ Self.count self.now };

    /// The link of this number.
    fn link(&self, i: usize) -> Link
        requires ready { Self.is_ready self.now }
        requires there { i < Self.count self.now }
        ensures { result ≡ Self.link self.now i };
}

// Marks an end of a link, if the other one is marked and the link says so, and tells whether it did.
fn mark_end(marks: &mut [bool], link: Link) -> bool
    requires first { link.first < length marks.old }
    requires second { link.second < length marks.old }
    ensures { IsEndMarked link marks.old marks.new result }
{
    if link.to_first && marks[link.second] && !marks[link.first] {
        marks[link.first] = true;
        return true;
    }
    if link.to_second && marks[link.first] && !marks[link.second] {
        marks[link.second] = true;
        return true;
    }
    false
}

// One pass over the links.
fn mark_round<L: Links>(links: &L, marks: &mut [bool]) -> bool
    requires ready { L.is_ready links.now }
    requires places { HavePlaces (L.link links.now) (L.count links.now) (length marks.old) }
    ensures { IsRound (L.link links.now) (L.count links.now) marks.old marks.new result }
{
    let mut changed = false;
    'links: for i in 0..links.count() {
        let link = links.link(i);
        let marked = mark_end(marks, link);
        changed = changed || marked;
    }
    changed
}

/// Marks what the links ask for, pass after pass until a pass marks none: of the marks that contain those at first and keep the
/// links, the least. It takes no memory.
pub fn mark_linked<L: Links>(links: &L, marks: &mut [bool])
    requires ready { L.is_ready links.now }
    requires places { HavePlaces (L.link links.now) (L.count links.now) (length marks.old) }
    ensures { IsMarkedBy (L.link links.now) (L.count links.now) marks.old marks.new }
{
    let mut changed = true;
    'rounds: while changed {
        changed = mark_round(links, marks);
    }
}
