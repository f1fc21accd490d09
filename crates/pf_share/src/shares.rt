// Levels, groups and a flow.
ghost use Rattle.std.specs.Prelude.{◌≡◌, ◌<◌, ◌≤◌, ◌^◌, ◌≤ℤ◌, pos, neg_ℤ, length};
ghost use Rattle.pf_model.specs.Cut.{at_arc};
ghost use Rattle.pf_model.specs.Answer.{IsWithinSize};
ghost use Rattle.pf_model.specs.Limits.{capacity_bound};
ghost use Rattle.pf_share.specs.Certificate.{level_at, group_at};

use pf_curve::Points;
use pf_frame::Numbers;
use pf_rat::Rat;
use std::marker::Model;

/// The levels that occur, rising; for each node the number of its level, from 1, or 0 for a node that holds no source back; and for each
/// arc a number, in units of `1/q` of the level `p/q` of its tail, or of 1 where the tail has none.
#[derive(Drop)]
pub struct Shares {
    levels: Points,
    groups: Numbers,
    flow: Numbers,
}

impl Model for Shares {
    ghost use Rattle.pf_share.specs.Certificate.{SharesAnswer};

    ghost Value = { SharesAnswer };

    ghost view = { λ s. record { levels = s.levels; groups = s.groups; flow = s.flow } };
}

// A whole number up to a count, as an index.
fn index_of(number: &i128, count: usize) -> usize
    requires low { pos 0 ≤ℤ number.now }
    requires high { number.now ≤ℤ pos count }
    ensures value { pos result ≡ number.now }
    ensures within { result ≤ count }
{
    let number = *number;
    number as usize
}

// A number of a known size.
fn number_of(number: &i128) -> i128
    requires { IsWithinSize capacity_bound number.now }
    ensures { result ≡ number.now }
{
    let number = *number;
    number
}

impl Shares {
    /// The shares of these parts, whatever they are. Groups are indexed by node, the flow by arc.
    pub fn new(levels: Points, groups: Numbers, flow: Numbers) -> Shares
        ensures { result ≡ record { levels = levels; groups = groups; flow = flow } }
    {
        Shares {
            levels,
            groups,
            flow,
        }
    }

    // The same with these numbers on the arcs.
    pub(crate) fn with_flow(self, flow: Numbers) -> Shares
        ensures { result ≡ record { levels = self.levels; groups = self.groups; flow = flow } }
    {
        let Shares { levels, groups, .. } = self;
        Shares::new(levels, groups, flow)
    }

    /// The levels, rising.
    pub fn levels(&self) -> &Points
        ensures { result.now ≡ self.now.levels }
    {
        &self.levels
    }

    /// The number of its level for each node, from 1, or 0.
    pub fn groups(&self) -> &Numbers
        ensures { result.now ≡ self.now.groups }
    {
        &self.groups
    }

    /// The numbers on the arcs, each in units of `1/q` of the level of its tail.
    pub fn flow(&self) -> &Numbers
        ensures { result.now ≡ self.now.flow }
    {
        &self.flow
    }

    // The number of the level of the node `v`, or 0.
    pub(crate) fn group(&self, v: usize) -> usize
        requires place { v < length self.now.groups }
        requires low { pos 0 ≤ℤ at_arc self.now.groups v }
        requires high { at_arc self.now.groups v ≤ℤ pos (length self.now.levels) }
        ensures value { result ≡ group_at self.now.groups v }
        ensures within { result ≤ length self.now.levels }
    {
        let count = self.levels.get().len();
        index_of(&self.groups.get()[v], count)
    }

    // The level of a group but group 0.
    pub(crate) fn level(&self, group: usize) -> &Rat
        requires low { 1 ≤ group }
        requires high { group ≤ length self.now.levels }
        ensures { result.now ≡ level_at self.now.levels group }
    {
        &self.levels.get()[group - 1]
    }

    // The numerator of a level, which is 0 for group 0.
    pub(crate) fn numerator(&self, group: usize) -> i128
        requires { group ≤ length self.now.levels }
        ensures value { result ≡ (level_at self.now.levels group).p }
        ensures low { neg_ℤ (pos (2 ^ 73)) ≤ℤ result }
        ensures high { result ≤ℤ pos (2 ^ 73) }
    {
        if group == 0 {
            return 0;
        }
        self.levels.get()[group - 1].p()
    }

    // The denominator of a level, which is 1 for group 0.
    pub(crate) fn denominator(&self, group: usize) -> i128
        requires { group ≤ length self.now.levels }
        ensures value { result ≡ (level_at self.now.levels group).q }
        ensures low { pos 1 ≤ℤ result }
        ensures high { result ≤ℤ pos (2 ^ 46) }
    {
        if group == 0 {
            return 1;
        }
        self.levels.get()[group - 1].q()
    }

    // The number on arc `i`.
    pub(crate) fn number(&self, i: usize) -> i128
        requires place { i < length self.now.flow }
        requires size { IsWithinSize capacity_bound (at_arc self.now.flow i) }
        ensures { result ≡ at_arc self.now.flow i }
    {
        number_of(&self.flow.get()[i])
    }
}
