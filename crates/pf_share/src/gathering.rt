// What the lines of a text have given so far, and the rules of the lines.
ghost use Rattle.std.specs.Prelude.{◌≡◌, ◌≤ℤ◌, ◌∷◌, [], ℕ, pos, nat_abs, length, replicate, None, Ok, IfOk};
ghost use Rattle.pf_text.specs.Kinds.{Fits};
ghost use Rattle.pf_lines.specs.Gathering.{ObeysRules};
ghost use Rattle.pf_share.specs.Problem.{ShareProblem, IsBoundedSharing};
ghost use Rattle.pf_share.specs.Text.{node_index, sink_rules, sink_form, weight_rules, weight_form, arc_rules, arc_form, end_by};

use crate::sharing::Sharing;
use pf_frame::NoMemory;
use pf_lines::{LineBad, RuleKind};
use std::alloc::Global;

/// The numbers of the header, and what the lines after it have given so far: the weight of a node stands in the node's place, and 0
/// where none was given.
#[derive(Drop)]
pub struct ShareState {
    pub node_count: u32,
    pub arc_count: usize,
    sink: Option<u32>,
    weights: Vec<u32>,
    ends: Vec<(u32, u32)>,
    capacities: Vec<u32>,
    ghost full: { length weights.items ≡ node_count },
}

// The index of the node of this number among so many: texts number the nodes from 1, and problems from 0.
fn index_of(node: i64, nodes: u32) -> u32
    requires low { pos 1 ≤ℤ node }
    requires high { node ≤ℤ pos nodes }
    ensures { result ≡ node_index node }
{
    (node - 1) as u32
}

// A number that is not below 0.
fn number_of(number: i64) -> u32
    requires low { pos 0 ≤ℤ number }
    requires high { number ≤ℤ pos 1000000000 }
    ensures { result ≡ nat_abs number }
{
    number as u32
}

impl ShareState {
    ghost use Rattle.pf_share.specs.Gathered.{given_of, header_of};

    /// Nothing after a header of these numbers.
    pub fn new(alloc: Global, node_count: u32, arc_count: usize) -> Result<ShareState, NoMemory>
        ensures header { IfOk result (λ state. header_of state ≡ pos node_count ∷ pos arc_count ∷ []) }
        ensures given { IfOk result (λ state. given_of state ≡ record { sink = None; weights = replicate node_count 0; ends = []; capacities = [] }) }
    {
        let weights = vec![in alloc; 0; node_count as usize]?;
        Ok(ShareState {
            node_count,
            arc_count,
            sink: None,
            weights,
            ends: Vec::new(alloc),
            capacities: Vec::new(alloc),
        })
    }

    /// `n ID t`
    pub fn sink_line(&mut self, numbers: &[i64]) -> Result<(), LineBad>
        requires { Fits (sink_form (header_of self.old)).patterns numbers.now }
        ensures obeys { ObeysRules (sink_rules numbers.now (given_of self.old)) (λ _. given_of self.new) result }
        ensures header { header_of self.new ≡ header_of self.old }
    {
        let &[node] = numbers else {
            unreachable!();
        };
        let node = index_of(node, self.node_count);
        if self.sink.is_some() {
            return Err(LineBad::Broken(RuleKind::Repeated));
        }
        self.sink = Some(node);
        Ok(())
    }

    /// `w ID WEIGHT`
    pub fn weight_line(&mut self, numbers: &[i64]) -> Result<(), LineBad>
        requires { Fits (weight_form (header_of self.old)).patterns numbers.now }
        ensures obeys { ObeysRules (weight_rules numbers.now (given_of self.old)) (λ _. given_of self.new) result }
        ensures header { header_of self.new ≡ header_of self.old }
    {
        let &[node, weight] = numbers else {
            unreachable!();
        };
        let node = index_of(node, self.node_count);
        let v = node as usize;
        if self.weights[v] != 0 {
            return Err(LineBad::Broken(RuleKind::Repeated));
        }
        let Some(sink) = self.sink else {
            return Err(LineBad::Broken(RuleKind::Missing));
        };
        if sink == node {
            return Err(LineBad::Broken(RuleKind::Ends));
        }
        self.weights[v] = number_of(weight);
        Ok(())
    }

    /// `a U V CAP`
    pub fn arc_line(&mut self, numbers: &[i64]) -> Result<(), LineBad>
        requires { Fits (arc_form (header_of self.old)).patterns numbers.now }
        ensures obeys { ObeysRules (arc_rules numbers.now (given_of self.old)) (λ _. given_of self.new) result }
        ensures header { header_of self.new ≡ header_of self.old }
    {
        let &[tail, head, capacity] = numbers else {
            unreachable!();
        };
        if self.sink.is_none() {
            return Err(LineBad::Broken(RuleKind::Missing));
        }
        let nodes = self.node_count;
        self.ends
            .push((index_of(tail, nodes), index_of(head, nodes)))?;
        self.capacities.push(number_of(capacity))?;
        Ok(())
    }

    /// The network of what was given.
    pub fn sharing(self) -> Result<Sharing, LineBad>
        requires { (p : ShareProblem) → end_by self.sink self.weights.items self.ends.items self.capacities.items ≡ Ok p → IsBoundedSharing p }
        ensures { ObeysRules (end_by self.sink self.weights.items self.ends.items self.capacities.items) (λ p. p) result }
    {
        let ShareState {
            sink,
            weights,
            ends,
            capacities,
            ..
        } = self;
        let Some(sink) = sink else {
            return Err(LineBad::Broken(RuleKind::Missing));
        };
        Ok(Sharing::from_vecs(sink, weights, ends, capacities))
    }
}
