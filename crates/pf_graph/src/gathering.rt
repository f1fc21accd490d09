// What the lines of a text have given so far, and the rules of the lines.
ghost use Rattle.std.specs.Prelude.{◌≡◌, ◌≤ℤ◌, pos, length, Ok, IfOk};
ghost use Rattle.pf_text.specs.Kinds.{Fits};
ghost use Rattle.pf_lines.specs.Gathering.{ObeysRules};
ghost use Rattle.pf_graph.specs.Limits.{IsWithinLimits};
ghost use Rattle.pf_graph.specs.Counts.{widest_header};
ghost use Rattle.pf_graph.specs.Text.{index, nothing_given, vertex_count, edge_count, vertex_rules, vertex_form, price_rules, price_form, edge_rules, edge_form, graph_by};

use crate::graph::Graph;
use crate::slots::Slots;
use pf_frame::NoMemory;
use pf_lines::{LineBad, RuleKind};
use std::alloc::Global;

/// The numbers of the header, and what the lines after it have given so far.
#[derive(Drop)]
pub struct GraphState {
    pub vertex_count: u32,
    pub edge_count: u32,
    costs: Slots,
    prices: Slots,
    ends: Vec<(u32, u32)>,
    weights: Vec<u32>,
    ghost costs_full: { length costs.numbers ≡ vertex_count },
    ghost prices_full: { length prices.numbers ≡ edge_count },
}

// The index of what has this number among so many: texts number from 1, and graphs from 0.
fn index_of(number: i64, count: u32) -> u32
    requires low { pos 1 ≤ℤ number }
    requires high { number ≤ℤ pos count }
    ensures { result ≡ index number }
{
    (number - 1) as u32
}

// A weight, a cost or a price.
fn amount(number: i64) -> u32
    requires low { pos 1 ≤ℤ number }
    requires high { number ≤ℤ pos 1000000 }
    ensures { pos result ≡ number }
{
    number as u32
}

impl GraphState {
    ghost use Rattle.pf_graph.specs.Gathered.{given_of, header_of};

    /// Nothing after a header of these numbers.
    pub fn new(alloc: Global, numbers: &[i64]) -> Result<GraphState, NoMemory>
        requires { Fits widest_header numbers.now }
        ensures header { IfOk result (λ state. header_of state ≡ numbers.now) }
        ensures given { IfOk result (λ state. given_of state ≡ nothing_given (vertex_count numbers.now) (edge_count numbers.now)) }
    {
        let &[vertices, edges] = numbers else {
            unreachable!();
        };
        let (vertex_count, edge_count) = (vertices as u32, edges as u32);
        let costs = Slots::new(alloc, vertex_count)?;
        let prices = Slots::new(alloc, edge_count)?;
        Ok(GraphState {
            vertex_count,
            edge_count,
            costs,
            prices,
            ends: Vec::new(alloc),
            weights: Vec::new(alloc),
        })
    }

    /// `v ID COST`
    pub fn vertex_line(&mut self, numbers: &[i64]) -> Result<(), LineBad>
        requires { Fits (vertex_form (header_of self.old)).patterns numbers.now }
        ensures obeys { ObeysRules (vertex_rules numbers.now (given_of self.old)) (λ _. given_of self.new) result }
        ensures header { header_of self.new ≡ header_of self.old }
    {
        let &[vertex, cost] = numbers else {
            unreachable!();
        };
        let v = index_of(vertex, self.vertex_count);
        if self.costs.is_given(v) {
            return Err(LineBad::Broken(RuleKind::Repeated));
        }
        self.costs.put(v, amount(cost));
        Ok(())
    }

    /// `k ID PRICE`
    pub fn price_line(&mut self, numbers: &[i64]) -> Result<(), LineBad>
        requires { Fits (price_form (header_of self.old)).patterns numbers.now }
        ensures obeys { ObeysRules (price_rules numbers.now (given_of self.old)) (λ _. given_of self.new) result }
        ensures header { header_of self.new ≡ header_of self.old }
    {
        let &[edge, price] = numbers else {
            unreachable!();
        };
        let e = index_of(edge, self.edge_count);
        if self.prices.is_given(e) {
            return Err(LineBad::Broken(RuleKind::Repeated));
        }
        self.prices.put(e, amount(price));
        Ok(())
    }

    /// `e U V W`
    pub fn edge_line(&mut self, numbers: &[i64]) -> Result<(), LineBad>
        requires { Fits (edge_form (header_of self.old)).patterns numbers.now }
        ensures obeys { ObeysRules (edge_rules numbers.now (given_of self.old)) (λ _. given_of self.new) result }
        ensures header { header_of self.new ≡ header_of self.old }
    {
        let &[first, second, weight] = numbers else {
            unreachable!();
        };
        let u = index_of(first, self.vertex_count);
        let v = index_of(second, self.vertex_count);
        if u == v {
            return Err(LineBad::Broken(RuleKind::Loop));
        }
        let weight = amount(weight);
        self.ends.push((u, v))?;
        self.weights.push(weight)?;
        Ok(())
    }

    /// The graph of what was given.
    pub fn graph(self, alloc: Global) -> Result<Graph, LineBad>
        requires { IsWithinLimits (graph_by (header_of self) (given_of self)) }
        ensures { ObeysRules (Ok (graph_by (header_of self) (given_of self))) (λ graph. graph) result }
    {
        let GraphState {
            vertex_count,
            costs,
            prices,
            ends,
            weights,
            ..
        } = self;
        let costs = costs.into_numbers();
        let prices = prices.into_numbers();
        let graph = Graph::make(alloc, vertex_count, &ends, weights, costs, prices)?;
        Ok(graph)
    }
}
