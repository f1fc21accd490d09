// What the lines of a text have given so far, and the rules of the lines.
ghost use Rattle.std.specs.Prelude.{◌≡◌, ℕ, ◌^◌, ◌∷◌, ◌++◌, [], ◌||◌, pos, int_lt, ◌≤ℤ◌, Result, Ok, not, is_some};
ghost use Rattle.pf_model.specs.Fraction.{is_below};
ghost use Rattle.pf_model.specs.Network.{capacity_at};
ghost use Rattle.pf_text.specs.declared.RuleKind.{RuleKind};
ghost use Rattle.pf_text.specs.declared.RuleKind.TheVariants.{Repeated};
ghost use Rattle.pf_text.specs.Kinds.{Fits, broken_if};
ghost use Rattle.pf_lines.specs.Gathering.{ObeysRules};
ghost use Rattle.pf_par.specs.Laws.{IsTextArc};
ghost use Rattle.pf_par.specs.Text.{Given, nothing_given, sense_or_rising, sense_rules, fraction, node_index, arc_rules_by, interval_rules, interval_form, end_rules, end_form, arc_rules, arc_form, network_by};
ghost use Rattle.pf_par.specs.Rules.{IsEnd, IsGoodEnd, broken_by};
ghost use Rattle.pf_par.specs.ParState.{given_of, header_of};

use pf_lines::{LineBad, RuleKind};
use pf_model::AffineArc;
use pf_net::{Net, Sense, Setting, capacity, keeps_rule};
use pf_rat::Rat;
use std::alloc::Global;
use std::cmp::Ordering;
use std::marker::Model;

/// The low and the high end of the parameters.
#[derive(Clone, Copy)]
pub struct Interval {
    low: Rat,
    high: Rat,
}

impl Model for Interval {
    ghost use Rattle.pf_par.specs.Text.{ParameterInterval};

    ghost Value = { ParameterInterval };

    ghost view = { λ i. record { low = i.low; high = i.high } };

    ghost inverse = { λ i. record { low = i.low; high = i.high } };
}

// An end of an interval, in lowest terms.
fn fraction(p: i64, q: i64) -> Rat
    requires { IsEnd p q }
    ensures { result ≡ fraction p q }
{
    Rat::new(i128::from(p), i128::from(q))
}

// The index of the node of this number: texts number the nodes from 1, and networks from 0.
fn index_of(node: i64, nodes: u32) -> u32
    requires low { pos 1 ≤ℤ node }
    requires high { node ≤ℤ pos nodes }
    ensures { result ≡ node_index node }
{
    prove!(node <= i64::from(nodes));
    (node - 1) as u32
}

/// The two ends of a network.
#[derive(Clone, Copy)]
pub enum End {
    Source,
    Sink,
}

/// The numbers of the header, and what the lines after it have given so far.
#[derive(Drop)]
pub struct ParState {
    pub nodes: u32,
    pub arc_count: usize,
    interval: Option<Interval>,
    source: Option<u32>,
    sink: Option<u32>,
    sense: Option<Sense>,
    arcs: Vec<AffineArc>,
}

impl ParState {
    /// Nothing after a header of these numbers.
    pub fn new(alloc: Global, nodes: u32, arc_count: usize) -> ParState
        ensures header { header_of result ≡ pos nodes ∷ pos arc_count ∷ [] }
        ensures given { given_of result ≡ nothing_given }
    {
        ParState {
            nodes,
            arc_count,
            interval: None,
            source: None,
            sink: None,
            sense: None,
            arcs: Vec::new(alloc),
        }
    }

    /// `i LP LQ HP HQ`
    pub fn interval_line(&mut self, numbers: &[i64]) -> Result<(), LineBad>
        requires { Fits interval_form.patterns numbers.now }
        ensures obeys { ObeysRules (interval_rules numbers.now (given_of self.old)) (λ _. given_of self.new) result }
        ensures header { header_of self.new ≡ header_of self.old }
    {
        let &[lp, lq, hp, hq] = numbers else {
            unreachable!();
        };
        let interval = Interval {
            low: fraction(lp, lq),
            high: fraction(hp, hq),
        };
        if let Some(rule) = against_interval(self.interval, &interval) {
            return Err(LineBad::Broken(rule));
        }
        self.interval = Some(interval);
        Ok(())
    }

    /// `n ID s` or `n ID t`
    pub fn end_line(&mut self, end: End, numbers: &[i64]) -> Result<(), LineBad>
        requires { Fits (end_form end (header_of self.old)).patterns numbers.now }
        ensures obeys { ObeysRules (end_rules end numbers.now (given_of self.old)) (λ _. given_of self.new) result }
        ensures header { header_of self.new ≡ header_of self.old }
    {
        let &[number] = numbers else {
            unreachable!();
        };
        let node = index_of(number, self.nodes);
        let (own, other) = match end {
            End::Source => (self.source, self.sink),
            End::Sink => (self.sink, self.source),
        };
        if own.is_some() {
            return Err(LineBad::Broken(RuleKind::Repeated));
        }
        if other == Some(node) {
            return Err(LineBad::Broken(RuleKind::Ends));
        }
        match end {
            End::Source => self.source = Some(node),
            End::Sink => self.sink = Some(node),
        }
        Ok(())
    }

    /// `d rising` or `d falling`. It stands before all arcs, since the first of them settles the sense.
    pub fn sense_line(&mut self, sense: Sense) -> Result<(), LineBad>
        ensures obeys { ObeysRules (sense_rules sense [] (given_of self.old)) (λ _. given_of self.new) result }
        ensures header { header_of self.new ≡ header_of self.old }
    {
        if self.sense.is_some() {
            return Err(LineBad::Broken(RuleKind::Repeated));
        }
        if !self.arcs.is_empty() {
            return Err(LineBad::Broken(RuleKind::Repeated));
        }
        self.sense = Some(sense);
        Ok(())
    }

    /// `a U V A B`
    pub fn arc_line(&mut self, numbers: &[i64]) -> Result<(), LineBad>
        requires { Fits (arc_form (header_of self.old)).patterns numbers.now }
        ensures obeys { ObeysRules (arc_rules numbers.now (given_of self.old)) (λ _. given_of self.new) result }
        ensures header { header_of self.new ≡ header_of self.old }
    {
        let &[u, v, a, b] = numbers else {
            unreachable!();
        };
        let (tail, head) = (index_of(u, self.nodes), index_of(v, self.nodes));
        let arc = AffineArc { tail, head, a, b };
        let sense = sense_or_rising(self.sense);
        if let Some(rule) = against_arc(sense, self.interval, self.source, self.sink, &arc) {
            return Err(LineBad::Broken(rule));
        }
        self.arcs.push(arc)?;
        Ok(())
    }

    /// The network of what was given.
    pub fn network(self, alloc: Global) -> Result<Net, LineBad>
        requires { IsGoodEnd self.nodes self.sense self.interval self.source self.sink self.arcs.items }
        ensures { ObeysRules (network_by self.nodes (sense_or_rising self.sense) self.interval self.source self.sink self.arcs.items) (λ net. net) result }
    {
        let ParState {
            nodes,
            interval,
            source,
            sink,
            sense,
            arcs,
            ..
        } = self;
        let (Some(interval), Some(s), Some(t)) = (interval, source, sink) else {
            return Err(LineBad::Broken(RuleKind::Missing));
        };
        let sense = sense_or_rising(sense);
        let setting = Setting {
            sense,
            nodes,
            source: s,
            sink: t,
            low: interval.low,
            high: interval.high,
        };
        let net = Net::from_setting(alloc, setting, arcs)?;
        Ok(net)
    }
}

// The sense that was given, or rising where none was.
fn sense_or_rising(given: Option<Sense>) -> Sense
    ensures { result ≡ sense_or_rising given }
{
    match given {
        Some(sense) => sense,
        None => Sense::Rising,
    }
}

// The rule that an interval breaks, where this one was given before.
fn against_interval(given: Option<Interval>, next: &Interval) -> Option<RuleKind>
    ensures { (accepted : Result Given RuleKind) → broken_by result accepted
        ≡ broken_if (is_some given) Repeated (broken_if (not (is_below next.now.low next.now.high)) RuleKind.Interval accepted) }
{
    if given.is_some() {
        return Some(RuleKind::Repeated);
    }
    if next.low.cmp(&next.high) != Ordering::Less {
        return Some(RuleKind::Interval);
    }
    None
}

// Whether the capacity of the arc is below 0 at an end of the interval.
fn is_negative(interval: &Interval, arc: &AffineArc) -> bool
    requires { IsTextArc arc.now }
    ensures { result ≡ (int_lt (capacity_at interval.now.low arc.now) (pos 0)
        || int_lt (capacity_at interval.now.high arc.now) (pos 0)) }
{
    capacity(arc, &interval.low) < 0 || capacity(arc, &interval.high) < 0
}

// The rule that an arc breaks.
fn against_arc(
    sense: Sense,
    interval: Option<Interval>,
    source: Option<u32>,
    sink: Option<u32>,
    arc: &AffineArc,
) -> Option<RuleKind>
    requires { IsTextArc arc.now }
    ensures { (given : Given) → broken_by result (Ok (record given { arcs = given.arcs ++ arc.now ∷ [] }))
        ≡ arc_rules_by sense interval source sink arc.now given }
{
    let (Some(interval), Some(s), Some(t)) = (interval, source, sink) else {
        return Some(RuleKind::Missing);
    };
    if !keeps_rule(sense, s, t, arc) {
        return Some(RuleKind::Monotone);
    }
    if is_negative(&interval, arc) {
        return Some(RuleKind::Negative);
    }
    None
}
