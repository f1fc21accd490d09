// The strength, with its certificate.
ghost use Rattle.std.specs.Prelude.{◌≡◌, ◌≤◌, IfOk};
ghost use Rattle.pf_graph.specs.Best.{IsStrength};
ghost use Rattle.pf_strength.specs.Newton.{IsLast};
ghost use Rattle.pf_strength.specs.Strength.{IsStrengthShape, CertifiesStrength, of_fields};

use crate::newton::find;
use pf_forest::Forest;
use pf_frame::{FlowTable, NoMemory, Numbers};
use pf_graph::{Graph, Partition};
use pf_rat::Rat;
use std::alloc::Global;
use std::marker::Model;

/// A level `P/Q`, a partition, a vector indexed by edges, and a split for each vertex as a root, indexed by roots and then by
/// edges. Vector and splits are in units of `1/Q`; a split tells what the first end of each edge gets of its number.
#[derive(Drop)]
pub struct Strength {
    fields: (Rat, (Partition, (Numbers, FlowTable))),
}

impl Model for Strength {
    ghost use Rattle.pf_strength.specs.Strength.{StrengthAnswer, of_fields};

    ghost Value = { StrengthAnswer };

    ghost view = { λ s. of_fields s.fields };
}

// The answer of the last level, partition and forest.
fn read_off(
    alloc: Global,
    level: Rat,
    parts: Partition,
    forest: &mut Forest<'_>,
) -> Result<Strength, NoMemory>
    requires { IsLast forest.old.graph level parts forest.old }
    ensures shape { IfOk result (λ answer. IsStrengthShape forest.old.graph answer) }
    ensures certified { IfOk result (λ answer. CertifiesStrength forest.old.graph answer) }
    ensures strength { IfOk result (λ answer. IsStrength forest.old.graph answer.level answer.parts) }
{
    let q = level.q();
    prove!(q >= 1);
    let vector = Numbers::from_vec(Vec::from_slice(alloc, forest.vector())?);
    let mut splits = FlowTable::new(alloc);
    forest.push_splits(alloc, &mut splits)?;
    Ok(Strength::new(level, parts, vector, splits))
}

impl Strength {
    /// The answer of these fields, whatever they hold. It takes no memory.
    pub fn new(level: Rat, parts: Partition, vector: Numbers, splits: FlowTable) -> Strength
        ensures { result ≡ record { level = level; parts = parts; vector = vector; splits = splits } }
    {
        Strength {
            fields: (level, (parts, (vector, splits))),
        }
    }

    // The answer of these fields, as its format reads them.
    pub(crate) fn of_fields(fields: (Rat, (Partition, (Numbers, FlowTable)))) -> Strength
        ensures { result ≡ of_fields fields }
    {
        Strength { fields }
    }

    // Its fields, as its format prints them.
    pub(crate) fn fields(&self) -> &(Rat, (Partition, (Numbers, FlowTable)))
        ensures { self.now ≡ of_fields result.now }
    {
        &self.fields
    }

    /// The strength of a graph: the least ratio of crossing weight to the number of parts less one over all partitions into at
    /// least two parts, a partition that attains it, and the certificate (Cunningham 1985; found by Newton's iteration over
    /// forests). The strength of a graph that is not connected is 0. `NoMemory` where memory was not found.
    pub fn of(alloc: Global, graph: &Graph) -> Result<Strength, NoMemory>
        requires { 2 ≤ graph.now.nodes }
        ensures shape { IfOk result (λ answer. IsStrengthShape graph.now answer) }
        ensures certified { IfOk result (λ answer. CertifiesStrength graph.now answer) }
        ensures strength { IfOk result (λ answer. IsStrength graph.now answer.level answer.parts) }
    {
        let mut forest = Forest::make(alloc, graph)?;
        let mut parts = Partition::of(alloc, forest.partition().labels())?;
        let level = find(graph, &mut forest, &mut parts);
        let answer = read_off(alloc, level, parts, &mut forest)?;
        Ok(answer)
    }

    /// The level, in lowest terms.
    pub fn level(&self) -> &Rat
        ensures { result.now ≡ self.now.level }
    {
        &self.fields.0
    }

    /// The partition; its labels are indexed by vertices.
    pub fn parts(&self) -> &Partition
        ensures { result.now ≡ self.now.parts }
    {
        &self.fields.1.0
    }

    /// The vector, indexed by edges, in units of `1/Q` of the level.
    pub fn vector(&self) -> &Numbers
        ensures { result.now ≡ self.now.vector }
    {
        &self.fields.1.1.0
    }

    /// The splits, indexed by roots and then by edges, in units of `1/Q` of the level.
    pub fn splits(&self) -> &FlowTable
        ensures { result.now ≡ self.now.splits }
    {
        &self.fields.1.1.1
    }
}
