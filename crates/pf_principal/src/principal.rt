// The principal partition, with its certificate.
ghost use Rattle.std.specs.Prelude.{◌≡◌, ◌≤◌, IfOk, length, All};
ghost use Rattle.pf_graph.specs.Best.{IsPrincipal};
ghost use Rattle.pf_principal.specs.Lines.{IsLevel};
ghost use Rattle.pf_principal.specs.Rows.{AreFilled};
ghost use Rattle.pf_principal.specs.Principal.{IsPrincipalShape, CertifiesPrincipal};

use crate::family::Bests;
use crate::search::{fill_tables, levels_of, partitions_of, top_level};
use pf_curve::Points;
use pf_envelope::envelope;
use pf_forest::Forest;
use pf_frame::{FlowTable, NoMemory};
use pf_graph::{Graph, Partitions};
use pf_rat::Rat;
use std::alloc::Global;
use std::marker::Model;

/// Levels, one partition more, a vector for each level, and for each level a split for each vertex as a root. Vectors are
/// indexed by levels and then by edges, splits by levels and roots (row `j n + r` for level `j` and root `r`, both from 0, with
/// `n` vertices) and then by edges. Vector and splits of a level `P/Q` are in units of `1/Q`.
#[derive(Drop)]
pub struct Principal {
    levels: Points,
    parts: Partitions,
    vectors: FlowTable,
    splits: FlowTable,
}

impl Model for Principal {
    ghost use Rattle.pf_principal.specs.Principal.{PrincipalAnswer};

    ghost Value = { PrincipalAnswer };

    ghost view = { λ p. record { levels = p.levels; partitions = p.parts; vectors = p.vectors; splits = p.splits } };
}

// The answer of these levels and partitions, with a vector and splits for each level.
fn with_tables(
    alloc: Global,
    forest: &mut Forest<'_>,
    levels: Points,
    parts: Partitions,
) -> Result<Principal, NoMemory>
    requires { All IsLevel levels }
    ensures answer { IfOk result (λ a. a ≡ record { levels = levels; partitions = parts; vectors = a.vectors; splits = a.splits }) }
    ensures filled { IfOk result (λ a. AreFilled forest.old.graph levels a.vectors a.splits (length levels)) }
{
    let mut vectors = FlowTable::new(alloc);
    let mut splits = FlowTable::new(alloc);
    fill_tables(alloc, forest, levels.get(), &mut vectors, &mut splits)?;
    Ok(Principal::new(levels, parts, vectors, splits))
}

impl Principal {
    /// The answer of these fields, whatever they hold. It takes no memory.
    pub fn new(
        levels: Points,
        parts: Partitions,
        vectors: FlowTable,
        splits: FlowTable,
    ) -> Principal
        ensures { result ≡ record { levels = levels; partitions = parts; vectors = vectors; splits = splits } }
    {
        Principal {
            levels,
            parts,
            vectors,
            splits,
        }
    }

    /// The principal partition of a graph: all levels at which the best partitions change, the partition that is best between
    /// each level and the next, and the certificate (Narayanan 1991; found as the lower envelope of the lines of all partitions,
    /// with forests that tell a best partition at a level). `NoMemory` where memory was not found.
    pub fn of(alloc: Global, graph: &Graph) -> Result<Principal, NoMemory>
        requires { 2 ≤ graph.now.nodes }
        ensures shape { IfOk result (λ answer. IsPrincipalShape graph.now answer) }
        ensures certified { IfOk result (λ answer. CertifiesPrincipal graph.now answer) }
        ensures principal { IfOk result (λ answer. IsPrincipal graph.now answer.levels answer.partitions) }
    {
        // Gives the proof the limits.
        let _ = graph.frame();
        let forest = Forest::make(alloc, graph)?;
        let low = Rat::new(0, 1);
        let high = top_level(graph, forest.partition());
        let mut family = Bests { forest };
        let parts = envelope(alloc, &mut family, &low, &high)?;
        let levels = levels_of(alloc, parts.as_slice())?;
        let partitions = partitions_of(alloc, parts)?;
        let answer = with_tables(alloc, &mut family.forest, levels, partitions)?;
        Ok(answer)
    }

    /// The levels, rising.
    pub fn levels(&self) -> &Points
        ensures { result.now ≡ self.now.levels }
    {
        &self.levels
    }

    /// The partitions: number `j` is that between level `j - 1` and level `j`, both counted from 0.
    pub fn parts(&self) -> &Partitions
        ensures { result.now ≡ self.now.partitions }
    {
        &self.parts
    }

    /// The vectors, one per level.
    pub fn vectors(&self) -> &FlowTable
        ensures { result.now ≡ self.now.vectors }
    {
        &self.vectors
    }

    /// The splits, one per level and root.
    pub fn splits(&self) -> &FlowTable
        ensures { result.now ≡ self.now.splits }
    {
        &self.splits
    }
}
