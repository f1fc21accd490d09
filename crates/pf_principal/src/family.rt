// The family of the partitions of a graph, over whose lines the envelope is found.
ghost use Rattle.std.specs.Prelude.{◌≡◌, ℕ, List, length, IfOk};
ghost use Rattle.pf_model.specs.Fraction.{Fraction};
ghost use Rattle.pf_model.specs.Line.{AffineLine};
ghost use Rattle.pf_model.proofs.Certificate.{at_most_trans};
ghost use Rattle.pf_envelope.specs.Envelope.{IsLeastAt};
ghost use Rattle.pf_graph.specs.WeightedGraph.{WeightedGraph};
ghost use Rattle.pf_graph.specs.Best.{level_zero, partition_line};
ghost use Rattle.pf_principal.specs.Lines.{IsPartitionFound, IsLineOfPartition, IsLevel};

use pf_envelope::Family;
use pf_forest::Forest;
use pf_frame::NoMemory;
use pf_graph::{Graph, Partition};
use pf_rat::{Line, Rat};
use std::alloc::Global;

/// A partition that is best at some level, with its line.
#[derive(Drop)]
pub struct Best {
    pub line: Line,
    pub partition: Partition,
}

/// The partitions of a graph, and the forest that finds one that is best at a level.
#[derive(Drop)]
pub struct Bests<'g> {
    pub forest: Forest<'g>,
}

/// The line of a partition over the level: the crossing weight less the level times the number of parts less one.
pub fn line_of(graph: &Graph, partition: &Partition) -> Line
    requires { length partition.now ≡ graph.now.nodes }
    ensures { result ≡ partition_line graph.now partition.now }
{
    // Gives the proof the limits.
    let _ = graph.frame();
    let crossing = graph.crossing(partition);
    let parts = partition.parts();
    Line::new(crossing, 1 - i128::from(parts))
}

// A second value of a partition.
fn copy(alloc: Global, partition: &Partition) -> Result<Partition, NoMemory>
    ensures { IfOk result (λ second. second ≡ partition.now) }
{
    let second = Partition::of(alloc, partition.labels())?;
    Ok(second)
}

// A partition that is best at a level.
fn find_best(alloc: Global, forest: &mut Forest<'_>, at: &Rat) -> Result<Best, NoMemory>
    requires { IsLevel at.now }
    ensures found { IfOk result (λ m. IsPartitionFound forest.old.graph m.line m.partition) }
    ensures least { IfOk result (λ m. IsLeastAt (IsLineOfPartition forest.old.graph) m.line at.now) }
    ensures same { forest.new.graph ≡ forest.old.graph }
{
    forest.fill(at);
    // Gives the proof what holds of every filled forest.
    let _ = forest.vector();
    let partition = copy(alloc, forest.partition())?;
    let line = line_of(forest.graph(), &partition);
    Ok(Best { line, partition })
}

impl<'g> Family for Bests<'g> {
    type Member = Best;

    ghost Subject = { WeightedGraph };

    ghost subject = { λ f. f.forest.graph };

    ghost line_of = { λ g m. m.line };

    ghost member = { λ g m. IsPartitionFound g m.line m.partition };

    ghost has = { λ g line. IsLineOfPartition g line };

    ghost serves = { λ g x. IsLevel x };

    ghost found = { λ g m x. Unit {0} };

    fn line(&self, m: &Best) -> Line {
        m.line
    }

    fn end(&mut self, alloc: Global, at: &Rat) -> Result<Best, NoMemory> {
        find_best(alloc, &mut self.forest, at)
    }

    fn least(
        &mut self,
        alloc: Global,
        at: &Rat,
        _left: &Best,
        _left_at: &Rat,
        _right: &Best,
        _right_at: &Rat,
    ) -> Result<Best, NoMemory> {
        let q = at.q();
        prove!(q >= 1);
        find_best(alloc, &mut self.forest, at)
    }

    fn twin(&self, alloc: Global, m: &Best) -> Result<Best, NoMemory> {
        let partition = copy(alloc, &m.partition)?;
        Ok(Best {
            line: m.line,
            partition,
        })
    }

    ghost lines_of_members = { λ g m h. record { labels = m.partition; full = h.partition.full; line_is = h.line_is } };

    ghost serves_parameters = { λ g x h. h.parameter };

    ghost serves_between = { λ g x y z h from to order order'. record {
      parameter = h;
      low = at_most_trans level_zero x z (record { le = tt }) from.parameter h from.low order;
    } };
}
