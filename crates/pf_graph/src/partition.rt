// Partitions of vertices, as lists of labels.
ghost use Rattle.std.specs.Prelude.{◌≡◌, ◌≢◌, ℕ, ◌<◌, ◌≤◌, length, IfOk};
ghost use Rattle.pf_graph.specs.Labels.{label, parts, greatest_label, IsPartition, IsPartitionOf};

use pf_frame::{List, NoMemory};
use std::alloc::Global;
use std::marker::Model;

/// A partition of up to 8192 vertices: one label per vertex. The first label is 1, and each later one is from 1 to one more
/// than the greatest before it. Two vertices are in one part where their labels are equal. Contracts see the labels.
#[derive(Drop)]
pub struct Partition {
    labels: Vec<u32>,
    count: u32,
}

impl Model for Partition {
    ghost use Rattle.std.specs.Prelude.{List, ℕ};
    ghost use Rattle.pf_graph.specs.Keeping.{IsKeptPartition};

    ghost Value = { List ℕ };

    ghost view = { λ p. p.labels.items };

    ghost invariant = { λ p. IsKeptPartition p.labels.items p.count };
}

impl Partition {
    /// The partition in which two vertices are in one part exactly where their groups are equal. Takes time in proportion to
    /// the square of the number of vertices.
    pub fn of(alloc: Global, groups: &[u32]) -> Result<Partition, NoMemory>
        requires some { 0 < length groups.now }
        requires few { length groups.now ≤ 8192 }
        ensures { IfOk result (λ partition. IsPartitionOf groups.now partition) }
    {
        let mut labels = vec![in alloc; 0u32; groups.len()]?;
        let count = number(groups, &mut labels);
        Ok(Partition { labels, count })
    }

    /// Makes it the partition that `of` gives for these groups. It takes no memory.
    pub fn regroup(&mut self, groups: &[u32])
        requires { length groups.now ≡ length self.old }
        ensures { IsPartitionOf groups.now self.new }
    {
        self.count = number(groups, &mut self.labels);
    }

    /// The number of parts.
    pub fn parts(&self) -> u32
        ensures { result ≡ parts self.now }
    {
        self.count
    }

    /// The labels, one per vertex. What holds of every partition is told here.
    pub fn labels(&self) -> &[u32]
        ensures value { result.now ≡ self.now }
        ensures some { 0 < length self.now }
        ensures few { length self.now ≤ 8192 }
        ensures partition { IsPartition (length self.now) self.now }
    {
        self.labels.as_slice()
    }
}

/// A list of partitions.
pub type Partitions = List<Partition>;

// The first vertex of the group of `v`.
fn first(groups: &[u32], v: usize) -> usize
    requires { v < length groups.now }
    ensures before { result ≤ v }
    ensures same { label groups.now result ≡ label groups.now v }
    ensures none { (u : ℕ) → u < result → label groups.now u ≢ label groups.now v }
{
    let mut w: usize = 0;
    'search: while groups[w] != groups[v] {
        w += 1;
    }
    w
}

// Writes the labels by the rule, and tells the greatest.
fn number(groups: &[u32], labels: &mut [u32]) -> u32
    requires full { length labels.old ≡ length groups.now }
    requires few { length groups.now ≤ 8192 }
    ensures partition { IsPartitionOf groups.now labels.new }
    ensures greatest { result ≡ greatest_label labels.new }
{
    let mut count: u32 = 0;
    'vertices: for v in 0..groups.len() {
        let w = first(groups, v);
        if w == v {
            count += 1;
            labels[v] = count;
        } else {
            labels[v] = labels[w];
        }
    }
    count
}
