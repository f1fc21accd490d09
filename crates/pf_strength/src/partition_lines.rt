// Partitions, read back from lines of labels.
ghost use Rattle.std.specs.Prelude.{◌≡◌, ◌↔◌, ◌<◌, ◌≤◌, ◌++◌, ℕ, List, length, IsTrue, IfOk, IfErr};
ghost use Rattle.pf_text.specs.Spelling.{label_line};
ghost use Rattle.pf_lines.specs.Taking.{IsExcused, Takes};
ghost use Rattle.pf_graph.specs.Labels.{parts, IsPartition};
ghost use Rattle.pf_strength.specs.Text.{partition_text};
ghost use Rattle.pf_strength.specs.TextLaws.{partition_one};

use pf_format::Format;
use pf_graph::Partition;
use pf_io::{Failed, Printer, Sink, print_labels, print_row};
use pf_lines::{AnswerBad, Exact, take_count, take_labels};
use std::alloc::Global;

// Whether both hold the same labels.
fn are_same(first: &[u32], second: &[u32]) -> bool
    ensures { IsTrue result ↔ (first.now ≡ second.now) }
{
    first == second
}

// Whether the partition has so many parts.
fn has_parts(partition: &Partition, count: usize) -> bool
    ensures { IsTrue result ↔ (count ≡ parts partition.now) }
{
    partition.parts() as usize == count
}

// The partition that has these labels, if they keep the label rule.
fn partition_of(alloc: Global, labels: &[u32]) -> Result<Partition, AnswerBad>
    requires some { 0 < length labels.now }
    requires few { length labels.now ≤ 8192 }
    ensures same { IfOk result (λ partition. partition ≡ labels.now) }
    ensures rule { IfOk result (IsPartition (length labels.now)) }
    ensures refused { IfErr result (λ bad. IsPartition (length labels.now) labels.now → IsExcused bad) }
{
    let partition = Partition::of(alloc, labels)?;
    if !are_same(partition.labels(), labels) {
        return Err(AnswerBad::NotText);
    }
    Ok(partition)
}

/// A line of labels by the label rule, one per vertex, as `s L1 .. LN` and `s J L1 .. LN`.
pub fn take_partition(
    alloc: Global,
    word: &[u8],
    indices: &[usize],
    vertices: u32,
    text: &mut Exact<'_>,
) -> Result<Partition, AnswerBad>
    requires some { 0 < vertices }
    requires few { vertices ≤ 8192 }
    ensures taken { IfOk result (λ labels. text.old ≡ label_line word.now indices.now labels ++ text.new) }
    ensures shape { IfOk result (IsPartition vertices) }
    ensures found { (labels : List ℕ) (rest : List ℕ) → IsPartition vertices labels
        → text.old ≡ label_line word.now indices.now labels ++ rest → Takes labels rest result text.new }
{
    let labels = take_labels(alloc, word, indices, vertices as usize, vertices, text)?;
    let partition = partition_of(alloc, &labels)?;
    Ok(partition)
}

// The lines `k PARTS` and `s L1 .. LN` of a partition.
fn take_counted_partition(
    alloc: Global,
    vertices: u32,
    text: &mut Exact<'_>,
) -> Result<Partition, AnswerBad>
    requires some { 0 < vertices }
    requires few { vertices ≤ 8192 }
    ensures taken { IfOk result (λ labels. text.old ≡ partition_text labels ++ text.new) }
    ensures shape { IfOk result (IsPartition vertices) }
    ensures found { (labels : List ℕ) (rest : List ℕ) → IsPartition vertices labels
        → text.old ≡ partition_text labels ++ rest → Takes labels rest result text.new }
{
    let count = take_count(text, b"k", 1)?;
    let partition = take_partition(alloc, b"s", &[], vertices, text)?;
    if !has_parts(&partition, count) {
        return Err(AnswerBad::NotText);
    }
    Ok(partition)
}

/// The format of the lines `k PARTS` and `s L1 .. LN` of a partition.
#[derive(Clone, Copy)]
pub struct PartitionLines {
    pub vertices: u32,
    ghost some: { 0 < vertices },
    ghost few: { vertices ≤ 8192 },
}

impl Format for PartitionLines {
    type Value = Partition;

    ghost text = { λ f. partition_text };

    ghost shape = { λ f. IsPartition f.vertices };

    ghost one = { λ f. partition_one f.vertices f.few };

    fn print<K: Sink>(&self, out: &mut Printer<'_, K>, value: &Partition) -> Result<(), Failed> {
        print_row(out, b"k", &[value.parts() as usize], &[])?;
        print_labels(out, b"s", &[], value.labels())
    }

    fn take(&self, alloc: Global, source: &mut Exact<'_>) -> Result<Partition, AnswerBad> {
        take_counted_partition(alloc, self.vertices, source)
    }
}
