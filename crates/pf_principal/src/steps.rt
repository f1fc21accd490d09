// The lines of levels and partitions, read back.
ghost use Rattle.std.specs.Prelude as prelude;
ghost use Rattle.std.specs.Prelude.{◌≡◌, ◌↔◌, ◌<◌, ◌≤◌, ◌++◌, ◌∷◌, ℕ, length, map, All, IsTrue, IfOk, IfErr};
ghost use Rattle.pf_lines.specs.Taking.{IsExcused, Takes};
ghost use Rattle.pf_graph.specs.Labels.{IsPartition};
ghost use Rattle.pf_principal.specs.Text.{step_text, steps_text};
ghost use Rattle.pf_principal.specs.Reading.{IsStepShape, HasValue, HaveValues, before_step};
ghost use Rattle.pf_principal.specs.declared.steps.Step.{Step};

use crate::family::line_of;
use pf_curve::Points;
use pf_frame::List;
use pf_graph::{Graph, Partition, Partitions};
use pf_lines::{AnswerBad, Exact, Valued, take_valued_row};
use pf_strength::take_partition;
use std::alloc::Global;

/// A level with the value that is written of the partition before it, and the partition after it.
#[derive(Drop)]
pub struct Step {
    level: Valued,
    partition: Partition,
}

/// A list of steps.
pub type Steps = List<Step>;

// The level `j`, and the partition after it.
fn take_step(
    alloc: Global,
    vertices: u32,
    j: usize,
    text: &mut Exact<'_>,
) -> Result<Step, AnswerBad>
    requires some { 0 < vertices }
    requires few { vertices ≤ 8192 }
    ensures taken { IfOk result (λ step. text.old ≡ step_text j step ++ text.new) }
    ensures shape { IfOk result (IsStepShape vertices) }
    ensures found { (step : Step) (rest : prelude.List ℕ) → IsStepShape vertices step → text.old ≡ step_text j step ++ rest → Takes step rest result text.new }
{
    let level = take_valued_row(text, b"b", &[j])?;
    let partition = take_partition(alloc, b"s", &[j], vertices, text)?;
    Ok(Step { level, partition })
}

/// So many levels, each with the partition after it.
pub fn take_steps(
    alloc: Global,
    vertices: u32,
    count: usize,
    text: &mut Exact<'_>,
) -> Result<Steps, AnswerBad>
    requires some { 0 < vertices }
    requires few { vertices ≤ 8192 }
    ensures taken { IfOk result (λ steps. text.old ≡ steps_text 0 steps ++ text.new) }
    ensures count { IfOk result (λ steps. length steps ≡ count) }
    ensures shape { IfOk result (All (IsStepShape vertices)) }
    ensures found { (steps : prelude.List Step) (rest : prelude.List ℕ) → length steps ≡ count → All (IsStepShape vertices) steps
        → text.old ≡ steps_text 0 steps ++ rest → Takes steps rest result text.new }
{
    let mut steps = Steps::new(alloc);
    'steps: for j in 0..count {
        let step = take_step(alloc, vertices, j + 1, text)?;
        steps.push(step)?;
    }
    Ok(steps)
}

// The partition before a step.
fn before<'a>(first: &'a Partition, steps: &'a [Step], i: usize) -> &'a Partition
    requires { i ≤ length steps.now }
    ensures { result.now ≡ before_step first.now steps.now i }
{
    if i == 0 {
        first
    } else {
        &steps[i - 1].partition
    }
}

// Whether the value of a step is that of the partition before it.
fn has_value(graph: &Graph, before: &Partition, step: &Step) -> bool
    requires { length before.now ≡ graph.now.nodes }
    ensures { IsTrue result ↔ HasValue graph.now before.now step.now }
{
    let value = step.level.value;
    line_of(graph, before).at(&step.level.at) == value
}

/// Whether the value of each step is that of the partition before it.
pub fn have_values(graph: &Graph, first: &Partition, steps: &[Step]) -> bool
    requires first { length first.now ≡ graph.now.nodes }
    requires shape { All (IsStepShape graph.now.nodes) steps.now }
    ensures { IsTrue result ↔ HaveValues graph.now first.now steps.now }
{
    'steps: for i in 0..steps.len() {
        if !has_value(graph, before(first, steps, i), &steps[i]) {
            return false;
        }
    }
    true
}

/// The levels of the steps.
pub fn step_levels(alloc: Global, steps: &[Step]) -> Result<Points, AnswerBad>
    ensures levels { IfOk result (λ levels. levels ≡ map (λ s. s.level.at) steps.now) }
    ensures excused { IfErr result IsExcused }
{
    let mut levels = Points::new(alloc);
    'steps: for step in steps {
        levels.push(step.level.at)?;
    }
    Ok(levels)
}

// The partition of a step.
fn partition_of(step: Step) -> Partition
    ensures { result ≡ step.partition }
{
    let Step {
        level: _,
        partition,
    } = step;
    partition
}

/// The first partition, and those of the steps.
pub fn step_partitions(
    alloc: Global,
    first: Partition,
    steps: Steps,
) -> Result<Partitions, AnswerBad>
    ensures partitions { IfOk result (λ partitions. partitions ≡ first ∷ map (λ s. s.partition) steps) }
    ensures excused { IfErr result IsExcused }
{
    let mut partitions = Partitions::new(alloc);
    partitions.push(first)?;
    'steps: for step in steps.into_vec() {
        partitions.push(partition_of(step))?;
    }
    Ok(partitions)
}
