// Layers, read off the whole least-cut function of a network.
ghost use Rattle.std.specs.Prelude.{◌≡◌, ◌++◌, ◌∷◌, [], ◌⊎◌, ◌<◌, suc, pos, IfOk, length, replicate, All};
ghost use Rattle.pf_model.specs.Answer.{IsFractionShape};
ghost use Rattle.pf_model.specs.Curve.{IsCurve};
ghost use Rattle.pf_closure.specs.Reduction.{closure_net};
ghost use Rattle.pf_dense.specs.Reduction.{dense_net};
ghost use Rattle.pf_layers.specs.Answer.{IsDenseAnswer, IsRatioAnswer, IsLayersAnswer};
ghost use Rattle.pf_layers.specs.Reading.{AreFalling, AreRising, IsEnded};
ghost use Rattle.pf_layers.specs.Right.{IsRightLayers};
ghost use Rattle.pf_layers.specs.Text.{layers_text};

use crate::layers::Layers;
use crate::numbering::{has_number, number_items, number_vertices};
use crate::problem::LayerProblem;
use pf_closure::{Items, closure_net};
use pf_curve::{CutFunction, Points, cuts_of};
use pf_dense::dense_net;
use pf_frame::{NoMemory, Numbers};
use pf_graph::Graph;
use pf_rat::Rat;
use std::alloc::Global;

// One more level.
fn add_level(levels: &mut Points, level: Rat) -> Result<(), NoMemory>
    ensures added { IfOk result (λ _. levels.new ≡ levels.old ++ level ∷ []) }
    ensures shape { IfOk result (λ _. IsFractionShape level) }
{
    let q = level.q();
    prove!(q >= 1);
    levels.push(level)?;
    Ok(())
}

// The points inside the interval, from the last one down.
fn falling_levels(alloc: Global, graph: &Graph, curve: &CutFunction) -> Result<Points, NoMemory>
    requires { 0 < length curve.now.cuts }
    ensures count { IfOk result (λ levels. suc (length levels) ≡ length curve.now.cuts) }
    ensures levels { IfOk result (AreFalling graph.now curve.now.points curve.now.cuts) }
    ensures shape { IfOk result (All IsFractionShape) }
{
    let points = curve.points();
    let count = points.len() - 1;
    let mut levels = Points::new(alloc);
    'points: for j in 1..count {
        add_level(&mut levels, points[count - j])?;
    }
    Ok(levels)
}

// The first so many points inside the interval.
fn rising_levels(
    alloc: Global,
    items: &Items,
    curve: &CutFunction,
    count: usize,
) -> Result<Points, NoMemory>
    requires { suc count ≡ length curve.now.cuts }
    ensures levels { IfOk result (λ levels. AreRising items.now curve.now.points levels count) }
    ensures shape { IfOk result (All IsFractionShape) }
{
    let points = curve.points();
    let mut levels = Points::new(alloc);
    'points: for j in 0..count {
        add_level(&mut levels, points[j + 1])?;
    }
    Ok(levels)
}

// Adds the level 0 where an element is in the last layer that there may be.
fn add_rest(levels: &mut Points, layers: &[i128], count: usize) -> Result<(), NoMemory>
    requires { All IsFractionShape levels.old }
    ensures ended { IfOk result (λ _. IsEnded layers.now count levels.old levels.new) }
    ensures shape { IfOk result (λ _. All IsFractionShape levels.new) }
{
    if !has_number(layers, count) {
        return Ok(());
    }
    add_level(levels, Rat::from_integer(0))?;
    Ok(())
}

// The layers of a graph, read off the least-cut function of its network.
fn read_dense(alloc: Global, graph: &Graph, curve: &CutFunction) -> Result<Layers, NoMemory>
    requires { IsCurve (dense_net graph.now) curve.now.points curve.now.cuts }
    ensures { IfOk result (IsDenseAnswer graph.now) }
{
    let count = graph.vertices() as usize;
    let cuts = curve.points().len() - 1;
    let mut layers = vec![in alloc; 1i128; count]?;
    number_vertices(graph, curve, &mut layers);
    let mut levels = falling_levels(alloc, graph, curve)?;
    add_rest(&mut levels, &layers, cuts)?;
    Ok(Layers::new(levels, Numbers::from_vec(layers)))
}

// The layers of items, read off the least-cut function of their network.
fn read_ratio(alloc: Global, items: &Items, curve: &CutFunction) -> Result<Layers, NoMemory>
    requires { IsCurve (closure_net items.now) curve.now.points curve.now.cuts }
    ensures { IfOk result (IsRatioAnswer items.now) }
{
    let width = items.items() as usize;
    let count = curve.points().len() - 2;
    let mut layers = vec![in alloc; 1i128; width]?;
    number_items(items, curve, count, &mut layers);
    let levels = rising_levels(alloc, items, curve, count)?;
    Ok(Layers::new(levels, Numbers::from_vec(layers)))
}

/// The layers of a graph: first the densest set, the greatest one, then the set that brings most for its cost beside it, and so on,
/// down to the vertices that bring nothing, at the level 0. `NoMemory` is the only other answer.
///
/// All of them are read off one least-cut function (Gallo, Grigoriadis and Tarjan 1989): layer 1 is what lies outside the cut before
/// its last breakpoint, and so on downwards.
pub fn dense_layers(alloc: Global, graph: &Graph) -> Result<Layers, NoMemory>
    ensures { IfOk result (IsDenseAnswer graph.now) }
{
    let net = dense_net(alloc, graph)?;
    let curve = cuts_of(alloc, &net)?;
    let layers = read_dense(alloc, graph, &curve)?;
    Ok(layers)
}

/// The layers of items: first the closure of the least ratio, the greatest one, then the items of the least ratio that make a closure
/// with it, and so on. `NoMemory` is the only other answer. They are what each cut of one least-cut function adds to the one before.
pub fn ratio_layers(alloc: Global, items: &Items) -> Result<Layers, NoMemory>
    ensures { IfOk result (IsRatioAnswer items.now) }
{
    let net = closure_net(alloc, items)?;
    let curve = cuts_of(alloc, &net)?;
    let layers = read_ratio(alloc, items, &curve)?;
    Ok(layers)
}

/// The layers of a problem of either kind. `NoMemory` is the only other answer.
pub fn layers_of(alloc: Global, problem: &LayerProblem) -> Result<Layers, NoMemory>
    ensures answer { IfOk result (IsLayersAnswer problem.now) }
    ensures text { IfOk result (λ answer. IsRightLayers problem.now (layers_text answer)) }
{
    match problem {
        LayerProblem::Graph(graph) => dense_layers(alloc, graph),
        LayerProblem::Closure(items) => ratio_layers(alloc, items),
    }
}
