// The numbers of layers, put cut by cut.
ghost use Rattle.std.specs.Prelude.{◌≡◌, ◌↔◌, ◌<◌, IsTrue, suc, not, pos, length, replicate, slice_set, if◌then◌else◌};
ghost use Rattle.pf_model.specs.Cut.{has};
ghost use Rattle.pf_model.specs.Curve.{IsCurve};
ghost use Rattle.pf_dense.specs.Reduction.{dense_net};
ghost use Rattle.pf_closure.specs.Reduction.{closure_net};
ghost use Rattle.pf_layers.specs.Reading.{IsNumbered, IsPut, HasNumber, outside_cut, items_in};

use pf_closure::Items;
use pf_curve::CutFunction;
use pf_graph::Graph;

// Puts the number in its place where the test says so.
fn put(test: bool, number: usize, layers: &mut [i128], v: usize)
    requires { v < length layers.old }
    ensures { layers.new ≡ (if test then slice_set layers.old v (pos number) else layers.old) }
{
    if test {
        layers[v] = number as i128;
    }
}

// Puts the number beside each element whose node the side holds.
fn put_held(side: &[bool], number: usize, layers: &mut [i128])
    requires { length layers.old < length side.now }
    ensures { IsPut (λ v. has side.now (suc v)) (pos number) layers.old layers.new }
{
    'elements: for v in 0..layers.len() {
        put(side[v + 1], number, layers, v);
    }
}

// Puts the number beside each element whose node the side does not hold.
fn put_left(side: &[bool], number: usize, layers: &mut [i128])
    requires { length layers.old < length side.now }
    ensures { IsPut (λ v. not (has side.now (suc v))) (pos number) layers.old layers.new }
{
    'elements: for v in 0..layers.len() {
        put(!side[v + 1], number, layers, v);
    }
}

// Writes the numbers of the vertices, of which each has 1 at first: a vertex that the last so many cuts do not hold, and no other, is
// numbered higher than so many.
pub fn number_vertices(graph: &Graph, curve: &CutFunction, layers: &mut [i128])
    requires curve { IsCurve (dense_net graph.now) curve.now.points curve.now.cuts }
    requires ones { layers.old ≡ replicate graph.now.nodes (pos 1) }
    ensures { IsNumbered graph.now.nodes (outside_cut graph.now curve.now.cuts) layers.new (length curve.now.cuts) }
{
    // Gives the proof the limits of the graph.
    let _ = graph.vertices();
    let count = curve.points().len() - 1;
    'cuts: for j in 1..count {
        put_held(curve.cut(count - 1 - j), j + 1, layers);
    }
}

// Writes the numbers of the items, of which each has 1 at first: an item that the first so many cuts do not hold, and no other, is
// numbered so high.
pub fn number_items(items: &Items, curve: &CutFunction, count: usize, layers: &mut [i128])
    requires curve { IsCurve (closure_net items.now) curve.now.points curve.now.cuts }
    requires count { suc count ≡ length curve.now.cuts }
    requires ones { layers.old ≡ replicate (length items.now.costs) (pos 1) }
    ensures { IsNumbered (length items.now.costs) (items_in items.now curve.now.cuts) layers.new count }
{
    // Gives the proof the limits of the items.
    let _ = items.items();
    'cuts: for j in 1..count {
        put_left(curve.cut(j), j + 1, layers);
    }
}

// Whether an element has this number.
pub fn has_number(layers: &[i128], number: usize) -> bool
    ensures { IsTrue result ↔ HasNumber layers.now number }
{
    'elements: for v in 0..layers.len() {
        if layers[v] == number as i128 {
            return true;
        }
    }
    false
}
