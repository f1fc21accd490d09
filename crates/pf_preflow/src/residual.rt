// Residual arcs, along which a node can push: forward along an arc with capacity left, or back along one that carries flow.
ghost use Rattle.std.specs.Prelude.{◌≡◌, ◌≢◌, ℕ, ◌+◌, ◌*◌, ◌<◌, ◌≤◌, ◌<ℤ◌, pos, length, slice_index_or, IsTrue, ◌↔◌, if◌then◌else◌, MatchOption, ◌⊎◌};
ghost use Rattle.pf_model.specs.Digraph.{arcs_out, arcs_in};
ghost use Rattle.pf_preflow.specs.Engine.{AreLow};
ghost use Rattle.pf_preflow.specs.Network.{flow_network};
ghost use Rattle.pf_preflow.specs.Residual.{far_end, residual_capacity, IsAdmissible, IsLowest, HasNoneLower, IsLeast};

use crate::network::Network;
use pf_frame::Frame;

/// A residual arc to the node `to`: forward along an arc of the network, or back. Its place among the residual arcs of a node
/// counts the arcs that leave the node and then those that enter it.
#[derive(Clone, Copy)]
pub struct ResidualArc {
    pub arc: u32,
    pub to: u32,
    pub back: bool,
    pub place: u32,
}

/// A residual arc to a node with the least label, and this label.
#[derive(Clone, Copy)]
pub struct Lowest {
    pub label: u32,
    pub along: ResidualArc,
}

/// The arcs along which residual arcs leave `v`: forward those out of it, back those into it.
pub fn arcs_at(frame: &Frame, v: u32, back: bool) -> &[u32]
    requires { v < frame.now.nodes }
    ensures { result.now ≡ (if back then arcs_in frame.now v else arcs_out frame.now v) }
{
    if back { frame.ins(v) } else { frame.outs(v) }
}

/// The node to which arc `i` leads, forward or back.
pub fn far_end_of(frame: &Frame, i: u32, back: bool) -> u32
    requires { i < length frame.now.ends }
    ensures value { result ≡ far_end frame.now i back }
    ensures node { result < frame.now.nodes }
{
    if back { frame.tail(i) } else { frame.head(i) }
}

// How many of a node's residual arcs have a place before those of one direction.
fn places_before(frame: &Frame, v: u32, back: bool) -> usize
    requires { v < frame.now.nodes }
    ensures { result ≡ (if back then length (arcs_out frame.now v) else 0) }
{
    if back { frame.outs(v).len() } else { 0 }
}

/// Whether more can be pushed along arc `i`, forward or back.
pub fn is_residual(caps: &[i128], flow: &[i128], i: u32, back: bool) -> bool
    requires caps { i < length caps.now }
    requires flow { i < length flow.now }
    ensures { IsTrue result ↔ (pos 0 <ℤ residual_capacity caps.now flow.now i back) }
{
    let i = i as usize;
    if back { 0 < flow[i] } else { flow[i] < caps[i] }
}

// The first admissible arc of `v` in one direction that stands at this place or after it. Labels take far less memory than
// flows, and decide for most arcs: so they are looked at first.
fn admissible_in(
    net: Network<'_>,
    flow: &[i128],
    labels: &[u32],
    v: u32,
    back: bool,
    place: u32,
) -> Option<ResidualArc>
    requires node { v < net.frame.now.nodes }
    requires caps { length net.caps.now ≡ length net.frame.now.ends }
    requires flow { length flow.now ≡ length net.frame.now.ends }
    requires labels { length labels.now ≡ net.frame.now.nodes }
    requires low { AreLow net.frame.now.nodes labels.now }
    ensures { MatchOption result (Unit {0}) (λ arc. IsAdmissible (flow_network net.entry) flow.now labels.now v arc) }
{
    let _few_nodes = net.frame.nodes();
    let _few_arcs = net.frame.arcs();
    let arcs = arcs_at(net.frame, v, back);
    let before = places_before(net.frame, v, back);
    'arcs: for k in (place as usize).saturating_sub(before)..arcs.len() {
        let i = arcs[k];
        let w = far_end_of(net.frame, i, back);
        if labels[w as usize] + 1 == labels[v as usize] && is_residual(net.caps, flow, i, back) {
            return Some(ResidualArc {
                arc: i,
                to: w,
                back,
                place: (before + k) as u32,
            });
        }
    }
    None
}

/// The first admissible arc of `v` that stands at this place or after it.
pub fn next_admissible(
    net: Network<'_>,
    flow: &[i128],
    labels: &[u32],
    v: u32,
    place: u32,
) -> Option<ResidualArc>
    requires node { v < net.frame.now.nodes }
    requires caps { length net.caps.now ≡ length net.frame.now.ends }
    requires flow { length flow.now ≡ length net.frame.now.ends }
    requires labels { length labels.now ≡ net.frame.now.nodes }
    requires low { AreLow net.frame.now.nodes labels.now }
    ensures { MatchOption result (Unit {0}) (λ arc. IsAdmissible (flow_network net.entry) flow.now labels.now v arc) }
{
    match admissible_in(net, flow, labels, v, false, place) {
        Some(arc) => Some(arc),
        None => admissible_in(net, flow, labels, v, true, place),
    }
}

// The least label that a scan of arcs has met, and the place in the scan of the arc that leads to it.
#[derive(Clone, Copy)]
struct Best {
    label: u32,
    place: usize,
}

// The better of the best so far and the arc at a place, which leads to `w`.
fn lower(labels: &[u32], v: u32, best: Best, w: u32, place: usize) -> Best
    requires { w < length labels.now }
    ensures most { result.label ≤ best.label }
    ensures least { w ≢ v → result.label ≤ slice_index_or labels.now w 0 }
    ensures either { (result ≡ best) ⊎ ((w ≢ v) × (result ≡ record { label = slice_index_or labels.now w 0; place = place })) }
{
    let label = labels[w as usize];
    if w != v && label < best.label {
        Best { label, place }
    } else {
        best
    }
}

// The better of an arc and the lowest of the residual arcs of `v` in one direction.
fn lowest_in(
    net: Network<'_>,
    flow: &[i128],
    labels: &[u32],
    v: u32,
    back: bool,
    first: Lowest,
) -> Lowest
    requires node { v < net.frame.now.nodes }
    requires caps { length net.caps.now ≡ length net.frame.now.ends }
    requires flow { length flow.now ≡ length net.frame.now.ends }
    requires labels { length labels.now ≡ net.frame.now.nodes }
    requires first { first.label < 2 * net.frame.now.nodes → IsLowest (flow_network net) flow.now labels.now v first }
    ensures most { result.label ≤ first.label }
    ensures none_lower { HasNoneLower (flow_network net.entry) flow.now labels.now v back result.label }
    ensures found { result.label < 2 * net.entry.frame.now.nodes → IsLowest (flow_network net.entry) flow.now labels.now v result }
{
    let _few_arcs = net.frame.arcs();
    let arcs = arcs_at(net.frame, v, back);
    let before = places_before(net.frame, v, back);
    let count = arcs.len();
    let mut best = Best {
        label: first.label,
        place: count,
    };
    'arcs: for k in 0..count {
        let i = arcs[k];
        if is_residual(net.caps, flow, i, back) {
            let w = far_end_of(net.frame, i, back);
            best = lower(labels, v, best, w, k);
        }
    }
    let place = best.place;
    if count <= place {
        return first;
    }
    let i = arcs[place];
    Lowest {
        label: best.label,
        along: ResidualArc {
            arc: i,
            to: far_end_of(net.frame, i, back),
            back,
            place: (before + place) as u32,
        },
    }
}

/// A residual arc from `v` to another node with the least label of all such.
pub fn lowest_neighbour(net: Network<'_>, flow: &[i128], labels: &[u32], v: u32) -> Lowest
    requires node { v < net.frame.now.nodes }
    requires caps { length net.caps.now ≡ length net.frame.now.ends }
    requires flow { length flow.now ≡ length net.frame.now.ends }
    requires labels { length labels.now ≡ net.frame.now.nodes }
    ensures none_lower { IsLeast (flow_network net.entry) flow.now labels.now v result.label }
    ensures found { result.label < 2 * net.entry.frame.now.nodes → IsLowest (flow_network net.entry) flow.now labels.now v result }
{
    let none = Lowest {
        label: 2 * net.frame.nodes(),
        along: ResidualArc {
            arc: 0,
            to: v,
            back: false,
            place: 0,
        },
    };
    let forward = lowest_in(net, flow, labels, v, false, none);
    lowest_in(net, flow, labels, v, true, forward)
}
