// Labels are raised: to distances in the residual graph (global relabelling), and over a gap where there is one.
ghost use Rattle.std.specs.Prelude.{◌≡◌, ◌≢◌, ℕ, ◌+◌, ◌*◌, ◌<◌, ◌≤◌, ◌^◌, length, slice_index_or, IsTrue, slice_set};
ghost use Rattle.pf_model.specs.Cut.{IsProper};
ghost use Rattle.pf_model.specs.Residual.{HasValidLabels};
ghost use Rattle.pf_preflow.specs.Engine.{AreLow};
ghost use Rattle.pf_preflow.specs.Network.{flow_network};
ghost use Rattle.pf_preflow.specs.Raising.{AreOverGap, IsOverGap, AreRaised, HasVisited, KeepsState};
ghost use Rattle.pf_preflow.specs.Room.{Serves};
ghost use Rattle.pf_preflow.specs.State.{IsSmall, IsState};

use crate::network::Network;
use crate::residual::{arcs_at, far_end_of, is_residual};
use crate::room::Room;
use pf_steps::Steps;
use std::sync::ledger::Ledger;

/// Relabels `v`: raises its label to one more than the least label, unless it is there.
pub fn relabel<L: Ledger>(labels: &mut [u32], v: u32, least: u32, steps: &mut Steps<L>)
    requires node { v < length labels.old }
    requires small { least < 2 ^ 20 }
    ensures up { slice_index_or labels.old v 0 < least + 1 → (labels.new ≡ slice_set labels.old v (least + 1)) × (steps.new ≡ steps.old + 1) }
    ensures stays { least + 1 ≤ slice_index_or labels.old v 0 → (labels.new ≡ labels.old) × (steps.new ≡ steps.old) }
{
    if labels[v as usize] < least + 1 {
        labels[v as usize] = least + 1;
        steps.tick();
    }
}

// Whether these labels are valid.
fn are_valid(net: Network<'_>, flow: &[i128], labels: &[u32]) -> bool
    requires source { net.source < net.frame.now.nodes }
    requires sink { net.sink < net.frame.now.nodes }
    requires caps { length net.caps.now ≡ length net.frame.now.ends }
    requires flow { length flow.now ≡ length net.frame.now.ends }
    requires labels { length labels.now ≡ net.frame.now.nodes }
    requires low { AreLow net.frame.now.nodes labels.now }
    ensures { IsTrue result → HasValidLabels (flow_network net.entry) flow.now labels.now }
{
    if labels[net.source as usize] != net.frame.nodes() || labels[net.sink as usize] != 0 {
        return false;
    }
    'arcs: for i in 0..net.frame.arcs() {
        let from = labels[net.frame.tail(i) as usize];
        let to = labels[net.frame.head(i) as usize];
        if to + 1 < from && flow[i as usize] < net.caps[i as usize] {
            return false;
        }
        if from + 1 < to && 0 < flow[i as usize] {
            return false;
        }
    }
    true
}

// Visits a node: gives it this distance and puts it in the queue, unless its distance is not greater.
fn visit(distances: &mut [u32], order: &mut [u32], put: usize, v: u32, distance: u32) -> usize
    requires node { v < length distances.old }
    requires low { distance < 2 * length distances.old }
    requires order { HasVisited (length distances.old) distances.old order.old put }
    ensures { HasVisited (length distances.old) distances.new order.new result }
{
    if distance < distances[v as usize] && put < order.len() {
        distances[v as usize] = distance;
        order[put] = v;
        put + 1
    } else {
        put
    }
}

// Visits the nodes from which a residual arc leads to `w`, forward or back. Distances take far less memory than flows, and decide
// for most arcs: so they are looked at first.
fn visit_neighbours(
    net: Network<'_>,
    flow: &[i128],
    distances: &mut [u32],
    order: &mut [u32],
    put: usize,
    w: u32,
    back: bool,
) -> usize
    requires node { w < net.frame.now.nodes }
    requires caps { length net.caps.now ≡ length net.frame.now.ends }
    requires flow { length flow.now ≡ length net.frame.now.ends }
    requires order { HasVisited net.frame.now.nodes distances.old order.old put }
    ensures { HasVisited net.entry.frame.now.nodes distances.new order.new result }
{
    let _nodes = net.frame.nodes();
    let distance = distances[w as usize] + 1;
    let mut put = put;
    'arcs: for i in arcs_at(net.frame, w, !back) {
        let v = far_end_of(net.frame, *i, !back);
        if distance < distances[v as usize] && is_residual(net.caps, flow, *i, back) {
            put = visit(distances, order, put, v, distance);
        }
    }
    put
}

// Gives each node from which the residual graph leads to the root its distance to it, counted from the first one on.
fn fill_distances(
    net: Network<'_>,
    flow: &[i128],
    distances: &mut [u32],
    order: &mut [u32],
    root: u32,
    first: u32,
)
    requires node { root < net.frame.now.nodes }
    requires low { first + 2 ≤ 2 * net.frame.now.nodes }
    requires caps { length net.caps.now ≡ length net.frame.now.ends }
    requires flow { length flow.now ≡ length net.frame.now.ends }
    requires room { length order.old ≡ net.frame.now.nodes }
    requires order { HasVisited net.frame.now.nodes distances.old order.old 0 }
    ensures { HasVisited net.entry.frame.now.nodes distances.new order.new 0 }
{
    let _nodes = net.frame.nodes();
    distances[root as usize] = first;
    order[0] = root;
    let mut taken: usize = 0;
    let mut put: usize = 1;
    'search: while taken < put {
        let w = order[taken];
        taken += 1;
        put = visit_neighbours(net, flow, distances, order, put, w, false);
        put = visit_neighbours(net, flow, distances, order, put, w, true);
    }
}

// Raises each label that is below the other one. A node whose label rises begins again with its first arc.
fn raise_labels<L: Ledger>(
    labels: &mut [u32],
    other: &[u32],
    current_arcs: &mut [u32],
    steps: &mut Steps<L>,
)
    requires same { length labels.old ≡ length other.now }
    requires few { length other.now ≤ 8192 }
    requires low { AreLow (length other.now) other.now }
    requires current_arcs { length current_arcs.old ≡ length other.now }
    ensures { AreRaised labels.old other.now labels.new (length other.now) steps.old steps.new }
{
    'nodes: for v in 0..other.len() as u32 {
        let label = other[v as usize];
        if labels[v as usize] < label {
            relabel(labels, v, label - 1, steps);
            current_arcs[v as usize] = 0;
        }
    }
}

// Counts the nodes of each label below the number of nodes.
fn count_labels(labels: &[u32], counts: &mut [u32]) {
    counts.fill(0);
    'nodes: for label in labels {
        let label = *label as usize;
        if label < counts.len() {
            counts[label] = counts[label].saturating_add(1);
        }
    }
}

/// Counts that one node was relabelled. Whether, as counted, it left a gap: no node has its earlier label.
pub fn leaves_gap(counts: &mut [u32], from: u32, to: u32) -> bool
    ensures { IsTrue result → slice_index_or counts.new from 0 ≡ 0 }
{
    let from = from as usize;
    let to = to as usize;
    if to < counts.len() {
        counts[to] = counts[to].saturating_add(1);
    }
    if from < counts.len() {
        counts[from] = counts[from].saturating_sub(1);
        counts[from] == 0
    } else {
        false
    }
}

// A label above a gap and below the number of nodes is raised above this number; another one stays.
fn label_over_gap(nodes: u32, gap: u32, label: u32) -> u32
    requires some { 1 < nodes }
    requires few { nodes ≤ 8192 }
    requires off { label ≢ gap }
    requires low { label + 2 ≤ 2 * nodes }
    ensures over { IsOverGap nodes gap label result }
    ensures low { result + 2 ≤ 2 * nodes }
{
    if label < gap || nodes <= label {
        label
    } else {
        (nodes + 1).min(2 * nodes - 2)
    }
}

// Where no node has the label `gap`, `other` becomes the labels with those above it raised. The result is whether none has it.
fn labels_over_gap(labels: &[u32], other: &mut [u32], gap: u32) -> bool
    requires nodes { length other.old ≡ length labels.now }
    requires some { 1 < length labels.now }
    requires few { length labels.now ≤ 8192 }
    requires low { AreLow (length labels.now) labels.now }
    ensures { IsTrue result → AreOverGap (length labels.now) gap labels.now other.new (length labels.now) }
{
    let nodes = labels.len() as u32;
    other.fill(0);
    'nodes: for v in 0..nodes {
        let label = labels[v as usize];
        if label == gap {
            return false;
        }
        other[v as usize] = label_over_gap(nodes, gap, label);
    }
    true
}

// Raises the labels to the room's distances where these are greater, and counts the nodes of each label anew.
fn raise_to_distances<L: Ledger>(labels: &mut [u32], room: &mut Room, steps: &mut Steps<L>)
    requires few { length labels.old ≤ 8192 }
    requires low { AreLow (length labels.old) room.old.distances.items }
    requires room { Serves room.old (length labels.old) }
    ensures raised { AreRaised labels.old room.old.distances.items labels.new (length labels.old) steps.old steps.new }
    ensures room { Serves room.new (length labels.old) }
    ensures excess { room.new.excess.items ≡ room.old.excess.items }
{
    raise_labels(
        labels,
        room.distances.as_slice(),
        room.current_arcs.as_mut_slice(),
        steps,
    );
    count_labels(labels, room.counts.as_mut_slice());
}

/// Gap relabelling: raises the labels above a gap over the number of nodes, since from there no residual walk leads to the sink.
pub fn gap_relabel<L: Ledger>(
    net: Network<'_>,
    flow: &[i128],
    labels: &mut [u32],
    room: &mut Room,
    gap: u32,
    steps: &mut Steps<L>,
)
    requires proper { IsProper (flow_network net) }
    requires small { IsSmall (flow_network net) }
    requires state { IsState (flow_network net) flow.now labels.old room.old.excess.items }
    requires room { Serves room.old net.frame.now.nodes }
    ensures state { KeepsState (flow_network net.entry) flow.now labels.old labels.new room.old.excess.items steps.old steps.new }
    ensures room { Serves room.new net.entry.frame.now.nodes }
    ensures excess { room.new.excess.items ≡ room.old.excess.items }
{
    if labels_over_gap(labels, room.distances.as_mut_slice(), gap) {
        raise_to_distances(labels, room, steps);
    }
}

// Gives the nodes their distances to the sink, and beyond the number of nodes those to the source. The result is whether these are
// valid labels.
fn find_distances(net: Network<'_>, flow: &[i128], distances: &mut [u32], order: &mut [u32]) -> bool
    requires proper { IsProper (flow_network net) }
    requires flow { length flow.now ≡ length net.frame.now.ends }
    requires distances { length distances.old ≡ net.frame.now.nodes }
    requires order { length order.old ≡ net.frame.now.nodes }
    ensures valid { IsTrue result → HasValidLabels (flow_network net.entry) flow.now distances.new }
    ensures low { AreLow net.entry.frame.now.nodes distances.new }
{
    let nodes = net.frame.nodes();
    distances.fill(2 * nodes - 2);
    order.fill(0);
    fill_distances(net, flow, distances, order, net.sink, 0);
    fill_distances(net, flow, distances, order, net.source, nodes);
    are_valid(net, flow, distances)
}

/// Global relabelling: raises the labels to the distances to the sink, and beyond the number of nodes to the source.
pub fn global_relabel<L: Ledger>(
    net: Network<'_>,
    flow: &[i128],
    labels: &mut [u32],
    room: &mut Room,
    steps: &mut Steps<L>,
)
    requires proper { IsProper (flow_network net) }
    requires small { IsSmall (flow_network net) }
    requires state { IsState (flow_network net) flow.now labels.old room.old.excess.items }
    requires room { Serves room.old net.frame.now.nodes }
    ensures state { KeepsState (flow_network net.entry) flow.now labels.old labels.new room.old.excess.items steps.old steps.new }
    ensures room { Serves room.new net.entry.frame.now.nodes }
    ensures excess { room.new.excess.items ≡ room.old.excess.items }
{
    let distances = room.distances.as_mut_slice();
    let order = room.order.as_mut_slice();
    if find_distances(net, flow, distances, order) {
        raise_to_distances(labels, room, steps);
    }
}
