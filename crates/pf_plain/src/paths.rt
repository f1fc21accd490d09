// A greatest flow by augmenting paths: a search level by level finds a path with fewest arcs, and as much as it takes is sent along it.
ghost use Rattle.std.specs.Prelude.{◌≡◌, ◌≢◌, ℕ, ◌+◌, ◌<◌, ◌≤◌, ℤ, ◌+ℤ◌, ◌-ℤ◌, ◌<ℤ◌, length, get_or, pos, slice_set, true, false, if◌then◌else◌, IfOk, OnErr};
ghost use Rattle.pf_model.specs.Cut.{has};
ghost use Rattle.pf_model.specs.Flow.{IsFlow, IsGreatest, value};
ghost use Rattle.pf_model.specs.Digraph.{network_of};
ghost use Rattle.pf_model.specs.Residual.{IsReach};
ghost use Rattle.pf_plain.specs.Network.{flow_network};
ghost use Rattle.pf_plain.specs.Tree.{IsTree, HasPlaces};
ghost use Rattle.pf_frame.specs.Numbers.{IsBounded};

use pf_frame::{Frame, NoMemory, visit};
use std::alloc::Global;

// What a search is of: a frame with a capacity for each arc, a source and a sink.
#[derive(Clone, Copy)]
struct Network<'a> {
    frame: &'a Frame,
    caps: &'a [i128],
    source: u32,
    sink: u32,
}

// How a search comes to a node: the arc, how much can be sent over the path to it, and how many arcs that path has.
#[derive(Clone, Copy)]
struct Branch {
    arc: u32,
    amount: i128,
    depth: u32,
}

// Writes down how the search comes to the node `w`, unless it was marked before.
fn write_branch(
    side: &[bool],
    parent: &mut [u32],
    bottleneck: &mut [i128],
    level: &mut [u32],
    w: u32,
    branch: Branch,
)
    requires node { w < length side.now }
    requires places { HasPlaces parent.old bottleneck.old level.old (length side.now) }
    ensures parent { parent.new ≡ (if has side.now w then parent.old else slice_set parent.old w branch.arc) }
    ensures bottleneck { bottleneck.new ≡ (if has side.now w then bottleneck.old else slice_set bottleneck.old w branch.amount) }
    ensures level { level.new ≡ (if has side.now w then level.old else slice_set level.old w branch.depth) }
{
    if !side[w as usize] {
        parent[w as usize] = branch.arc;
        bottleneck[w as usize] = branch.amount;
        level[w as usize] = branch.depth;
    }
}

// Looks for a path from the source to the sink along which more can be sent, level by level, and stops once it has marked the sink.
fn search(
    net: Network<'_>,
    flow: &[i128],
    side: &mut [bool],
    queue: &mut [u32],
    parent: &mut [u32],
    bottleneck: &mut [i128],
    level: &mut [u32],
) -> bool
    requires source { net.source < net.frame.now.nodes }
    requires sink { net.sink < net.frame.now.nodes }
    requires caps { IsBounded net.frame.now net.caps.now }
    requires flow { IsFlow (flow_network net) flow.now }
    requires side { length side.old ≡ net.frame.now.nodes }
    requires queue { length queue.old ≡ net.frame.now.nodes }
    requires places { HasPlaces parent.old bottleneck.old level.old net.frame.now.nodes }
    ensures reach { result ≡ false → IsReach (flow_network net.entry) flow.now side.new }
    ensures tree { IsTree (flow_network net.entry) flow.now side.new parent.new bottleneck.new level.new net.entry.frame.now.nodes }
    ensures found { result ≡ has side.new net.entry.sink }
{
    // Gives the proof that there are few nodes.
    let _ = net.frame.nodes();
    let s = net.source as usize;
    let t = net.sink as usize;
    side.fill(false);
    side[s] = true;
    queue[0] = net.source;
    bottleneck[s] = 1 << 104;
    level[s] = 0;
    let mut taken: usize = 0;
    let mut put: usize = 1;
    'search: while taken < put {
        if side[t] {
            return true;
        }
        let v = queue[taken];
        taken += 1;
        'outs: for i in net.frame.outs(v) {
            let left = net.caps[*i as usize] - flow[*i as usize];
            if 0 < left {
                let amount = left.min(bottleneck[v as usize]);
                let depth = level[v as usize] + 1;
                let w = net.frame.head(*i);
                let branch = Branch {
                    arc: *i,
                    amount,
                    depth,
                };
                write_branch(side, parent, bottleneck, level, w, branch);
                put = visit(side, queue, put, w);
            }
        }
        'ins: for i in net.frame.ins(v) {
            let left = flow[*i as usize];
            if 0 < left {
                let amount = left.min(bottleneck[v as usize]);
                let depth = level[v as usize] + 1;
                let w = net.frame.tail(*i);
                let branch = Branch {
                    arc: *i,
                    amount,
                    depth,
                };
                write_branch(side, parent, bottleneck, level, w, branch);
                put = visit(side, queue, put, w);
            }
        }
    }
    side[t]
}

// Augments the flow: sends as much along the path to the sink as its bottleneck takes.
fn augment(
    net: Network<'_>,
    side: &[bool],
    parent: &[u32],
    bottleneck: &[i128],
    level: &[u32],
    flow: &mut [i128],
)
    requires source { net.source < net.frame.now.nodes }
    requires sink { net.sink < net.frame.now.nodes }
    requires caps { IsBounded net.frame.now net.caps.now }
    requires flow { IsFlow (flow_network net) flow.old }
    requires tree { IsTree (flow_network net) flow.old side.now parent.now bottleneck.now level.now net.frame.now.nodes }
    requires side { length side.now ≡ net.frame.now.nodes }
    requires places { HasPlaces parent.now bottleneck.now level.now net.frame.now.nodes }
    requires found { has side.now net.sink ≡ true }
    requires apart { net.source ≢ net.sink }
    ensures flow { IsFlow (flow_network net.entry) flow.new }
    ensures more { value (flow_network net.entry) flow.old <ℤ value (flow_network net.entry) flow.new }
{
    let amount = bottleneck[net.sink as usize];
    let mut v = net.sink;
    'path: while v != net.source {
        let i = parent[v as usize];
        let before = net.frame.tail(i);
        if before != v {
            flow[i as usize] += amount;
            v = before;
        } else {
            flow[i as usize] -= amount;
            v = net.frame.head(i);
        }
    }
}

// Augments along paths, from the flow of zeros on, until no path is left.
fn improve(
    net: Network<'_>,
    flow: &mut [i128],
    side: &mut [bool],
    queue: &mut [u32],
    parent: &mut [u32],
    bottleneck: &mut [i128],
    level: &mut [u32],
)
    requires source { net.source < net.frame.now.nodes }
    requires sink { net.sink < net.frame.now.nodes }
    requires apart { net.source ≢ net.sink }
    requires caps { IsBounded net.frame.now net.caps.now }
    requires flow { length flow.old ≡ length net.frame.now.ends }
    requires side { length side.old ≡ net.frame.now.nodes }
    requires queue { length queue.old ≡ net.frame.now.nodes }
    requires places { HasPlaces parent.old bottleneck.old level.old net.frame.now.nodes }
    ensures { IsGreatest (flow_network net.entry) flow.new }
{
    // Gives the proof that the frame is a graph.
    let _ = net.frame.nodes();
    flow.fill(0);
    let mut found = search(net, flow, side, queue, parent, bottleneck, level);
    'paths: while found {
        augment(net, side, parent, bottleneck, level, flow);
        found = search(net, flow, side, queue, parent, bottleneck, level);
    }
}

/// Leaves in `flow` a flow from `s` to `t` whose value no flow exceeds, whatever stood there. `caps` and `flow` are indexed by arcs, in one unit.
/// All memory is taken first, so `NoMemory` leaves `flow` as it was.
pub fn greatest(
    alloc: Global,
    frame: &Frame,
    caps: &[i128],
    s: u32,
    t: u32,
    flow: &mut [i128],
) -> Result<(), NoMemory>
    requires source { s < frame.now.nodes }
    requires sink { t < frame.now.nodes }
    requires apart { s ≢ t }
    requires caps { IsBounded frame.now caps.now }
    requires flow { length flow.old ≡ length frame.now.ends }
    ensures greatest { IfOk result (λ _. IsGreatest (network_of frame.now caps.now s t) flow.new) }
    ensures unchanged { OnErr result (flow.new ≡ flow.old) }
{
    let nodes = frame.nodes() as usize;
    let mut side = vec![in alloc; false; nodes]?;
    let mut queue = vec![in alloc; 0u32; nodes]?;
    let mut parent = vec![in alloc; 0u32; nodes]?;
    let mut bottleneck = vec![in alloc; 0i128; nodes]?;
    let mut level = vec![in alloc; 0u32; nodes]?;
    let net = Network {
        frame,
        caps,
        source: s,
        sink: t,
    };
    improve(
        net,
        flow,
        &mut side,
        &mut queue,
        &mut parent,
        &mut bottleneck,
        &mut level,
    );
    Ok(())
}
