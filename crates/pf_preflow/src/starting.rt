// How an engine starts: the arcs out of the source are filled, and the source alone has a label.
ghost use Rattle.std.specs.Prelude.{◌≡◌, ◌≢◌, ℕ, ◌+◌, ◌<◌, ◌≤◌, ◌^◌, length, get_or, ℤ, pos, ◌≤ℤ◌, ◌<ℤ◌, slice_set};
ghost use Rattle.pf_model.specs.Cut.{IsProper, at_arc};
ghost use Rattle.pf_model.specs.Flow.{IsPreflow};
ghost use Rattle.pf_model.specs.Digraph.{network_of};
ghost use Rattle.pf_frame.specs.Numbers.{IsBounded};
ghost use Rattle.pf_preflow.specs.Network.{flow_network};
ghost use Rattle.pf_preflow.specs.Starting.{IsStarted, started, restarted, first_labels};

use crate::network::Network;
use pf_frame::Frame;

// Puts a capacity or nothing in one place.
fn put(numbers: &mut [i128], place: u32, amount: i128)
    requires place { place < length numbers.old }
    requires low { pos 0 ≤ℤ amount }
    requires high { amount <ℤ pos (2 ^ 104) }
    ensures { numbers.new ≡ slice_set numbers.old place amount }
{
    numbers[place as usize] = amount;
}

/// Labels the source with the number of nodes and all others with 0.
pub fn label_source(labels: &mut [u32], nodes: u32, s: u32)
    requires source { s < nodes }
    requires nodes { length labels.old ≡ nodes }
    ensures { labels.new ≡ first_labels nodes s }
{
    labels.fill(0);
    labels[s as usize] = nodes;
}

// Fills the arcs out of the source, and empties all others.
fn fill_source(frame: &Frame, caps: &[i128], s: u32, flow: &mut [i128])
    requires caps { IsBounded frame.now caps.now }
    requires flow { length flow.old ≡ length frame.now.ends }
    ensures { (t i : ℕ) → i < length frame.now.ends → at_arc flow.new i ≡ started (network_of frame.now caps.now s t) i }
{
    let _arcs = frame.arcs();
    'arcs: for i in 0..frame.arcs() {
        let amount = if frame.tail(i) == s {
            caps[i as usize]
        } else {
            0
        };
        put(flow, i, amount);
    }
}

// Fills the arcs out of the source, and empties those into it.
fn refill_source(frame: &Frame, caps: &[i128], s: u32, flow: &mut [i128])
    requires caps { IsBounded frame.now caps.now }
    requires flow { IsBounded frame.now flow.old }
    ensures { (t i : ℕ) → i < length frame.now.ends → at_arc flow.new i ≡ restarted (network_of frame.now caps.now s t) flow.old i }
{
    let _arcs = frame.arcs();
    'arcs: for i in 0..frame.arcs() {
        if frame.head(i) == s {
            put(flow, i, 0);
        } else if frame.tail(i) == s {
            put(flow, i, caps[i as usize]);
        }
    }
}

/// Starts with no flow but what leaves the source, whose arcs out are filled.
pub fn start(net: Network<'_>, flow: &mut [i128], labels: &mut [u32])
    requires proper { IsProper (flow_network net) }
    requires caps { IsBounded net.frame.now net.caps.now }
    requires flow { length flow.old ≡ length net.frame.now.ends }
    requires labels { length labels.old ≡ net.frame.now.nodes }
    ensures flow { (i : ℕ) → i < length net.entry.frame.now.ends → at_arc flow.new i ≡ started (flow_network net.entry) i }
    ensures labels { labels.new ≡ first_labels net.entry.frame.now.nodes net.entry.source }
    ensures started { IsStarted (flow_network net.entry) flow.new labels.new }
{
    fill_source(net.frame, net.caps, net.source, flow);
    label_source(labels, net.frame.nodes(), net.source);
}

/// Starts with a preflow, and fills the arcs out of the source.
pub fn restart(net: Network<'_>, flow: &mut [i128], labels: &mut [u32])
    requires proper { IsProper (flow_network net) }
    requires caps { IsBounded net.frame.now net.caps.now }
    requires flow { IsPreflow (flow_network net) flow.old }
    requires labels { length labels.old ≡ net.frame.now.nodes }
    ensures flow { (i : ℕ) → i < length net.entry.frame.now.ends → at_arc flow.new i ≡ restarted (flow_network net.entry) flow.old i }
    ensures labels { labels.new ≡ first_labels net.entry.frame.now.nodes net.entry.source }
    ensures started { IsStarted (flow_network net.entry) flow.new labels.new }
{
    refill_source(net.frame, net.caps, net.source, flow);
    label_source(labels, net.frame.nodes(), net.source);
}
