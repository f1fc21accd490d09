// A greatest flow for a caller that counts no steps.
ghost use Rattle.std.specs.Prelude.{◌≡◌, ◌≢◌, ◌<◌, length, IfOk, OnErr};
ghost use Rattle.pf_model.specs.Flow.{IsPreflow, IsGreatest};
ghost use Rattle.pf_model.specs.Residual.{HasValidLabels};
ghost use Rattle.pf_model.specs.Digraph.{network_of};
ghost use Rattle.pf_frame.specs.Numbers.{IsBounded};
ghost use Rattle.pf_preflow.specs.Engine.{IsFor, KeepsEnds, AreLow, network};

use crate::engine::Engine;
use pf_frame::{Frame, NoMemory};
use pf_steps::Steps;
use std::alloc::Global;
use std::marker::Brand;
use std::sync::ledger::{Blank, Ledger};

// Runs the engine from a preflow for which its labels are valid, with a counter that nobody reads.
fn run_uncounted<L: Ledger>(
    engine: &mut Engine,
    frame: &Frame,
    caps: &[i128],
    flow: &mut [i128],
    blank: Blank,
)
    requires name { blank.name ≡ L.name }
    requires parts { blank.parts ≡ L.parts }
    requires some { 0 < blank.parts }
    requires frame { IsFor engine.old frame.now }
    requires caps { IsBounded frame.now caps.now }
    requires flow { IsPreflow (network engine.old frame.now caps.now) flow.old }
    requires labels { HasValidLabels (network engine.old frame.now caps.now) flow.old engine.old.labels }
    ensures greatest { IsGreatest (network engine.old frame.now caps.now) flow.new }
    ensures labels { HasValidLabels (network engine.new frame.now caps.now) flow.new engine.new.labels }
    ensures low { AreLow engine.new.nodes engine.new.labels }
    ensures ends { KeepsEnds engine.old engine.new }
{
    let (book, share) = blank.open::<L>();
    let mut steps = Steps::new(book, share);
    engine.run(frame, caps, flow, &mut steps);
}

impl Engine {
    /// Leaves in `flow` a flow from the engine's source to its sink whose value no flow exceeds, whatever stood there: `start`, and
    /// then `run` with a counter that nobody reads. `caps` and `flow` are indexed by arcs, in one unit. It takes no memory.
    pub fn find(&mut self, frame: &Frame, caps: &[i128], flow: &mut [i128])
        requires frame { IsFor self.old frame.now }
        requires caps { IsBounded frame.now caps.now }
        requires flow { length flow.old ≡ length frame.now.ends }
        ensures greatest { IsGreatest (network self.old frame.now caps.now) flow.new }
        ensures labels { HasValidLabels (network self.new frame.now caps.now) flow.new self.new.labels }
        ensures low { AreLow self.new.nodes self.new.labels }
        ensures ends { KeepsEnds self.old self.new }
    {
        self.start(frame, caps, flow);
        run_uncounted::<Brand>(self, frame, caps, flow, Blank::new(1));
    }

    /// The same from a preflow within the capacities, which may be near to a greatest flow: `restart`, and then `run` with a counter
    /// that nobody reads. `caps` and `flow` are indexed by arcs, in one unit. It takes no memory.
    pub fn find_from(&mut self, frame: &Frame, caps: &[i128], flow: &mut [i128])
        requires frame { IsFor self.old frame.now }
        requires caps { IsBounded frame.now caps.now }
        requires flow { IsPreflow (network self.old frame.now caps.now) flow.old }
        ensures greatest { IsGreatest (network self.old frame.now caps.now) flow.new }
        ensures labels { HasValidLabels (network self.new frame.now caps.now) flow.new self.new.labels }
        ensures low { AreLow self.new.nodes self.new.labels }
        ensures ends { KeepsEnds self.old self.new }
    {
        self.restart(frame, caps, flow);
        run_uncounted::<Brand>(self, frame, caps, flow, Blank::new(1));
    }
}

/// Leaves in `flow` a flow from `s` to `t` whose value no flow exceeds, whatever stood there. `caps` and `flow` are indexed by
/// arcs, in one unit. All memory is taken first, so `NoMemory` leaves `flow` as it was.
pub fn greatest(
    alloc: Global,
    frame: &Frame,
    caps: &[i128],
    s: u32,
    t: u32,
    flow: &mut [i128],
) -> Result<(), NoMemory>
    requires source { s < frame.now.nodes }
    requires sink { t < frame.now.nodes }
    requires apart { s ≢ t }
    requires caps { IsBounded frame.now caps.now }
    requires flow { length flow.old ≡ length frame.now.ends }
    ensures greatest { IfOk result (λ _. IsGreatest (network_of frame.now caps.now s t) flow.new) }
    ensures unchanged { OnErr result (flow.new ≡ flow.old) }
{
    let mut engine = Engine::make(alloc, frame, s, t)?;
    engine.find(frame, caps, flow);
    Ok(())
}
