// `generate SEED`: the summary of the network that a seed draws. No text is read.
ghost use Rattle.std.specs.Prelude.{OnOk};
ghost use Rattle.pf_io.specs.Faults.{HasCause};
ghost use Rattle.pf_io.specs.Told.{IsFrontOf, after_told};
ghost use Rattle.pf_gen.specs.Right.{summary_text};
ghost use Rattle.pf_top.specs.Running.{TookWhole, IsDrawn};

use crate::status::Status;
use pf_gen::{Summary, summary_of, write_summary};
use pf_io::{Failed, Printer, Sink};
use std::alloc::Global;

/// How many nodes and arcs are drawn.
const NODES: u32 = 300;

const ARCS: u32 = 3000;

// Hands the text of the summary to the sink.
fn hand_summary<O: Sink>(summary: &Summary, out: &mut O) -> Result<(), Failed>
    ensures whole { OnOk result (TookWhole O.Sink out.old out.new (summary_text summary.now)) }
    ensures grows { IsFrontOf (O.taken out.old) (O.taken out.new) }
    ensures front { IsFrontOf (O.taken out.new) (after_told (O.taken out.old) (summary_text summary.now)) }
    ensures cause { HasCause (O.faults out.old) (O.faults out.new) result }
{
    let mut printer = Printer::new(out);
    write_summary(&mut printer, summary)?;
    printer.finish()
}

/// The summary of the network of 300 nodes and 3000 arcs that the seed draws. It is found whole before its first byte goes
/// out.
pub fn generate<O: Sink>(alloc: Global, seed: u64, out: &mut O) -> Status
    ensures { IsDrawn O.Sink out.old out.new seed result }
{
    let summary = match summary_of(alloc, seed, NODES, ARCS) {
        Ok(summary) => summary,
        Err(_) => return Status::NoMemory,
    };
    match hand_summary(&summary, out) {
        Ok(()) => Status::Done,
        Err(_) => Status::WriteFault,
    }
}
