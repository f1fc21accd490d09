// The lines of flows of a curve's text.
ghost use Rattle.std.specs.Prelude.{◌≡◌, ◌++◌, ℕ, ℤ, List, length, All, IfOk};
ghost use Rattle.pf_model.specs.Answer.{IsFlowShape};
ghost use Rattle.pf_par.specs.Answers.{flows_text};
ghost use Rattle.pf_lines.specs.Taking.{Takes};

use pf_frame::FlowTable;
use pf_lines::{AnswerBad, Exact, take_flow_rows};
use pf_net::Net;
use std::alloc::Global;

/// So many flows, numbered from 0.
pub fn take_flows(
    alloc: Global,
    net: &Net,
    count: usize,
    text: &mut Exact<'_>,
) -> Result<FlowTable, AnswerBad>
    ensures taken { IfOk result (λ flows. text.old ≡ flows_text 0 flows ++ text.new) }
    ensures count { IfOk result (λ flows. length flows ≡ count) }
    ensures shape { IfOk result (All (IsFlowShape net.now)) }
    ensures found { (flows : List (List ℤ)) (rest : List ℕ) → length flows ≡ count → All (IsFlowShape net.now) flows
        → text.old ≡ flows_text 0 flows ++ rest → Takes flows rest result text.new }
{
    let width = net.frame().arcs() as usize;
    take_flow_rows(alloc, b"f", 0, width, count, text)
}
