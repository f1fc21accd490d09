// Reading of the text of a curve.
ghost use Rattle.std.specs.Prelude.{◌≡◌, ◌≢◌, ◌↔◌, ◌++◌, ℕ, List, length, All, IfOk, IsTrue, Err};
ghost use Rattle.pf_model.specs.Answer.{Curve, IsCurveShape, IsFlowShape};
ghost use Rattle.pf_par.specs.Answers.{value_of, curve_text};
ghost use Rattle.pf_par.specs.Outline.{values_of};
ghost use Rattle.pf_lines.specs.Taking.{Takes};
ghost use Rattle.pf_par.specs.CurveParts.{IsPartsShape, parts_text};
ghost use Rattle.pf_par.specs.declared.reading_curve.Parts.{Parts};

use crate::flow_lines::take_flows;
use crate::outline::{Outline, take_outline};
use pf_curve::Curve;
use pf_frame::{FlowTable, value};
use pf_lines::{AnswerBad, Exact, take_end, take_word};
use pf_net::Net;
use std::alloc::Global;

// What a curve's text says, whether or not the values that are written are those of the flows.
#[derive(Drop)]
struct Parts {
    outline: Outline,
    flows: FlowTable,
}

// The first word, the outline, a flow for each point, and the last word.
fn take_parts(alloc: Global, net: &Net, text: &mut Exact<'_>) -> Result<Parts, AnswerBad>
    ensures taken { IfOk result (λ parts. text.old ≡ parts_text net.now parts ++ text.new) }
    ensures shape { IfOk result (IsPartsShape net.now) }
    ensures found { (parts : Parts) (rest : List ℕ) → IsPartsShape net.now parts → text.old ≡ parts_text net.now parts ++ rest → Takes parts rest result text.new }
{
    take_word(text, b"o curve\n")?;
    let outline = take_outline(alloc, net, text)?;
    let count = outline.points.get().len();
    let flows = take_flows(alloc, net, count, text)?;
    take_word(text, b"end\n")?;
    Ok(Parts { outline, flows })
}

// Whether this is the value of the flow.
fn is_value(net: &Net, flow: &[i128], written: &i128) -> bool
    requires { IsFlowShape net.now flow.now }
    ensures { IsTrue result ↔ (value_of net.now flow.now ≡ written.now) }
{
    let written = *written;
    value(net.frame(), net.source(), flow) == written
}

// Whether the values that are written are those of the flows.
fn values_agree(net: &Net, flows: &FlowTable, values: &[i128]) -> bool
    requires shape { All (IsFlowShape net.now) flows.now }
    requires count { length values.now ≡ length flows.now }
    ensures { IsTrue result ↔ (values_of net.now flows.now ≡ values.now) }
{
    'flows: for j in 0..values.len() {
        if !is_value(net, flows.row(j), &values[j]) {
            return false;
        }
    }
    true
}

/// The curve of the right shape for the network whose text these bytes are: there is at most one. Numbers and words have
/// one spelling there, and no line is passed over. `NotText` comes exactly where there is no such curve.
pub fn read_curve(alloc: Global, net: &Net, text: &[u8]) -> Result<Curve, AnswerBad>
    ensures shape { IfOk result (IsCurveShape net.now) }
    ensures text { IfOk result (λ c. text.now ≡ curve_text net.now c) }
    ensures refused { result ≡ Err AnswerBad.NotText → (c : Curve) → IsCurveShape net.now c → text.now ≢ curve_text net.now c }
{
    // Gives the proof that the network is within its limits.
    let _ = net.frame();
    let mut rest = Exact::new(text);
    let Parts { outline, flows } = take_parts(alloc, net, &mut rest)?;
    take_end(&rest)?;
    if !values_agree(net, &flows, outline.values.get()) {
        return Err(AnswerBad::NotText);
    }
    Ok(Curve::new(outline.points, outline.cuts, flows))
}
