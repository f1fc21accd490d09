// The lines of points and cuts of a curve's text.
ghost use Rattle.std.specs.Prelude.{◌≡◌, ◌↔◌, ◌++◌, ◌<◌, ℕ, Bool, List, [], ◌∷◌, length, IsTrue, IfOk, IfErr};
ghost use Rattle.pf_model.specs.Network.{IsNetworkCut, cut_a, cut_b};
ghost use Rattle.pf_text.specs.Spelling.{rest_of_line};
ghost use Rattle.pf_par.specs.Answers.{cut_fields};
ghost use Rattle.pf_par.specs.Outline.{IsOutlineShape, IsSegmentShape, cut_line, outline_text, points_outline, segment_text};
ghost use Rattle.pf_lines.specs.Taking.{IsExcused, Takes};
ghost use Rattle.pf_par.specs.declared.outline.Outline.{Outline};
ghost use Rattle.pf_par.specs.declared.outline.Segment.{Segment};

use pf_curve::{Points, Sides};
use pf_frame::{Numbers, Side};
use pf_lines::{
    AnswerBad, Exact, Valued, take_count, take_head, take_number, take_rest_side, take_valued_row,
};
use pf_net::Net;
use std::alloc::Global;

/// Points, a cut between each and the next, and the value that is written of the flow at each point.
#[derive(Drop)]
pub struct Outline {
    pub points: Points,
    pub cuts: Sides,
    pub values: Numbers,
}

/// A cut, and the point after it.
#[derive(Drop)]
pub struct Segment {
    side: Side,
    point: Valued,
}

// The cut has this constant and this slope.
fn has_line(net: &Net, side: &[bool], a: i128, b: i128) -> bool
    requires { IsNetworkCut net.now side.now }
    ensures { IsTrue result ↔ ((a ≡ cut_a net.now side.now) × (b ≡ cut_b net.now side.now)) }
{
    let line = net.cut_line(side);
    line.a() == a && line.b() == b
}

// Whether the side is a cut with this constant and this slope.
fn is_cut_of(net: &Net, side: &[bool], a: i128, b: i128) -> bool
    ensures { IsTrue result ↔ (IsNetworkCut net.now side.now × (a ≡ cut_a net.now side.now) × (b ≡ cut_b net.now side.now)) }
{
    if !net.is_cut(side) {
        return false;
    }
    has_line(net, side, a, b)
}

// The rest of a cut's line: the constant and the slope of its capacity, and the side.
fn take_cut(alloc: Global, net: &Net, text: &mut Exact<'_>) -> Result<Side, AnswerBad>
    ensures taken { IfOk result (λ side. text.old ≡ rest_of_line (cut_fields net.now side) ++ text.new) }
    ensures shape { IfOk result (IsNetworkCut net.now) }
    ensures found { (side : List Bool) (rest : List ℕ) → IsNetworkCut net.now side → text.old ≡ rest_of_line (cut_fields net.now side) ++ rest → Takes side rest result text.new }
{
    let nodes = net.frame().nodes();
    let a = take_number(text, i128::MIN, i128::MAX)?;
    let b = take_number(text, i128::MIN, i128::MAX)?;
    let side = take_rest_side(alloc, nodes as usize, text)?;
    if is_cut_of(net, side.get(), a, b) {
        return Ok(side);
    }
    Err(AnswerBad::NotText)
}

// The line of cut `i`.
fn take_cut_line(
    alloc: Global,
    net: &Net,
    text: &mut Exact<'_>,
    i: usize,
) -> Result<Side, AnswerBad>
    ensures taken { IfOk result (λ side. text.old ≡ cut_line net.now i side ++ text.new) }
    ensures shape { IfOk result (IsNetworkCut net.now) }
    ensures found { (side : List Bool) (rest : List ℕ) → IsNetworkCut net.now side → text.old ≡ cut_line net.now i side ++ rest → Takes side rest result text.new }
{
    take_head(text, b"s", &[i])?;
    let side = take_cut(alloc, net, text)?;
    Ok(side)
}

// The line of cut `i`, and that of the point after it.
fn take_segment(
    alloc: Global,
    net: &Net,
    text: &mut Exact<'_>,
    i: usize,
) -> Result<Segment, AnswerBad>
    ensures taken { IfOk result (λ segment. text.old ≡ segment_text net.now i segment ++ text.new) }
    ensures shape { IfOk result (IsSegmentShape net.now) }
    ensures found { (segment : Segment) (rest : List ℕ) → IsSegmentShape net.now segment → text.old ≡ segment_text net.now i segment ++ rest → Takes segment rest result text.new }
{
    let side = take_cut_line(alloc, net, text, i)?;
    let point = take_valued_row(text, b"b", &[i])?;
    Ok(Segment { side, point })
}

// Adds the value.
fn add_value(values: &mut Numbers, value: i128) -> Result<(), AnswerBad>
    ensures added { IfOk result (λ _. values.new ≡ values.old ++ value ∷ []) }
    ensures excused { IfErr result IsExcused }
{
    values.push(value)?;
    Ok(())
}

// One point, and no cut.
fn begin(alloc: Global, point: Valued) -> Result<Outline, AnswerBad>
    ensures begun { IfOk result (λ o. o ≡ record { points = point.at ∷ []; cuts = []; values = point.value ∷ [] }) }
    ensures excused { IfErr result IsExcused }
{
    let Valued { at, value } = point;
    let mut points = Points::new(alloc);
    let mut values = Numbers::new(alloc);
    points.push(at)?;
    add_value(&mut values, value)?;
    let cuts = Sides::new(alloc);
    Ok(Outline {
        points,
        cuts,
        values,
    })
}

// Adds the cut, and the point after it.
fn add_segment(outline: &mut Outline, segment: Segment) -> Result<(), AnswerBad>
    ensures added { IfOk result (λ _. outline.new ≡ record {
      points = outline.old.points ++ segment.point.at ∷ [];
      cuts = outline.old.cuts ++ segment.side ∷ [];
      values = outline.old.values ++ segment.point.value ∷ [];
    }) }
    ensures excused { IfErr result IsExcused }
{
    let Segment { side, point } = segment;
    let Valued { at, value } = point;
    outline.cuts.push(side)?;
    outline.points.push(at)?;
    add_value(&mut outline.values, value)?;
    Ok(())
}

// So many cuts, with the points before, between and after them.
fn take_points(
    alloc: Global,
    net: &Net,
    count: usize,
    text: &mut Exact<'_>,
) -> Result<Outline, AnswerBad>
    requires { 0 < count }
    ensures taken { IfOk result (λ o. text.old ≡ points_outline net.now o.cuts o.points o.values ++ text.new) }
    ensures count { IfOk result (λ o. length o.cuts ≡ count) }
    ensures shape { IfOk result (IsOutlineShape net.now) }
    ensures found { (o : Outline) (rest : List ℕ) → IsOutlineShape net.now o → length o.cuts ≡ count
        → text.old ≡ points_outline net.now o.cuts o.points o.values ++ rest → Takes o rest result text.new }
{
    let first = take_valued_row(text, b"b", &[0])?;
    let mut outline = begin(alloc, first)?;
    'segments: for i in 0..count {
        let segment = take_segment(alloc, net, text, i + 1)?;
        add_segment(&mut outline, segment)?;
    }
    Ok(outline)
}

/// The number of cuts, the points and the cuts. The memory that is taken is for the cuts and points that stand there, and
/// not for the number that stands in front.
pub fn take_outline(alloc: Global, net: &Net, text: &mut Exact<'_>) -> Result<Outline, AnswerBad>
    ensures taken { IfOk result (λ o. text.old ≡ outline_text net.now o ++ text.new) }
    ensures shape { IfOk result (IsOutlineShape net.now) }
    ensures found { (o : Outline) (rest : List ℕ) → IsOutlineShape net.now o → text.old ≡ outline_text net.now o ++ rest → Takes o rest result text.new }
{
    let count = take_count(text, b"k", 1)?;
    let outline = take_points(alloc, net, count, text)?;
    Ok(outline)
}
