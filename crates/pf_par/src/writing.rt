// Writing of answers for networks.
ghost use Rattle.std.specs.Prelude.{◌≡◌, ◌<◌, ◌++◌, [], ◌∷◌, length, drop, false, codes};
ghost use Rattle.std.specs.Fmt.{decimal};
ghost use Rattle.pf_model.specs.Network.{IsNetworkCut};
ghost use Rattle.pf_model.specs.Answer.{IsFlowShape, IsPointShape};
ghost use Rattle.pf_io.specs.Printing.{Adds, is_spent};
ghost use Rattle.pf_text.specs.Spelling.{line, head};
ghost use Rattle.pf_par.specs.Answers.{point_fields, cut_fields, point_text, segments_text, points_text, flows_text, IsWritable, curve_text};

use pf_curve::{Curve, Point};
use pf_frame::value;
use pf_io::{Failed, Printer, Sink, print_fraction_row, print_row, print_rows, print_side_row};
use pf_net::Net;
use pf_rat::Rat;

// The line of a point: the parameter, and the value of the flow there in units of `1/q`.
fn print_point<K: Sink>(
    out: &mut Printer<'_, K>,
    net: &Net,
    indices: &[usize],
    at: &Rat,
    flow: &[i128],
) -> Result<(), Failed>
    requires usable { is_spent out.old ≡ false }
    requires shape { IsFlowShape net.now flow.now }
    ensures { Adds out.old out.new (line (head (codes "b") indices.now ++ point_fields net.now at.now flow.now)) result }
{
    let sum = value(net.frame(), net.source(), flow);
    print_fraction_row(out, b"b", indices, at, &[sum])
}

// The line of a cut: the constant and the slope of its capacity, and the side.
fn print_cut<K: Sink>(
    out: &mut Printer<'_, K>,
    net: &Net,
    indices: &[usize],
    side: &[bool],
) -> Result<(), Failed>
    requires usable { is_spent out.old ≡ false }
    requires cut { IsNetworkCut net.now side.now }
    ensures { Adds out.old out.new (line (head (codes "s") indices.now ++ cut_fields net.now side.now)) result }
{
    let line = net.cut_line(side);
    print_side_row(out, b"s", indices, &[line.a(), line.b()], side)
}

// The answer to `at`, of its three parts.
fn print_answer<K: Sink>(
    out: &mut Printer<'_, K>,
    net: &Net,
    at: &Rat,
    side: &[bool],
    flow: &[i128],
) -> Result<(), Failed>
    requires usable { is_spent out.old ≡ false }
    requires cut { IsNetworkCut net.now side.now }
    requires shape { IsFlowShape net.now flow.now }
    ensures { Adds out.old out.new (point_text net.now (record { at = at.now; side = side.now; flow = flow.now })) result }
{
    out.word(b"o at\n")?;
    print_point(out, net, &[], at, flow)?;
    print_cut(out, net, &[], side)?;
    print_row(out, b"f", &[], flow)?;
    out.word(b"end\n")
}

/// Writes the answer to `at`: the parameter with the value of the flow, the cut with its line, and the flow. The value and
/// the flow are in units of `1/q` of the parameter `p/q`; the side is written node by node, the flow arc by arc.
/// It takes no memory. `Failed` comes only where the sink's count of faults rose, and leaves the printer spent.
pub fn write_at<K: Sink>(out: &mut Printer<'_, K>, net: &Net, point: &Point) -> Result<(), Failed>
    requires usable { is_spent out.old ≡ false }
    requires shape { IsPointShape net.now point.now }
    ensures { Adds out.old out.new (point_text net.now point.now) result }
{
    let side = point.side().get();
    let flow = point.flow().get();
    print_answer(out, net, point.at(), side, flow)
}

// The lines of cut `i`, numbered from 1, and of the point after it.
fn print_segment<K: Sink>(
    out: &mut Printer<'_, K>,
    net: &Net,
    i: usize,
    side: &[bool],
    at: &Rat,
    flow: &[i128],
) -> Result<(), Failed>
    requires usable { is_spent out.old ≡ false }
    requires cut { IsNetworkCut net.now side.now }
    requires shape { IsFlowShape net.now flow.now }
    ensures { Adds out.old out.new (line (codes "s" ∷ decimal i ∷ cut_fields net.now side.now) ++ line (codes "b" ∷ decimal i ∷ point_fields net.now at.now flow.now)) result }
{
    print_cut(out, net, &[i], side)?;
    print_point(out, net, &[i], at, flow)
}

// Each cut, and the point after it.
fn print_segments<K: Sink>(out: &mut Printer<'_, K>, net: &Net, curve: &Curve) -> Result<(), Failed>
    requires usable { is_spent out.old ≡ false }
    requires shape { IsWritable net.now curve.now }
    ensures { Adds out.old out.new (segments_text net.now 1 curve.now.cuts (drop 1 curve.now.points) (drop 1 curve.now.flows)) result }
{
    let points = curve.points();
    'segments: for i in 0..cut_count(curve) {
        let at = &points[i + 1];
        print_segment(out, net, i + 1, curve.cut(i), at, curve.flow(i + 1))?;
    }
    Ok(())
}

// The first point, and the segments after it.
fn print_points<K: Sink>(out: &mut Printer<'_, K>, net: &Net, curve: &Curve) -> Result<(), Failed>
    requires usable { is_spent out.old ≡ false }
    requires shape { IsWritable net.now curve.now }
    ensures { Adds out.old out.new (points_text net.now curve.now.cuts curve.now.points curve.now.flows) result }
{
    let first = &curve.points()[0];
    print_point(out, net, &[0], first, curve.flow(0))?;
    print_segments(out, net, curve)
}

// Each flow.
fn print_flows<K: Sink>(out: &mut Printer<'_, K>, curve: &Curve) -> Result<(), Failed>
    requires { is_spent out.old ≡ false }
    ensures { Adds out.old out.new (flows_text 0 curve.now.flows) result }
{
    print_rows(out, b"f", 0, curve.flows())
}

// The number of cuts.
fn cut_count(curve: &Curve) -> usize
    ensures { result ≡ length curve.now.cuts }
{
    curve.points().len() - 1
}

/// Writes the answer to `curve`: the number of cuts, each point with the value of its flow, each cut with its line, and
/// then each flow. The value and the flow at a point `p/q` are in units of `1/q`; a side is written node by node, a flow
/// arc by arc. It takes no memory. `Failed` comes only where the sink's count of faults rose, and leaves the printer spent.
pub fn write_curve<K: Sink>(
    out: &mut Printer<'_, K>,
    net: &Net,
    curve: &Curve,
) -> Result<(), Failed>
    requires usable { is_spent out.old ≡ false }
    requires shape { IsWritable net.now curve.now }
    ensures { Adds out.old out.new (curve_text net.now curve.now) result }
{
    out.word(b"o curve\n")?;
    print_row(out, b"k", &[cut_count(curve)], &[])?;
    print_points(out, net, curve)?;
    print_flows(out, curve)?;
    out.word(b"end\n")
}
