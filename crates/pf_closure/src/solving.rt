// The least ratio, by Newton's iteration over the least cuts of the parametric network.
ghost use Rattle.std.specs.Prelude.{◌≡◌, ◌↔◌, ◌+◌, ◌<◌, ◌^◌, ◌≤ℤ◌, ℕ, pos, not, false, length, IsTrue, IfOk};
ghost use Rattle.pf_model.specs.Answer.{IsFractionShape};
ghost use Rattle.pf_model.specs.Cut.{has};
ghost use Rattle.pf_model.specs.Curve.{IsPoint};
ghost use Rattle.pf_closure.specs.Problem.{IsNonempty, IsLeastRatio};
ghost use Rattle.pf_closure.specs.Certificate.{IsRouting, CertifiesRatio};
ghost use Rattle.pf_closure.specs.Reduction.{closure_net, items_of, routing_of};
ghost use Rattle.pf_closure.specs.Newton.{IsNewton, IsWholeSide, IsRest};
ghost use Rattle.pf_closure.specs.Right.{IsRatioShape};

use crate::dropping::{mark_dropped, write_slacks};
use crate::items::Items;
use crate::network::closure_net;
use crate::ratio::Ratio;
use crate::sums::ratio_of;
use pf_curve::Finder;
use pf_frame::{NoMemory, Numbers, Side};
use pf_rat::Rat;
use pf_ratio::has_some;
use std::alloc::Global;

// Whether the side holds an item.
fn has_item(items: &Items, side: &[bool]) -> bool
    requires { length items.now.costs < length side.now }
    ensures { IsTrue result ↔ IsNonempty (items_of items.now side.now) }
{
    let count = items.items() as usize;
    has_some(&side[1..count + 1])
}

// Takes the ratio of all items, finds a closure of a smaller one by the smallest least cut at it, takes that one's ratio, and so on.
// Ends with the last ratio, at which that cut holds no item, and a greatest flow at it.
fn iterate(
    items: &Items,
    finder: &mut Finder<'_>,
    side: &mut [bool],
    next: &mut [bool],
    flow: &mut [i128],
) -> Rat
    requires net { finder.old ≡ closure_net items.now }
    requires whole { IsWholeSide items.now side.old }
    requires nodes { length next.old ≡ length items.now.costs + 2 }
    requires numbers { length flow.old ≡ length (closure_net items.now).arcs }
    ensures newton { IsNewton items.now result side.new }
    ensures point { IsPoint (closure_net items.now) result next.new flow.new }
    ensures none { (i : ℕ) → has (items_of items.now next.new) i ≡ false }
    ensures small { result.q ≤ℤ pos (2 ^ 44) }
    ensures shape { IsFractionShape result }
{
    // It gives the proof what all items keep.
    let _ = items.items();
    let mut ratio = ratio_of(items, side);
    finder.write_point(&ratio, next, flow);
    'steps: while has_item(items, next) {
        ratio = ratio_of(items, next);
        side.copy_from_slice(next);
        finder.write_point(&ratio, next, flow);
    }
    ratio
}

// Each truth value becomes the other one.
fn turn(marks: &mut [bool])
    ensures { (i : ℕ) → i < length marks.old → has marks.new i ≡ not (has marks.old i) }
{
    'items: for i in 0..marks.len() {
        marks[i] = !marks[i];
    }
}

// Marks the items that the numbers on the needs do not drop. `sums` is working room, with one place per item.
fn choose(items: &Items, ratio: &Rat, routing: &[i128], sums: &mut [i128], marks: &mut [bool])
    requires routing { IsRouting items.now routing.now }
    requires sums { length sums.old ≡ length items.now.costs }
    requires marks { length marks.old ≡ length items.now.costs }
    ensures { IsRest items.now ratio.now routing.now marks.new }
{
    write_slacks(items, ratio, routing, sums);
    mark_dropped(items, routing, sums, marks);
    turn(marks);
}

// The side of all items.
fn whole_side(alloc: Global, items: &Items) -> Result<Vec<bool>, NoMemory>
    ensures { IfOk result (λ side. IsWholeSide items.now side.items) }
{
    let count = items.items() as usize;
    let mut side = vec![in alloc; true; count + 2]?;
    side[count + 1] = false;
    Ok(side)
}

// The answer from a greatest flow at the least ratio.
fn answer_of(alloc: Global, items: &Items, ratio: Rat, flow: &[i128]) -> Result<Ratio, NoMemory>
    requires full { length flow.now ≡ length items.now.costs + length items.now.costs + length items.now.needs }
    requires routing { IsRouting items.now (routing_of items.now flow.now) }
    ensures ratio { IfOk result (λ r. r.ratio ≡ ratio) }
    ensures routing { IfOk result (λ r. r.routing ≡ routing_of items.now flow.now) }
    ensures chosen { IfOk result (λ r. IsRest items.now ratio r.routing r.chosen) }
{
    let count = items.items() as usize;
    let routing = Vec::from_slice(alloc, &flow[2 * count..])?;
    let mut sums = vec![in alloc; 0i128; count]?;
    let mut chosen = vec![in alloc; false; count]?;
    choose(items, &ratio, &routing, &mut sums, &mut chosen);
    Ok(Ratio::new(ratio, Side::from_vec(chosen), Numbers::from_vec(routing)))
}

// The answer, in working room: two sides, indexed by nodes, of which the first holds all nodes but the sink, and a flow, indexed by
// arcs.
fn solve(
    alloc: Global,
    items: &Items,
    finder: &mut Finder<'_>,
    side: &mut [bool],
    next: &mut [bool],
    flow: &mut [i128],
) -> Result<Ratio, NoMemory>
    requires net { finder.old ≡ closure_net items.now }
    requires whole { IsWholeSide items.now side.old }
    requires nodes { length next.old ≡ length items.now.costs + 2 }
    requires numbers { length flow.old ≡ length (closure_net items.now).arcs }
    ensures least { IfOk result (λ r. IsLeastRatio items.now r.ratio r.chosen) }
    ensures certificate { IfOk result (λ r. CertifiesRatio items.now r.ratio r.chosen r.routing) }
    ensures shape { IfOk result (IsRatioShape items.now) }
{
    // It gives the proof what all items keep.
    let _ = items.items();
    let ratio = iterate(items, finder, side, next, flow);
    let answer = answer_of(alloc, items, ratio, flow)?;
    Ok(answer)
}

// The answer, found with one finder of the network.
fn find_least(alloc: Global, items: &Items, finder: &mut Finder<'_>) -> Result<Ratio, NoMemory>
    requires { finder.old ≡ closure_net items.now }
    ensures least { IfOk result (λ r. IsLeastRatio items.now r.ratio r.chosen) }
    ensures certificate { IfOk result (λ r. CertifiesRatio items.now r.ratio r.chosen r.routing) }
    ensures shape { IfOk result (IsRatioShape items.now) }
{
    let frame = finder.net().frame();
    let nodes = frame.nodes() as usize;
    let arcs = frame.arcs() as usize;
    let mut side = whole_side(alloc, items)?;
    let mut next = vec![in alloc; false; nodes]?;
    let mut flow = vec![in alloc; 0i128; arcs]?;
    solve(alloc, items, finder, &mut side, &mut next, &mut flow)
}

/// The least ratio of cost over weight of a nonempty closure, with the closure that contains all others of that ratio, and the
/// numbers on the needs that certify both, in units of `1/q` of the ratio `p/q`. The only other answer is `NoMemory`.
///
/// Newton's iteration (Dinkelbach 1967) over the parametric network of Gallo, Grigoriadis and Tarjan 1989: the smallest least cut at
/// the ratio of a closure is a closure of a smaller ratio, until there is none. A handful of flows is enough.
pub fn least_ratio(alloc: Global, items: &Items) -> Result<Ratio, NoMemory>
    ensures least { IfOk result (λ r. IsLeastRatio items.now r.ratio r.chosen) }
    ensures certificate { IfOk result (λ r. CertifiesRatio items.now r.ratio r.chosen r.routing) }
    ensures shape { IfOk result (IsRatioShape items.now) }
{
    let net = closure_net(alloc, items)?;
    let mut finder = Finder::make(alloc, &net)?;
    find_least(alloc, items, &mut finder)
}
