// The flow of every group at its own level, found as one greatest flow of one network (`group_net`). `answer` has the levels and the
// groups; its numbers on the arcs are 0.
ghost use Rattle.std.specs.Prelude.{◌≡◌, ◌+◌, ◌<◌, ◌≤◌, ◌^◌, [], ◌<ℤ◌, ◌≤ℤ◌, pos, neg_ℤ, ◌==◌, if◌then◌else◌, length, take, All, IfOk};
ghost use Rattle.pf_model.specs.Answer.{IsWithinSize};
ghost use Rattle.pf_model.specs.Cut.{at_arc};
ghost use Rattle.pf_model.specs.Flow.{IsGreatest};
ghost use Rattle.pf_model.specs.Limits.{capacity_bound};
ghost use Rattle.pf_share.specs.Problem.{tail_of, head_of};
ghost use Rattle.pf_share.specs.Certificate.{CertifiesShares};
ghost use Rattle.pf_share.specs.Right.{IsSharesShape};
ghost use Rattle.pf_share.specs.Tests.{AreBalances};
ghost use Rattle.pf_share.specs.Grouped.{redirected, own_capacity, supply, group_net, answer_of, HasFlow, IsStill};

use crate::checking::{add_arcs, is_lower, whole, write_own};
use crate::shares::Shares;
use crate::sharing::Sharing;
use pf_frame::{Frame, NoMemory, Numbers};
use pf_preflow::greatest;
use std::alloc::Global;

// The head that an arc of the sharing has in the network of the groups.
fn head_in(sharing: &Sharing, answer: &Shares, i: usize) -> u32
    requires shape { IsSharesShape sharing.now answer.now }
    requires arc { i < length sharing.now.ends }
    ensures { result ≡ (redirected sharing.now answer.now.levels answer.now.groups (tail_of sharing.now i, head_of sharing.now i)).1 }
{
    let tail = sharing.tail(i);
    let head = sharing.head(i);
    if is_lower(sharing, answer, tail as usize, head as usize) {
        return sharing.sink();
    }
    head
}

// The arcs of the sharing, as they are in that network.
fn push_arcs(sharing: &Sharing, answer: &Shares, ends: &mut Vec<(u32, u32)>) -> Result<(), NoMemory>
    requires shape { IsSharesShape sharing.now answer.now }
    requires some { HasFlow sharing.now answer.now.levels answer.now.groups }
    requires none { ends.old.items ≡ [] }
    ensures { IfOk result (λ _. ends.new.items ≡ take (length sharing.now.ends) (group_net sharing.now answer.now.levels answer.now.groups).ends) }
{
    // Gives the proof what holds of every such network.
    let _ = sharing.nodes();
    let count = sharing.arcs() as usize;
    'arcs: for i in 0..count {
        let tail = sharing.tail(i);
        let head = head_in(sharing, answer, i);
        ends.push((tail, head))?;
    }
    Ok(())
}

// The arcs of the source, after them.
fn push_source_arcs(
    sharing: &Sharing,
    answer: &Shares,
    ends: &mut Vec<(u32, u32)>,
) -> Result<(), NoMemory>
    requires shape { IsSharesShape sharing.now answer.now }
    requires some { HasFlow sharing.now answer.now.levels answer.now.groups }
    requires before { ends.old.items ≡ take (length sharing.now.ends) (group_net sharing.now answer.now.levels answer.now.groups).ends }
    ensures { IfOk result (λ _. ends.new.items ≡ (group_net sharing.now answer.now.levels answer.now.groups).ends) }
{
    let count = sharing.nodes();
    'nodes: for v in 0..count {
        ends.push((count, v))?;
    }
    Ok(())
}

// The capacity that an arc of the sharing has in that network.
fn capacity_in(sharing: &Sharing, answer: &Shares, i: usize) -> i128
    requires shape { IsSharesShape sharing.now answer.now }
    requires arc { i < length sharing.now.ends }
    ensures { result ≡ own_capacity sharing.now answer.now.levels answer.now.groups i }
{
    let tail = sharing.tail(i) as usize;
    let head = sharing.head(i) as usize;
    if is_lower(sharing, answer, head, tail) {
        return 0;
    }
    whole(sharing, answer, i, tail)
}

// The capacities of the arcs of the sharing.
fn push_capacities(sharing: &Sharing, answer: &Shares, caps: &mut Vec<i128>) -> Result<(), NoMemory>
    requires shape { IsSharesShape sharing.now answer.now }
    requires some { HasFlow sharing.now answer.now.levels answer.now.groups }
    requires none { caps.old.items ≡ [] }
    ensures { IfOk result (λ _. caps.new.items ≡ take (length sharing.now.ends) (group_net sharing.now answer.now.levels answer.now.groups).capacities) }
{
    // Gives the proof what holds of every such network.
    let _ = sharing.nodes();
    let count = sharing.arcs() as usize;
    'arcs: for i in 0..count {
        caps.push(capacity_in(sharing, answer, i))?;
    }
    Ok(())
}

// Writes what leaves each node less what enters it. `sums` has at least one place per node.
fn write_balances(sharing: &Sharing, answer: &Shares, sums: &mut [i128])
    requires shape { IsSharesShape sharing.now answer.now }
    requires places { sharing.now.nodes ≤ length sums.old }
    ensures full { length sums.new ≡ length sums.old }
    ensures each { AreBalances sharing.now answer.now sums.new }
{
    write_own(sharing, answer, sums);
    add_arcs(sharing, answer, sums);
}

// What comes to a node, where this leaves it less what enters it.
fn supply_of(balance: &i128, is_sink: bool) -> i128
    requires low { neg_ℤ (pos capacity_bound) <ℤ balance.now }
    requires high { balance.now ≤ℤ pos 0 }
    ensures { result ≡ (if is_sink then pos 0 else neg_ℤ balance.now) }
{
    let balance = *balance;
    if is_sink {
        return 0;
    }
    -balance
}

// The capacities of the arcs of the source, after them.
fn push_supplies(
    sharing: &Sharing,
    answer: &Shares,
    balances: &[i128],
    caps: &mut Vec<i128>,
) -> Result<(), NoMemory>
    requires shape { IsSharesShape sharing.now answer.now }
    requires still { IsStill answer.now.flow }
    requires some { HasFlow sharing.now answer.now.levels answer.now.groups }
    requires full { length balances.now ≡ sharing.now.nodes }
    requires balances { AreBalances sharing.now answer.now balances.now }
    requires before { caps.old.items ≡ take (length sharing.now.ends) (group_net sharing.now answer.now.levels answer.now.groups).capacities }
    ensures { IfOk result (λ _. caps.new.items ≡ (group_net sharing.now answer.now.levels answer.now.groups).capacities) }
{
    let sink = sharing.sink() as usize;
    let count = sharing.nodes() as usize;
    'nodes: for v in 0..count {
        let balance = &balances[v];
        let is_sink = v == sink;
        caps.push(supply_of(balance, is_sink))?;
    }
    Ok(())
}

// All arcs of the network.
fn ends_of(alloc: Global, sharing: &Sharing, answer: &Shares) -> Result<Vec<(u32, u32)>, NoMemory>
    requires shape { IsSharesShape sharing.now answer.now }
    requires some { HasFlow sharing.now answer.now.levels answer.now.groups }
    ensures { IfOk result (λ ends. ends.items ≡ (group_net sharing.now answer.now.levels answer.now.groups).ends) }
{
    let mut ends = Vec::new(alloc);
    push_arcs(sharing, answer, &mut ends)?;
    push_source_arcs(sharing, answer, &mut ends)?;
    Ok(ends)
}

// What leaves each node less what enters it.
fn balances_of(alloc: Global, sharing: &Sharing, answer: &Shares) -> Result<Vec<i128>, NoMemory>
    requires { IsSharesShape sharing.now answer.now }
    ensures full { IfOk result (λ sums. length sums.items ≡ sharing.now.nodes) }
    ensures each { IfOk result (λ sums. AreBalances sharing.now answer.now sums.items) }
{
    let mut sums = vec![in alloc; 0i128; sharing.nodes() as usize]?;
    write_balances(sharing, answer, sums.as_mut_slice());
    Ok(sums)
}

// The capacities of all arcs of the network.
fn capacities_of(alloc: Global, sharing: &Sharing, answer: &Shares) -> Result<Vec<i128>, NoMemory>
    requires shape { IsSharesShape sharing.now answer.now }
    requires still { IsStill answer.now.flow }
    requires some { HasFlow sharing.now answer.now.levels answer.now.groups }
    ensures { IfOk result (λ caps. caps.items ≡ (group_net sharing.now answer.now.levels answer.now.groups).capacities) }
{
    let balances = balances_of(alloc, sharing, answer)?;
    let mut caps = Vec::new(alloc);
    push_capacities(sharing, answer, &mut caps)?;
    push_supplies(sharing, answer, balances.as_slice(), &mut caps)?;
    Ok(caps)
}

// Writes a greatest flow of the network.
fn write_flow(
    alloc: Global,
    sharing: &Sharing,
    answer: &Shares,
    flow: &mut [i128],
) -> Result<(), NoMemory>
    requires shape { IsSharesShape sharing.now answer.now }
    requires still { IsStill answer.now.flow }
    requires some { HasFlow sharing.now answer.now.levels answer.now.groups }
    requires full { length flow.old ≡ length sharing.now.ends + sharing.now.nodes }
    ensures { IfOk result (λ _. IsGreatest (group_net sharing.now answer.now.levels answer.now.groups) flow.new) }
{
    let source = sharing.nodes();
    let sink = sharing.sink();
    let ends = ends_of(alloc, sharing, answer)?;
    let caps = capacities_of(alloc, sharing, answer)?;
    let frame = Frame::from_ends(alloc, source + 1, ends)?;
    greatest(alloc, &frame, caps.as_slice(), source, sink, flow)
}

// The numbers of that flow on the arcs of the sharing. `flow` has one place per arc and node.
fn numbers_of(
    alloc: Global,
    sharing: &Sharing,
    answer: &Shares,
    flow: &mut [i128],
) -> Result<Numbers, NoMemory>
    requires shape { IsSharesShape sharing.now answer.now }
    requires still { IsStill answer.now.flow }
    requires some { HasFlow sharing.now answer.now.levels answer.now.groups }
    requires full { length flow.old ≡ length sharing.now.ends + sharing.now.nodes }
    ensures certificate { IfOk result (λ numbers. CertifiesShares sharing.now (answer_of answer.now.levels answer.now.groups numbers)) }
    ensures sized { IfOk result (All (IsWithinSize capacity_bound)) }
{
    // Gives the proof what holds of every such network.
    let _ = sharing.nodes();
    let arcs = sharing.arcs() as usize;
    write_flow(alloc, sharing, answer, flow)?;
    let first = Vec::from_slice(alloc, &flow[..arcs])?;
    Ok(Numbers::from_vec(first))
}

/// Numbers on the arcs that certify the levels and groups of `answer`, where some do; its own numbers are 0. An arc between two groups
/// carries all of its capacity or nothing, so the flows of the groups do not touch, and one greatest flow is all of them.
pub(crate) fn group_flow(
    alloc: Global,
    sharing: &Sharing,
    answer: &Shares,
) -> Result<Numbers, NoMemory>
    requires shape { IsSharesShape sharing.now answer.now }
    requires still { IsStill answer.now.flow }
    requires some { HasFlow sharing.now answer.now.levels answer.now.groups }
    ensures certificate { IfOk result (λ flow. CertifiesShares sharing.now (answer_of answer.now.levels answer.now.groups flow)) }
    ensures sized { IfOk result (All (IsWithinSize capacity_bound)) }
{
    let nodes = sharing.nodes() as usize;
    let arcs = sharing.arcs() as usize;
    let mut flow = vec![in alloc; 0i128; arcs + nodes]?;
    numbers_of(alloc, sharing, answer, flow.as_mut_slice())
}
