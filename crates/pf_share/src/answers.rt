// Reading of the text of shares.
ghost use Rattle.std.specs.Prelude.{◌≡◌, ◌≢◌, ◌↔◌, ◌++◌, [], ◌∷◌, ◌+◌, ◌<◌, ◌≤◌, ◌≤ℤ◌, ℕ, ℤ, List, length, pos, All, IsTrue, IfOk, Err, codes};
ghost use Rattle.std.specs.Fmt.{signed_decimal};
ghost use Rattle.pf_model.specs.Fraction.{Fraction};
ghost use Rattle.pf_model.specs.Answer.{IsFractionShape};
ghost use Rattle.pf_model.specs.Cut.{at_arc};
ghost use Rattle.pf_text.specs.Spelling.{row_line};
ghost use Rattle.pf_lines.specs.Taking.{Finds, Takes, Passes, Stops};
ghost use Rattle.pf_share.specs.Certificate.{SharesAnswer};
ghost use Rattle.pf_share.specs.Right.{IsGroupsShape, IsSharesShape};
ghost use Rattle.pf_share.specs.Taken.{IsGrouped, AreGrouped, front_text, front_of, IsFrontShape};
ghost use Rattle.pf_share.specs.Text.{level_line, levels_text, share_line, node_text, shares_lines, shares_text};

use crate::shares::Shares;
use crate::sharing::Sharing;
use crate::weighted::share_of;
use pf_curve::Points;
use pf_frame::Numbers;
use pf_lines::{
    AnswerBad, Exact, NotThere, take_count, take_end, take_flow_row, take_fraction_row, take_head,
    take_number, take_row, take_word,
};
use pf_rat::Rat;
use std::alloc::Global;

// The line of level `j`.
fn take_level(j: usize, text: &mut Exact<'_>) -> Result<Rat, NotThere>
    ensures taken { IfOk result (λ level. text.old ≡ level_line j level ++ text.new) }
    ensures shape { IfOk result IsFractionShape }
    ensures found { (level : Fraction) (rest : List ℕ) → IsFractionShape level → text.old ≡ level_line j level ++ rest → Finds level rest result text.new }
{
    take_fraction_row(text, b"l", &[j])
}

// So many levels.
fn take_levels(alloc: Global, count: usize, text: &mut Exact<'_>) -> Result<Points, AnswerBad>
    ensures taken { IfOk result (λ levels. text.old ≡ levels_text 0 levels ++ text.new) }
    ensures count { IfOk result (λ levels. length levels ≡ count) }
    ensures shape { IfOk result (All IsFractionShape) }
    ensures found { (levels : List Fraction) (rest : List ℕ) → length levels ≡ count → All IsFractionShape levels
        → text.old ≡ levels_text 0 levels ++ rest → Takes levels rest result text.new }
{
    let mut levels = Points::new(alloc);
    'levels: for j in 0..count {
        let level = take_level(j + 1, text)?;
        levels.push(level)?;
    }
    Ok(levels)
}

// Whether the group is above 0 where the weight is.
fn is_grouped(weight: u32, group: &i128) -> bool
    ensures { IsTrue result ↔ IsGrouped (pos weight) group.now }
{
    if weight == 0 {
        return true;
    }
    let group = *group;
    group >= 1
}

// Whether each source has a group above 0.
fn are_grouped(sharing: &Sharing, groups: &[i128]) -> bool
    requires { length groups.now ≡ sharing.now.nodes }
    ensures { IsTrue result ↔ AreGrouped sharing.now groups.now sharing.now.nodes }
{
    let count = sharing.nodes() as usize;
    'nodes: for v in 0..count {
        if !is_grouped(sharing.weight(v), &groups[v]) {
            return false;
        }
    }
    true
}

// The groups of the nodes, of which there are so many beside group 0.
fn take_groups(
    alloc: Global,
    sharing: &Sharing,
    count: usize,
    text: &mut Exact<'_>,
) -> Result<Numbers, AnswerBad>
    ensures taken { IfOk result (λ groups. text.old ≡ row_line (codes "m") [] groups ++ text.new) }
    ensures shape { IfOk result (IsGroupsShape sharing.now count) }
    ensures found { (groups : List ℤ) (rest : List ℕ) → IsGroupsShape sharing.now count groups
        → text.old ≡ row_line (codes "m") [] groups ++ rest → Takes groups rest result text.new }
{
    let nodes = sharing.nodes() as usize;
    let groups = take_row(alloc, b"m", &[], nodes, 0, count as i128, text)?;
    if !are_grouped(sharing, groups.get()) {
        return Err(AnswerBad::NotText);
    }
    Ok(groups)
}

// A space, and this number.
fn take_known(text: &mut Exact<'_>, number: i128) -> Result<(), NotThere>
    ensures taken { IfOk result (λ _. text.old ≡ (32 ∷ signed_decimal number) ++ text.new) }
    ensures found { (rest : List ℕ) → Stops rest → text.old ≡ (32 ∷ signed_decimal number) ++ rest → Passes rest result text.new }
{
    take_number(text, number, number)?;
    Ok(())
}

// The line of `x` with these numbers.
fn take_known_row(text: &mut Exact<'_>, v: usize, p: i128, q: i128) -> Result<(), NotThere>
    ensures taken { IfOk result (λ _. text.old ≡ row_line (codes "x") (v ∷ []) (p ∷ q ∷ []) ++ text.new) }
    ensures found { (rest : List ℕ) → text.old ≡ row_line (codes "x") (v ∷ []) (p ∷ q ∷ []) ++ rest → Passes rest result text.new }
{
    take_head(text, b"x", &[v])?;
    take_known(text, p)?;
    take_known(text, q)?;
    take_word(text, b"\n")?;
    Ok(())
}

// The share of the node that texts number `v`.
fn take_share(text: &mut Exact<'_>, v: usize, level: &Rat, weight: u32) -> Result<(), NotThere>
    requires low { 1 ≤ weight }
    requires high { weight ≤ 1000000 }
    ensures taken { IfOk result (λ _. text.old ≡ share_line v level.now (pos weight) ++ text.new) }
    ensures found { (rest : List ℕ) → text.old ≡ share_line v level.now (pos weight) ++ rest → Passes rest result text.new }
{
    let share = share_of(level, weight);
    take_known_row(text, v, share.p, share.q)
}

// The share of the node `v`, which has no line where it is no source.
fn take_node(
    sharing: &Sharing,
    answer: &Shares,
    v: usize,
    text: &mut Exact<'_>,
) -> Result<(), NotThere>
    requires shape { IsGroupsShape sharing.now (length answer.now.levels) answer.now.groups }
    requires node { v < sharing.now.nodes }
    ensures taken { IfOk result (λ _. text.old ≡ node_text answer.now.levels v (at_arc sharing.now.weights v) (at_arc answer.now.groups v) ++ text.new) }
    ensures found { (rest : List ℕ) → text.old ≡ node_text answer.now.levels v (at_arc sharing.now.weights v) (at_arc answer.now.groups v) ++ rest
        → Passes rest result text.new }
{
    // Gives the proof how many nodes there are at most.
    let _ = sharing.nodes();
    let weight = sharing.weight(v);
    if weight == 0 {
        return Ok(());
    }
    let group = answer.group(v);
    take_share(text, v + 1, answer.level(group), weight)
}

// The share of each source.
fn take_nodes(sharing: &Sharing, answer: &Shares, text: &mut Exact<'_>) -> Result<(), NotThere>
    requires { IsGroupsShape sharing.now (length answer.now.levels) answer.now.groups }
    ensures taken { IfOk result (λ _. text.old ≡ shares_lines answer.now.levels 0 sharing.now.weights answer.now.groups ++ text.new) }
    ensures found { (rest : List ℕ) → text.old ≡ shares_lines answer.now.levels 0 sharing.now.weights answer.now.groups ++ rest
        → Passes rest result text.new }
{
    let count = sharing.nodes() as usize;
    'nodes: for v in 0..count {
        take_node(sharing, answer, v, text)?;
    }
    Ok(())
}

// The levels and the groups, with no number on any arc.
fn take_groups_of(
    alloc: Global,
    sharing: &Sharing,
    text: &mut Exact<'_>,
) -> Result<Shares, AnswerBad>
    ensures taken { IfOk result (λ a. text.old ≡ front_text a.levels a.groups ++ text.new) }
    ensures shape { IfOk result (IsFrontShape sharing.now) }
    ensures found { (levels : List Fraction) (groups : List ℤ) (rest : List ℕ) → IsFrontShape sharing.now (front_of levels groups)
        → text.old ≡ front_text levels groups ++ rest → Takes (front_of levels groups) rest result text.new }
{
    let count = take_count(text, b"k", 0)?;
    let levels = take_levels(alloc, count, text)?;
    let groups = take_groups(alloc, sharing, count, text)?;
    let none = Numbers::new(alloc);
    Ok(Shares::new(levels, groups, none))
}

// The whole answer, from the first word to the last.
fn take_shares(alloc: Global, sharing: &Sharing, text: &mut Exact<'_>) -> Result<Shares, AnswerBad>
    ensures taken { IfOk result (λ answer. text.old ≡ shares_text sharing.now answer ++ text.new) }
    ensures shape { IfOk result (IsSharesShape sharing.now) }
    ensures found { (answer : SharesAnswer) (rest : List ℕ) → IsSharesShape sharing.now answer
        → text.old ≡ shares_text sharing.now answer ++ rest → Takes answer rest result text.new }
{
    let width = sharing.arcs() as usize;
    take_word(text, b"o share\n")?;
    let front = take_groups_of(alloc, sharing, text)?;
    take_nodes(sharing, &front, text)?;
    let flow = take_flow_row(alloc, b"f", &[], width, text)?;
    take_word(text, b"end\n")?;
    Ok(front.with_flow(flow))
}

/// The shares of the right shape for the network whose text these bytes are: there is at most one answer of that text. Numbers and
/// words have one spelling there, the share of a source is its level times its weight, and no line is passed over. `NotText` comes
/// exactly where there is no such answer.
pub fn read_shares(alloc: Global, sharing: &Sharing, text: &[u8]) -> Result<Shares, AnswerBad>
    ensures shape { IfOk result (IsSharesShape sharing.now) }
    ensures text { IfOk result (λ answer. text.now ≡ shares_text sharing.now answer) }
    ensures only { (answer : SharesAnswer) → IsSharesShape sharing.now answer → text.now ≡ shares_text sharing.now answer
        → IfOk result (λ read. read ≡ answer) }
    ensures refused { result ≡ Err AnswerBad.NotText → (answer : SharesAnswer) → IsSharesShape sharing.now answer
        → text.now ≢ shares_text sharing.now answer }
{
    let mut rest = Exact::new(text);
    let answer = take_shares(alloc, sharing, &mut rest)?;
    take_end(&rest)?;
    Ok(answer)
}
