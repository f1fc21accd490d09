// What the lines of a text have given so far, and the rules of the lines.
ghost use Rattle.std.specs.Prelude.{◌≡◌, ◌≤◌, ◌≤ℤ◌, ◌∷◌, ◌++◌, [], List, ℕ, pos, length, replicate, None, Ok, IfOk, IfErr};
ghost use Rattle.pf_text.specs.Kinds.{Fits};
ghost use Rattle.pf_lines.specs.Gathering.{ObeysRules};
ghost use Rattle.pf_closure.specs.Problem.{ClosureProblem, IsBoundedProblem};
ghost use Rattle.pf_closure.specs.Refused.{IsRefusedBy};
ghost use Rattle.pf_closure.specs.Text.{item_index, item_rules, item_form, need_rules, need_form, all_given, problem_by};

use crate::items::Items;
use pf_frame::NoMemory;
use pf_lines::{LineBad, RuleKind};
use std::alloc::Global;

/// The numbers of the header, and what the lines after it have given so far: the cost and the weight of an item stand in
/// the item's place.
#[derive(Drop)]
pub struct ClosureState {
    pub item_count: u32,
    pub need_count: usize,
    slots: Vec<Option<(i64, i64)>>,
    needs: Vec<(u32, u32)>,
    ghost full: { length slots.items ≡ item_count },
}

// The index of the item of this number among so many: texts number the items from 1, and problems from 0.
fn index_of(item: i64, items: u32) -> u32
    requires low { pos 1 ≤ℤ item }
    requires high { item ≤ℤ pos items }
    ensures { result ≡ item_index item }
{
    (item - 1) as u32
}

// Adds the number at the end.
fn push_number(numbers: &mut Vec<i64>, number: &i64) -> Result<(), NoMemory>
    ensures { IfOk result (λ _. numbers.new.items ≡ numbers.old.items ++ number.now ∷ []) }
{
    let value = *number;
    numbers.push(value)?;
    Ok(())
}

// The costs and the weights of all items, if all were given.
fn numbers_of(alloc: Global, slots: &[Option<(i64, i64)>]) -> Result<(Vec<i64>, Vec<i64>), LineBad>
    ensures found { (needs : List (ℕ × ℕ)) → IfOk result (λ r. problem_by (all_given slots.now) needs
        ≡ Ok (record { costs = r.0.items; weights = r.1.items; needs = needs })) }
    ensures refused { (needs : List (ℕ × ℕ)) → IfErr result (IsRefusedBy (problem_by (all_given slots.now) needs)) }
{
    let mut costs = Vec::with_capacity(alloc, slots.len())?;
    let mut weights = Vec::with_capacity(alloc, slots.len())?;
    'slots: for i in 0..slots.len() {
        let Some((cost, weight)) = &slots[i] else {
            return Err(LineBad::Broken(RuleKind::Missing));
        };
        push_number(&mut costs, cost)?;
        push_number(&mut weights, weight)?;
    }
    Ok((costs, weights))
}

impl ClosureState {
    ghost use Rattle.pf_closure.specs.Gathered.{given_of, header_of};

    /// Nothing after a header of these numbers.
    pub fn new(alloc: Global, item_count: u32, need_count: usize) -> Result<ClosureState, NoMemory>
        ensures header { IfOk result (λ state. header_of state ≡ pos item_count ∷ pos need_count ∷ []) }
        ensures given { IfOk result (λ state. given_of state ≡ record { slots = replicate item_count None; needs = [] }) }
    {
        let slots = vec![in alloc; None; item_count as usize]?;
        Ok(ClosureState {
            item_count,
            need_count,
            slots,
            needs: Vec::new(alloc),
        })
    }

    /// `v ID COST WEIGHT`
    pub fn item_line(&mut self, numbers: &[i64]) -> Result<(), LineBad>
        requires { Fits (item_form (header_of self.old)).patterns numbers.now }
        ensures obeys { ObeysRules (item_rules numbers.now (given_of self.old)) (λ _. given_of self.new) result }
        ensures header { header_of self.new ≡ header_of self.old }
    {
        let &[item, cost, weight] = numbers else {
            unreachable!();
        };
        let i = index_of(item, self.item_count) as usize;
        if self.slots[i].is_some() {
            return Err(LineBad::Broken(RuleKind::Repeated));
        }
        self.slots[i] = Some((cost, weight));
        Ok(())
    }

    /// `r U V`
    pub fn need_line(&mut self, numbers: &[i64]) -> Result<(), LineBad>
        requires { Fits (need_form (header_of self.old)).patterns numbers.now }
        ensures obeys { ObeysRules (need_rules numbers.now (given_of self.old)) (λ _. given_of self.new) result }
        ensures header { header_of self.new ≡ header_of self.old }
    {
        let &[needing, needed] = numbers else {
            unreachable!();
        };
        let items = self.item_count;
        self.needs
            .push((index_of(needing, items), index_of(needed, items)))?;
        Ok(())
    }

    /// The items of what was given.
    pub fn items(self, alloc: Global) -> Result<Items, LineBad>
        requires { (p : ClosureProblem) → problem_by (all_given self.slots.items) self.needs.items ≡ Ok p → IsBoundedProblem p }
        ensures { ObeysRules (problem_by (all_given self.slots.items) self.needs.items) (λ p. p) result }
    {
        let ClosureState { slots, needs, .. } = self;
        let (costs, weights) = numbers_of(alloc, &slots)?;
        Ok(Items::from_vecs(costs, weights, needs))
    }
}
