// What the lines of a text have given so far, and the rules of the lines.
ghost use Rattle.std.specs.Prelude.{◌≡◌, ◌≤◌, ◌≤ℤ◌, ◌∷◌, ◌++◌, [], List, ℕ, pos, nat_abs, length, replicate, None, Some, Ok, IfOk, IfErr};
ghost use Rattle.pf_text.specs.Kinds.{Fits};
ghost use Rattle.pf_lines.specs.Gathering.{ObeysRules};
ghost use Rattle.pf_select.specs.Problem.{SelectionProblem, IsBoundedProblem};
ghost use Rattle.pf_select.specs.Refused.{IsMissingOf};
ghost use Rattle.pf_select.specs.Text.{index_of, part_rules, part_form, product_rules, product_form, need_rules, need_form, all_given, problem_by};

use crate::catalogue::Catalogue;
use pf_frame::NoMemory;
use pf_lines::{LineBad, RuleKind};
use std::alloc::Global;

/// The numbers of the header, and what the lines after it have given so far: the cost of a part stands in the part's place, the
/// gain of a product in the product's.
#[derive(Drop)]
pub struct SelectState {
    pub part_count: u32,
    pub product_count: u32,
    pub need_count: usize,
    costs: Vec<Option<u32>>,
    gains: Vec<Option<u32>>,
    needs: Vec<(u32, u32)>,
    ghost costs_full: { length costs.items ≡ part_count },
    ghost gains_full: { length gains.items ≡ product_count },
}

// The index of the part or product of this number among so many: texts number them from 1, and problems from 0.
fn index_of(number: i64, count: u32) -> u32
    requires low { pos 1 ≤ℤ number }
    requires high { number ≤ℤ pos count }
    ensures { result ≡ index_of number }
{
    (number - 1) as u32
}

// A cost or a gain.
fn amount(number: i64) -> u32
    requires low { pos 1 ≤ℤ number }
    requires high { number ≤ℤ pos 1000000 }
    ensures { result ≡ nat_abs number }
{
    number as u32
}

// Adds the number at the end.
fn push_number(numbers: &mut Vec<u32>, number: &u32) -> Result<(), NoMemory>
    ensures { IfOk result (λ _. numbers.new.items ≡ numbers.old.items ++ number.now ∷ []) }
{
    let value = *number;
    numbers.push(value)?;
    Ok(())
}

// All numbers, if each was given.
fn numbers_of(alloc: Global, slots: &[Option<u32>]) -> Result<Vec<u32>, LineBad>
    ensures found { IfOk result (λ numbers. all_given slots.now ≡ Some numbers.items) }
    ensures refused { IfErr result (IsMissingOf (all_given slots.now)) }
{
    let mut numbers = Vec::with_capacity(alloc, slots.len())?;
    'slots: for i in 0..slots.len() {
        let Some(number) = &slots[i] else {
            return Err(LineBad::Broken(RuleKind::Missing));
        };
        push_number(&mut numbers, number)?;
    }
    Ok(numbers)
}

impl SelectState {
    ghost use Rattle.pf_select.specs.Gathered.{given_of, header_of};

    /// Nothing after a header of these numbers.
    pub fn new(
        alloc: Global,
        part_count: u32,
        product_count: u32,
        need_count: usize,
    ) -> Result<SelectState, NoMemory>
        ensures header { IfOk result (λ state. header_of state ≡ pos part_count ∷ pos product_count ∷ pos need_count ∷ []) }
        ensures given { IfOk result (λ state. given_of state ≡ record { costs = replicate part_count None; gains = replicate product_count None; needs = [] }) }
    {
        let costs = vec![in alloc; None; part_count as usize]?;
        let gains = vec![in alloc; None; product_count as usize]?;
        Ok(SelectState {
            part_count,
            product_count,
            need_count,
            costs,
            gains,
            needs: Vec::new(alloc),
        })
    }

    /// `v ID COST`
    pub fn part_line(&mut self, numbers: &[i64]) -> Result<(), LineBad>
        requires { Fits (part_form (header_of self.old)).patterns numbers.now }
        ensures obeys { ObeysRules (part_rules numbers.now (given_of self.old)) (λ _. given_of self.new) result }
        ensures header { header_of self.new ≡ header_of self.old }
    {
        let &[part, cost] = numbers else {
            unreachable!();
        };
        let i = index_of(part, self.part_count) as usize;
        if self.costs[i].is_some() {
            return Err(LineBad::Broken(RuleKind::Repeated));
        }
        self.costs[i] = Some(amount(cost));
        Ok(())
    }

    /// `g ID GAIN`
    pub fn product_line(&mut self, numbers: &[i64]) -> Result<(), LineBad>
        requires { Fits (product_form (header_of self.old)).patterns numbers.now }
        ensures obeys { ObeysRules (product_rules numbers.now (given_of self.old)) (λ _. given_of self.new) result }
        ensures header { header_of self.new ≡ header_of self.old }
    {
        let &[product, gain] = numbers else {
            unreachable!();
        };
        let j = index_of(product, self.product_count) as usize;
        if self.gains[j].is_some() {
            return Err(LineBad::Broken(RuleKind::Repeated));
        }
        self.gains[j] = Some(amount(gain));
        Ok(())
    }

    /// `r PRODUCT PART`
    pub fn need_line(&mut self, numbers: &[i64]) -> Result<(), LineBad>
        requires { Fits (need_form (header_of self.old)).patterns numbers.now }
        ensures obeys { ObeysRules (need_rules numbers.now (given_of self.old)) (λ _. given_of self.new) result }
        ensures header { header_of self.new ≡ header_of self.old }
    {
        let &[needing, needed] = numbers else {
            unreachable!();
        };
        let product = index_of(needing, self.product_count);
        let part = index_of(needed, self.part_count);
        self.needs.push((product, part))?;
        Ok(())
    }

    /// The catalogue of what was given.
    pub fn catalogue(self, alloc: Global) -> Result<Catalogue, LineBad>
        requires { (p : SelectionProblem) → problem_by (all_given self.costs.items) (all_given self.gains.items) self.needs.items ≡ Ok p → IsBoundedProblem p }
        ensures { ObeysRules (problem_by (all_given self.costs.items) (all_given self.gains.items) self.needs.items) (λ p. p) result }
    {
        let SelectState {
            costs,
            gains,
            needs,
            ..
        } = self;
        let all_costs = numbers_of(alloc, &costs)?;
        let all_gains = numbers_of(alloc, &gains)?;
        Ok(Catalogue::from_vecs(all_costs, all_gains, needs))
    }
}
