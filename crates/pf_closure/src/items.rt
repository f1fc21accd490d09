// Items, and sums over a set of them.
ghost use Rattle.std.specs.Prelude.{◌≡◌, ◌<◌, ℤ, ◌+ℤ◌, ◌≤ℤ◌, pos, neg_ℤ, length, get_or, slice_index_or};
ghost use Rattle.pf_model.specs.Cut.{at_arc};
ghost use Rattle.pf_closure.specs.Problem.{ClosureProblem, cost_of, weight_of, IsBoundedProblem};

use std::marker::Model;

/// Items with their costs and weights, and which item needs which. Items are numbered from 0.
#[derive(Drop)]
pub struct Items {
    costs: Vec<i64>,
    weights: Vec<i64>,
    needs: Vec<(u32, u32)>,
}

impl Model for Items {
    ghost use Rattle.pf_closure.specs.Problem.{ClosureProblem, IsBoundedProblem};

    ghost Value = { ClosureProblem };

    ghost view = { λ x. record { costs = x.costs.items; weights = x.weights.items; needs = x.needs.items } };

    ghost invariant = { λ x. IsBoundedProblem (record { costs = x.costs.items; weights = x.weights.items; needs = x.needs.items }) };
}

impl Items {
    /// Items whose numbers are within the limits.
    pub(crate) fn from_vecs(costs: Vec<i64>, weights: Vec<i64>, needs: Vec<(u32, u32)>) -> Items
        requires { IsBoundedProblem (record { costs = costs.items; weights = weights.items; needs = needs.items }) }
        ensures { result ≡ record { costs = costs.items; weights = weights.items; needs = needs.items } }
    {
        Items {
            costs,
            weights,
            needs,
        }
    }

    /// The number of items. What holds of all items is told here.
    pub fn items(&self) -> u32
        ensures value { result ≡ length self.now.costs }
        ensures items { IsBoundedProblem self.now }
    {
        self.costs.len() as u32
    }

    /// The number of needs.
    pub fn needs(&self) -> u32
        ensures { result ≡ length self.now.needs }
    {
        self.needs.len() as u32
    }

    /// The costs of the items.
    pub(crate) fn costs(&self) -> &[i64]
        ensures { result.now ≡ self.now.costs }
    {
        self.costs.as_slice()
    }

    /// Their weights.
    pub(crate) fn weights(&self) -> &[i64]
        ensures { result.now ≡ self.now.weights }
    {
        self.weights.as_slice()
    }

    /// The needs, each the item that needs and the item that is needed.
    pub(crate) fn pairs(&self) -> &[(u32, u32)]
        ensures { result.now ≡ self.now.needs }
    {
        self.needs.as_slice()
    }
}
