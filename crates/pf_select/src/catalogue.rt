// Parts with costs, products with gains, and which product needs which part.
ghost use Rattle.std.specs.Prelude.{◌≡◌, pos, length, map, IfOk};
ghost use Rattle.pf_select.specs.Problem.{IsBoundedProblem};

use pf_frame::NoMemory;
use std::alloc::Global;
use std::marker::Model;

/// Parts with their costs, products with their gains, and the parts that each product needs. Parts and products are numbered from 0.
#[derive(Drop)]
pub struct Catalogue {
    costs: Vec<u32>,
    gains: Vec<u32>,
    needs: Vec<(u32, u32)>,
}

impl Model for Catalogue {
    ghost use Rattle.std.specs.Prelude.{map, pos};
    ghost use Rattle.pf_select.specs.Problem.{SelectionProblem, IsBoundedProblem};

    ghost Value = { SelectionProblem };

    ghost view = { λ x. record { costs = map pos x.costs.items; gains = map pos x.gains.items; needs = x.needs.items } };

    ghost invariant = { λ x. IsBoundedProblem (record { costs = map pos x.costs.items; gains = map pos x.gains.items; needs = x.needs.items }) };
}

impl Catalogue {
    /// The catalogue of these costs of parts, gains of products, and needs, each the number of a product and of a part that it needs.
    /// Costs and gains are from 1 to 1000000; there are at most 500 parts, 5000 products and 10000 needs.
    pub fn build(
        alloc: Global,
        costs: &[u32],
        gains: &[u32],
        needs: &[(u32, u32)],
    ) -> Result<Catalogue, NoMemory>
        requires { IsBoundedProblem (record { costs = map pos costs.now; gains = map pos gains.now; needs = needs.now }) }
        ensures { IfOk result (λ c. c ≡ record { costs = map pos costs.now; gains = map pos gains.now; needs = needs.now }) }
    {
        Ok(Catalogue {
            costs: Vec::from_slice(alloc, costs)?,
            gains: Vec::from_slice(alloc, gains)?,
            needs: Vec::from_slice(alloc, needs)?,
        })
    }

    /// The catalogue of these costs, gains and needs, all within the limits. It takes no memory.
    pub(crate) fn from_vecs(costs: Vec<u32>, gains: Vec<u32>, needs: Vec<(u32, u32)>) -> Catalogue
        requires { IsBoundedProblem (record { costs = map pos costs.items; gains = map pos gains.items; needs = needs.items }) }
        ensures { result ≡ record { costs = map pos costs.items; gains = map pos gains.items; needs = needs.items } }
    {
        Catalogue {
            costs,
            gains,
            needs,
        }
    }

    /// The number of parts.
    pub fn parts(&self) -> u32
        ensures value { result ≡ length self.now.costs }
        ensures limits { IsBoundedProblem self.now }
    {
        self.costs.len() as u32
    }

    /// The number of products.
    pub fn products(&self) -> u32
        ensures { result ≡ length self.now.gains }
    {
        self.gains.len() as u32
    }

    /// The number of needs.
    pub fn needs(&self) -> u32
        ensures { result ≡ length self.now.needs }
    {
        self.needs.len() as u32
    }

    /// The costs of the parts.
    pub(crate) fn costs(&self) -> &[u32]
        ensures { self.now.costs ≡ map pos result.now }
    {
        self.costs.as_slice()
    }

    /// The gains of the products.
    pub(crate) fn gains(&self) -> &[u32]
        ensures { self.now.gains ≡ map pos result.now }
    {
        self.gains.as_slice()
    }

    /// The needs, each the product that needs and the part that is needed.
    pub(crate) fn pairs(&self) -> &[(u32, u32)]
        ensures { result.now ≡ self.now.needs }
    {
        self.needs.as_slice()
    }
}
