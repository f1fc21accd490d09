// Prices with the best selections between them, and the charges that certify them.
ghost use Rattle.std.specs.Prelude.{◌≡◌, ◌<◌, length};
ghost use Rattle.pf_select.specs.Problem.{selection_at};
ghost use Rattle.pf_select.specs.Certificate.{charges_at};

use pf_curve::{Points, Sides};
use pf_frame::FlowTable;
use std::marker::Model;

/// The prices at which the best selection changes, the selection up to each price and the one after the last, and for each price a
/// charge on each need, in units of `1/q` of the price `p/q`. Contracts see these three lists.
#[derive(Drop)]
pub struct Schedule {
    prices: Points,
    selections: Sides,
    charges: FlowTable,
}

impl Model for Schedule {
    ghost use Rattle.pf_select.specs.Certificate.{ScheduleAnswer};

    ghost Value = { ScheduleAnswer };

    ghost view = { λ s. record { prices = s.prices; selections = s.selections; charges = s.charges } };
}

impl Schedule {
    /// The schedule of these parts, whatever they are. Selections are indexed by part, rows of charges by need.
    pub fn new(prices: Points, selections: Sides, charges: FlowTable) -> Schedule
        ensures { result ≡ record { prices = prices; selections = selections; charges = charges } }
    {
        Schedule {
            prices,
            selections,
            charges,
        }
    }

    /// The prices at which the best selection changes, rising.
    pub fn prices(&self) -> &Points
        ensures { result.now ≡ self.now.prices }
    {
        &self.prices
    }

    /// The best selection up to each price, and the one after the last. Each is indexed by part.
    pub fn selections(&self) -> &Sides
        ensures { result.now ≡ self.now.selections }
    {
        &self.selections
    }

    /// The charges at each price, indexed by need, in units of `1/q` of the price `p/q`.
    pub fn charges(&self) -> &FlowTable
        ensures { result.now ≡ self.now.charges }
    {
        &self.charges
    }

    // Selection `j`, from 0.
    pub(crate) fn selection(&self, j: usize) -> &[bool]
        requires { j < length self.now.selections }
        ensures { result.now ≡ selection_at self.now.selections j }
    {
        self.selections.get()[j].get()
    }

    // The charges at price `j`, from 0.
    pub(crate) fn charges_at(&self, j: usize) -> &[i128]
        requires { j < length self.now.charges }
        ensures { result.now ≡ charges_at self.now.charges j }
    {
        self.charges.row(j)
    }
}
