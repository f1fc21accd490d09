// The family of the smallest least cuts of a rising network, over which the envelope is found.
ghost use Rattle.std.specs.Prelude.{◌≡◌, List, Bool, length, IfOk};
ghost use Rattle.pf_model.specs.Fraction.{Fraction};
ghost use Rattle.pf_model.specs.Line.{AffineLine};
ghost use Rattle.pf_model.specs.Cut.{IsSmallestLeast};
ghost use Rattle.pf_model.specs.Network.{Network, IsInInterval, line_of, network_at};
ghost use Rattle.pf_model.proofs.Certificate.{at_most_trans};
ghost use Rattle.pf_envelope.specs.Envelope.{IsLeastAt};
ghost use Rattle.pf_curve.specs.Cuts.{IsCutFound, IsLineOfCut, IsServed};

use crate::between::{Opened, find_between};
use crate::finder::Finder;
use pf_envelope::Family;
use pf_frame::NoMemory;
use pf_rat::{Line, Rat};
use std::alloc::Global;

/// The smallest least cut at a parameter, kept with that parameter and with its line.
#[derive(Drop)]
pub struct Cut {
    pub at: Rat,
    pub line: Line,
    pub side: Vec<bool>,
}

/// The cuts of a network, the room in which the first two are found, and how much was opened for the others.
#[derive(Drop)]
pub struct Cuts<'a> {
    pub finder: Finder<'a>,
    pub opened: Opened,
}

// Writes the smallest least cut at a parameter of the interval, and tells its line. `side` is indexed by nodes.
fn write_cut(finder: &mut Finder<'_>, at: &Rat, side: &mut [bool]) -> Line
    requires inside { IsInInterval finder.old at.now }
    requires nodes { length side.old ≡ finder.old.nodes }
    ensures smallest { IsSmallestLeast (network_at finder.old at.now) side.new }
    ensures line { result ≡ line_of finder.old side.new }
    ensures same { finder.new ≡ finder.old }
{
    finder.write_cut(at, side);
    finder.net().cut_line(side)
}

// The smallest least cut at a parameter of the interval.
fn find_cut(alloc: Global, finder: &mut Finder<'_>, at: &Rat) -> Result<Cut, NoMemory>
    requires { IsInInterval finder.old at.now }
    ensures found { IfOk result (λ m. IsCutFound finder.old m.at m.line m.side.items) }
    ensures parameter { IfOk result (λ m. m.at ≡ at.now) }
    ensures least { IfOk result (λ m. IsLeastAt (IsLineOfCut finder.old) m.line at.now) }
    ensures same { finder.new ≡ finder.old }
{
    let nodes = finder.net().frame().nodes() as usize;
    let mut side = vec![in alloc; false; nodes]?;
    let line = write_cut(finder, at, &mut side);
    Ok(Cut {
        at: *at,
        line,
        side,
    })
}

impl<'a> Family for Cuts<'a> {
    type Member = Cut;

    ghost Subject = { Network };

    ghost subject = { λ f. f.finder };

    ghost line_of = { λ s m. m.line };

    ghost member = { λ s m. IsCutFound s m.at m.line m.side.items };

    ghost has = { λ s line. IsLineOfCut s line };

    ghost serves = { λ s x. IsServed s x };

    ghost found = { λ s m x. m.at ≡ x };

    fn line(&self, m: &Cut) -> Line {
        m.line
    }

    fn end(&mut self, alloc: Global, at: &Rat) -> Result<Cut, NoMemory> {
        find_cut(alloc, &mut self.finder, at)
    }

    fn least(
        &mut self,
        alloc: Global,
        at: &Rat,
        left: &Cut,
        _left_at: &Rat,
        right: &Cut,
        _right_at: &Rat,
    ) -> Result<Cut, NoMemory> {
        let q = at.q();
        prove!(q >= 1);
        let net = self.finder.net();
        find_between(
            alloc,
            net,
            &mut self.opened,
            at,
            &left.line,
            left.side.as_slice(),
            right.side.as_slice(),
        )
    }

    fn twin(&self, alloc: Global, m: &Cut) -> Result<Cut, NoMemory> {
        let side = Vec::from_slice(alloc, m.side.as_slice())?;
        Ok(Cut {
            at: m.at,
            line: m.line,
            side,
        })
    }

    ghost lines_of_members = { λ s m h. record {
      side = m.side.items;
      cut = record { full = h.smallest.least.cut.full; with_source = h.smallest.least.cut.with_source; without_sink = h.smallest.least.cut.without_sink };
      line_is = h.line_is;
    } };

    ghost serves_parameters = { λ s x h. h.inside.parameter };

    ghost serves_between = { λ s x y z h from to order order'. record {
      rising = from.rising;
      inside = record {
        parameter = h;
        low = at_most_trans s.low x z from.low from.inside.parameter h from.inside.low order;
        high = at_most_trans z y s.high h to.inside.parameter to.high order' to.inside.high;
      };
      low = from.low;
      high = from.high;
    } };
}
