// Values that stand twice in a text: once as what follows from them.
ghost use Rattle.std.specs.Prelude.{◌≡◌, ◌↔◌, ◌++◌, IsTrue};
ghost use Rattle.pf_format.specs.PairLaws.{derived_one};

use crate::format::Format;
use pf_io::{Failed, Printer, Sink};
use pf_lines::{AnswerBad, Exact};
use std::alloc::Global;

/// What follows from a value, as the number of parts of a partition.
pub trait Derive {
    /// What it follows from.
    type From;

    /// What follows.
    type To: Drop;

    /// What follows from a value.
    ghost derived: { Self → Self.From → Self.To };

    /// What follows from the value.
    fn derive(&self, from: &Self::From) -> Self::To
        ensures { result ≡ derived self.now from.now };

    /// Whether this is what follows from the value.
    fn agrees(&self, to: &Self::To, from: &Self::From) -> bool
        ensures { IsTrue result ↔ (to.now ≡ derived self.now from.now) };
}

/// A format of what follows from a value, and the format of the value after it.
#[derive(Clone, Copy)]
pub struct Derived<F, D, G> {
    pub front: F,
    pub by: D,
    pub format: G,
}

impl<F: Format, G: Format, D: Derive<From = G::Value, To = F::Value>> Format for Derived<F, D, G> {
    type Value = G::Value;

    ghost text = { λ f x. F.text f.front (D.derived f.by x) ++ G.text f.format x };

    ghost shape = { λ f x. F.shape f.front (D.derived f.by x) × G.shape f.format x };

    ghost one = { λ f. derived_one (F.text f.front) (F.shape f.front) (D.derived f.by) (G.text f.format) (G.shape f.format) (F.one f.front) (G.one f.format) };

    fn print<K: Sink>(&self, out: &mut Printer<'_, K>, value: &G::Value) -> Result<(), Failed> {
        let front = self.by.derive(value);
        self.front.print(out, &front)?;
        self.format.print(out, value)
    }

    fn take(&self, alloc: Global, source: &mut Exact<'_>) -> Result<G::Value, AnswerBad> {
        let front = self.front.take(alloc, source)?;
        let value = self.format.take(alloc, source)?;
        if !self.by.agrees(&front, &value) {
            return Err(AnswerBad::NotText);
        }
        Ok(value)
    }
}
