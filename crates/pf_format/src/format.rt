// What a format is, and formats one after another.
ghost use Rattle.std.specs.Prelude.{◌≡◌, ◌++◌, ℕ, List, false};
ghost use Rattle.pf_io.specs.Printing.{Adds, is_spent};
ghost use Rattle.pf_format.specs.Format.{Reads, ReadsWhole, HasOneReading};
ghost use Rattle.pf_format.specs.PairLaws.{word_one, pair_one, marked_one, ended_one};

use pf_io::{Failed, Printer, Sink};
use pf_lines::{AnswerBad, Exact, take_end, take_word};
use std::alloc::Global;

/// A piece of a text in which a value has one spelling.
pub trait Format {
    /// What is spelled.
    type Value: Drop;

    /// How a value is spelled.
    ghost text: { Self → Self.Value → List ℕ };

    /// Which values have the shape.
    ghost shape: { Self → Self.Value → Type 0 };

    /// Prints the value. It takes no memory.
    fn print<K: Sink>(&self, out: &mut Printer<'_, K>, value: &Self::Value) -> Result<(), Failed>
        requires { is_spent out.old ≡ false }
        ensures { Adds out.old out.new (text self.now value.now) result };

    /// Takes the value of the shape that is spelled in front.
    fn take(&self, alloc: Global, source: &mut Exact<'_>) -> Result<Self::Value, AnswerBad>
        ensures { Reads (text self.now) (shape self.now) source.old source.new result };

    /// In front of a text stands at most one value of the shape.
    ghost one: { (f : Self) → HasOneReading (text f) (shape f) };
}

/// The value of the shape whose text these bytes are: there is at most one. `NotText` comes exactly where there is none.
pub fn read_whole<F: Format>(alloc: Global, format: &F, text: &[u8]) -> Result<F::Value, AnswerBad>
    ensures { ReadsWhole (F.text format.now) (F.shape format.now) text.now result }
{
    let mut rest = Exact::new(text);
    let value = format.take(alloc, &mut rest)?;
    take_end(&rest)?;
    Ok(value)
}

/// A word.
#[derive(Clone, Copy)]
pub struct Word<'a> {
    pub bytes: &'a [u8],
}

impl<'a> Format for Word<'a> {
    type Value = ();

    ghost text = { λ f u. f.bytes.now };

    ghost shape = { λ f u. Unit {0} };

    ghost one = { λ f. word_one f.bytes.now };

    fn print<K: Sink>(&self, out: &mut Printer<'_, K>, _value: &()) -> Result<(), Failed> {
        out.word(self.bytes)
    }

    fn take(&self, _alloc: Global, source: &mut Exact<'_>) -> Result<(), AnswerBad> {
        take_word(source, self.bytes)?;
        Ok(())
    }
}

/// One format after another.
#[derive(Clone, Copy)]
pub struct Then<F, G> {
    pub first: F,
    pub second: G,
}

impl<F: Format, G: Format> Format for Then<F, G> {
    type Value = (F::Value, G::Value);

    ghost text = { λ f p. F.text f.first p.0 ++ G.text f.second p.1 };

    ghost shape = { λ f p. F.shape f.first p.0 × G.shape f.second p.1 };

    ghost one = { λ f. pair_one (F.text f.first) (F.shape f.first) (G.text f.second) (G.shape f.second) (F.one f.first) (G.one f.second) };

    fn print<K: Sink>(
        &self,
        out: &mut Printer<'_, K>,
        value: &(F::Value, G::Value),
    ) -> Result<(), Failed> {
        self.first.print(out, &value.0)?;
        self.second.print(out, &value.1)
    }

    fn take(
        &self,
        alloc: Global,
        source: &mut Exact<'_>,
    ) -> Result<(F::Value, G::Value), AnswerBad> {
        let first = self.first.take(alloc, source)?;
        let second = self.second.take(alloc, source)?;
        Ok((first, second))
    }
}

/// A word, and a format after it.
#[derive(Clone, Copy)]
pub struct Marked<'a, F> {
    pub word: &'a [u8],
    pub format: F,
}

impl<'a, F: Format> Format for Marked<'a, F> {
    type Value = F::Value;

    ghost text = { λ f x. f.word.now ++ F.text f.format x };

    ghost shape = { λ f. F.shape f.format };

    ghost one = { λ f. marked_one f.word.now (F.text f.format) (F.shape f.format) (F.one f.format) };

    fn print<K: Sink>(&self, out: &mut Printer<'_, K>, value: &F::Value) -> Result<(), Failed> {
        out.word(self.word)?;
        self.format.print(out, value)
    }

    fn take(&self, alloc: Global, source: &mut Exact<'_>) -> Result<F::Value, AnswerBad> {
        take_word(source, self.word)?;
        let value = self.format.take(alloc, source)?;
        Ok(value)
    }
}

/// A format, and a word after it.
#[derive(Clone, Copy)]
pub struct Ended<'a, F> {
    pub format: F,
    pub word: &'a [u8],
}

impl<'a, F: Format> Format for Ended<'a, F> {
    type Value = F::Value;

    ghost text = { λ f x. F.text f.format x ++ f.word.now };

    ghost shape = { λ f. F.shape f.format };

    ghost one = { λ f. ended_one f.word.now (F.text f.format) (F.shape f.format) (F.one f.format) };

    fn print<K: Sink>(&self, out: &mut Printer<'_, K>, value: &F::Value) -> Result<(), Failed> {
        self.format.print(out, value)?;
        out.word(self.word)
    }

    fn take(&self, alloc: Global, source: &mut Exact<'_>) -> Result<F::Value, AnswerBad> {
        let value = self.format.take(alloc, source)?;
        take_word(source, self.word)?;
        Ok(value)
    }
}
