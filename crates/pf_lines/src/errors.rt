// Why readers refuse.
ghost use Rattle.std.specs.Prelude.{◌≡◌};
ghost use Rattle.pf_lines.specs.Gathering.{line_refusal};

use pf_frame::NoMemory;
use pf_text::{RuleKind, TextBad};
use std::alloc::{AllocError, AllocFailed};
use thiserror::Error;

/// Why a reader of problems gives none.
#[derive(Clone, Copy, Debug, PartialEq, Eq, Error)]
pub enum ReadBad {
    /// The text is refused: the first line that is refused, and why.
    #[error("the text is refused")]
    Text(TextBad),
    /// Memory was not found.
    #[error("no memory")]
    NoMemory,
}

impl From<NoMemory> for ReadBad {
    ghost use Rattle.pf_lines.specs.declared.errors.ReadBad.TheVariants.{NoMemory};

    ghost from_gives = { λ _ bad. bad ≡ NoMemory };

    fn from(_error: NoMemory) -> ReadBad {
        ReadBad::NoMemory
    }
}

impl From<AllocError> for ReadBad {
    ghost use Rattle.pf_lines.specs.declared.errors.ReadBad.TheVariants.{NoMemory};

    ghost from_gives = { λ _ bad. bad ≡ NoMemory };

    fn from(_error: AllocError) -> ReadBad {
        ReadBad::NoMemory
    }
}

impl<T: Drop> From<AllocFailed<T>> for ReadBad {
    ghost use Rattle.pf_lines.specs.declared.errors.ReadBad.TheVariants.{NoMemory};

    ghost from_gives = { λ _ bad. bad ≡ NoMemory };

    fn from(_error: AllocFailed<T>) -> ReadBad {
        ReadBad::NoMemory
    }
}

/// The piece that was to be taken does not stand in front of the text. Calls that take no memory can fail in no other way.
#[derive(Clone, Copy, Debug, PartialEq, Eq, Error)]
#[error("not there")]
pub struct NotThere;

/// Why a reader of answers gives none.
#[derive(Clone, Copy, Debug, PartialEq, Eq, Error)]
pub enum AnswerBad {
    /// No answer of the right shape has these bytes as its text.
    #[error("not the text of an answer")]
    NotText,
    /// Memory was not found.
    #[error("no memory")]
    NoMemory,
}

impl From<NoMemory> for AnswerBad {
    ghost use Rattle.pf_lines.specs.declared.errors.AnswerBad.TheVariants.{NoMemory};

    ghost from_gives = { λ _ bad. bad ≡ NoMemory };

    fn from(_error: NoMemory) -> AnswerBad {
        AnswerBad::NoMemory
    }
}

impl From<AllocError> for AnswerBad {
    ghost use Rattle.pf_lines.specs.declared.errors.AnswerBad.TheVariants.{NoMemory};

    ghost from_gives = { λ _ bad. bad ≡ NoMemory };

    fn from(_error: AllocError) -> AnswerBad {
        AnswerBad::NoMemory
    }
}

impl<T: Drop> From<AllocFailed<T>> for AnswerBad {
    ghost use Rattle.pf_lines.specs.declared.errors.AnswerBad.TheVariants.{NoMemory};

    ghost from_gives = { λ _ bad. bad ≡ NoMemory };

    fn from(_error: AllocFailed<T>) -> AnswerBad {
        AnswerBad::NoMemory
    }
}

impl From<NotThere> for AnswerBad {
    ghost use Rattle.pf_lines.specs.declared.errors.AnswerBad.TheVariants.{NotText};

    ghost from_gives = { λ _ bad. bad ≡ NotText };

    fn from(_error: NotThere) -> AnswerBad {
        AnswerBad::NotText
    }
}

/// Why a line that has a form, or the line `end`, is not taken.
#[derive(Clone, Copy, Debug, PartialEq, Eq, Error)]
pub enum LineBad {
    /// The line breaks this rule of its kind.
    #[error("a rule is broken")]
    Broken(RuleKind),
    /// Memory was not found.
    #[error("no memory")]
    NoMemory,
}

impl From<RuleKind> for LineBad {
    ghost use Rattle.pf_lines.specs.declared.errors.LineBad.TheVariants.{Broken};

    ghost from_gives = { λ rule bad. bad ≡ Broken rule };

    fn from(rule: RuleKind) -> LineBad {
        LineBad::Broken(rule)
    }
}

impl From<NoMemory> for LineBad {
    ghost use Rattle.pf_lines.specs.declared.errors.LineBad.TheVariants.{NoMemory};

    ghost from_gives = { λ _ bad. bad ≡ NoMemory };

    fn from(_error: NoMemory) -> LineBad {
        LineBad::NoMemory
    }
}

impl From<AllocError> for LineBad {
    ghost use Rattle.pf_lines.specs.declared.errors.LineBad.TheVariants.{NoMemory};

    ghost from_gives = { λ _ bad. bad ≡ NoMemory };

    fn from(_error: AllocError) -> LineBad {
        LineBad::NoMemory
    }
}

impl<T: Drop> From<AllocFailed<T>> for LineBad {
    ghost use Rattle.pf_lines.specs.declared.errors.LineBad.TheVariants.{NoMemory};

    ghost from_gives = { λ _ bad. bad ≡ NoMemory };

    fn from(_error: AllocFailed<T>) -> LineBad {
        LineBad::NoMemory
    }
}

/// The refusal of the line of this number.
pub fn at_line(line: u64, bad: LineBad) -> ReadBad
    ensures { result ≡ line_refusal line bad }
{
    match bad {
        LineBad::Broken(rule) => ReadBad::Text(TextBad::Rule(line, rule)),
        LineBad::NoMemory => ReadBad::NoMemory,
    }
}
