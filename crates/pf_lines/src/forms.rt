// The forms of lines, as data.
ghost use Rattle.std.specs.Prelude.{◌≡◌, ◌≤◌, length, map, true, false};
ghost use Rattle.pf_lines.specs.Patterns.{pattern_of};

use smallvec::SmallVec;
use std::alloc::Global;
use std::marker::Model;

/// How many fields a form may have at most.
pub const MOST_FIELDS: usize = 8;

/// What a field has to be.
#[derive(Clone, Copy)]
pub enum Pattern {
    /// This word.
    Word(&'static [u8]),
    /// A number from the one to the other.
    Number(i64, i64),
}

impl Default for Pattern {
    ghost use Rattle.std.specs.Prelude.{[]};
    ghost use Rattle.pf_text.specs.Kinds.{word};

    ghost is_default = { λ p. pattern_of p ≡ word [] };

    /// The empty word, which no field is.
    fn default() -> Pattern {
        Pattern::Word(b"")
    }
}

// These patterns, in a list that never spills.
fn kept(alloc: Global, patterns: &[Pattern]) -> SmallVec<Pattern, MOST_FIELDS>
    requires { length patterns.now ≤ 8 }
    ensures { result.items ≡ patterns.now }
{
    let mut kept = SmallVec::new(alloc);
    'patterns: for pattern in patterns {
        kept.push_reserved(*pattern);
    }
    kept
}

/// A form of line: what its fields have to be, and whether the header counts it.
#[derive(Drop)]
pub struct LineForm {
    patterns: SmallVec<Pattern, MOST_FIELDS>,
    is_counted: bool,
}

impl Model for LineForm {
    ghost use Rattle.std.specs.Prelude.{◌≤◌, length, map};
    ghost use Rattle.pf_lines.specs.Patterns.{pattern_of};
    ghost use Rattle.pf_lines.specs.Shapes.{Shape};

    ghost Value = { Shape };

    ghost view = { λ form. record { patterns = map pattern_of form.patterns.items; is_counted = form.is_counted } };

    ghost invariant = { λ form. length form.patterns.items ≤ 8 };
}

impl LineForm {
    /// A form whose lines the header does not count.
    pub fn new(alloc: Global, patterns: &[Pattern]) -> LineForm
        requires { length patterns.now ≤ 8 }
        ensures { result ≡ record { patterns = map pattern_of patterns.now; is_counted = false } }
    {
        LineForm {
            patterns: kept(alloc, patterns),
            is_counted: false,
        }
    }

    /// A form whose lines the header counts.
    pub fn counted(alloc: Global, patterns: &[Pattern]) -> LineForm
        requires { length patterns.now ≤ 8 }
        ensures { result ≡ record { patterns = map pattern_of patterns.now; is_counted = true } }
    {
        LineForm {
            patterns: kept(alloc, patterns),
            is_counted: true,
        }
    }

    /// What the fields have to be.
    pub fn patterns(&self) -> &[Pattern]
        ensures are { map pattern_of result.now ≡ self.now.patterns }
        ensures few { length result.now ≤ 8 }
    {
        self.patterns.as_slice()
    }

    /// Whether the header counts the line.
    pub fn is_counted(&self) -> bool
        ensures { result ≡ self.now.is_counted }
    {
        self.is_counted
    }
}
