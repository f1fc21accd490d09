//! What holds of all answers, as the contract of a function that does nothing.

ghost use Rattle.pf_top.specs.Laws.{VerdictIsUnique};

/// There is one right verdict for each problem and each text after it, whatever is checked.
pub fn verdict_is_unique()
    ensures { VerdictIsUnique }
{}
