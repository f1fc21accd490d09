//! What holds of every text: each law is the contract of a function that does nothing.

ghost use Rattle.pf_text.specs.Laws.{VerdictFromText};

/// Two verdicts that have equal texts are equal.
pub fn texts_determine_verdicts()
    ensures { VerdictFromText }
{}
