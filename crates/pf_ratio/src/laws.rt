//! What holds of the texts of answers, each law as the contract of a function that does nothing.

ghost use Rattle.pf_ratio.specs.Laws.{OneAnswer};

/// The text of an answer of the right shape is the text of no other one, whatever the two words are.
pub fn texts_determine_answers()
    ensures { OneAnswer }
{}
