//! What holds of every generated text and of every summary: each law is the contract of a function that does nothing.

ghost use Rattle.pf_gen.specs.Laws.{GeneratedIsAccepted, NetworkFromText, SummaryFromText, SummaryIsUnique, SummaryTextIsUnique};

/// Every text of a network that is drawn with 3 to 1000 nodes and at most 10000 arcs is accepted as a text of the kind `par`,
/// gives this network, and has nothing after its line `end`.
pub fn generated_texts_are_accepted()
    ensures { GeneratedIsAccepted }
{}

/// Networks that are drawn with 3 to 1000 nodes and at most 10000 arcs are the same where their texts are, whatever the seeds. The
/// text of a summary whose numbers have at most 64 digits is the text of no other one of that kind.
pub fn texts_determine_answers()
    ensures network { NetworkFromText }
    ensures summary { SummaryFromText }
{}

/// There is one summary of each monotone network, and for each seed, with 3 to 1000 nodes and at most 10000 arcs, one right text.
pub fn summary_is_unique()
    ensures summary { SummaryIsUnique }
    ensures text { SummaryTextIsUnique }
{}
