//! Texts of graphs.

ghost use Rattle.pf_graph.specs.TextLaws.{AcceptedIsWithin};

/// A text of the kind `graph` that is accepted gives a graph within the limits of what is asked.
pub fn accepted_graphs_are_within()
    ensures { AcceptedIsWithin }
{}
