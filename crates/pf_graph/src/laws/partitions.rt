//! Lists of labels, and sums over edges taken part by part.

ghost use Rattle.pf_graph.specs.Laws.{PartsAreGreatestLabel, OneListPerPartition, SamePartitionHasParts, SamePartitionIsCrossed, SamePartitionHasEdges, FinerHasParts, PartsBoundTotal, PartsGiveTotal, InsideIsSupermodular, SizeIsModular, RuleForEach};

/// By the label rule the number of parts is the greatest label, and each partition has just one list of labels.
pub fn label_rule()
    ensures parts { PartsAreGreatestLabel }
    ensures list { OneListPerPartition }
    ensures each { RuleForEach }
{}

/// Two lists in which the same vertices have equal labels have as many parts, and are crossed by the same edges.
pub fn same_partition()
    ensures parts { SamePartitionHasParts }
    ensures crossing { SamePartitionIsCrossed }
    ensures edges { SamePartitionHasEdges }
{}

/// A partition that refines another has as many parts or more.
pub fn finer_has_parts()
    ensures { FinerHasParts }
{}

/// Where the numbers inside each part are at most `p (size - 1)`, all numbers together are at most those of the edges that
/// cross and `p (nodes - parts)`. With equality in each part there is equality.
pub fn sums_by_parts()
    ensures most { PartsBoundTotal }
    ensures tight { PartsGiveTotal }
{}

/// Two sides hold at most what their union and their intersection hold, and have as many vertices.
pub fn inside_is_supermodular()
    ensures inside { InsideIsSupermodular }
    ensures size { SizeIsModular }
{}
