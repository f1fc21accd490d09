//! Laws of trees and partitions and of their texts, and graphs worked by hand. Each is the contract of a function that does nothing.

ghost use Rattle.pf_trees.specs.Laws.{NotBoth, TreesFromText, SpanningByRule};
ghost use Rattle.pf_trees.specs.Worked.{AreTwoTrees, FirstTree, SecondTree, CircleIsNoTree, SixCross, FourParts, ThreeTreesBlocked, TriangleBlocked, TwoPartsLetThrough, PairIsTwoTrees, PairIsNotThree};

/// A graph has not both `k` spanning trees without a common edge and a partition that blocks them.
pub fn not_both()
    ensures { NotBoth }
{}

/// The text of an answer of the right shape is the text of no other one: of none that tells of trees where it tells of a partition,
/// and of none with another number or another label.
pub fn texts_determine_answers()
    ensures { TreesFromText }
{}

/// To see that edges are a spanning tree it is enough to look at partitions by the label rule.
pub fn rule_is_enough()
    ensures { SpanningByRule }
{}

/// All edges between four vertices: two trees, and no three.
pub fn four_vertices()
    ensures trees { AreTwoTrees }
    ensures first { FirstTree }
    ensures second { SecondTree }
    ensures circle { CircleIsNoTree }
    ensures crossing { SixCross }
    ensures parts { FourParts }
    ensures blocked { ThreeTreesBlocked }
{}

/// Three edges between three vertices are not enough for two trees.
pub fn three_vertices()
    ensures blocked { TriangleBlocked }
    ensures let_through { TwoPartsLetThrough }
{}

/// Two edges between the same two vertices are two trees, and not three.
pub fn two_vertices()
    ensures trees { PairIsTwoTrees }
    ensures blocked { PairIsNotThree }
{}
