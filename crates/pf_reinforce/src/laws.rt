//! Laws of reinforcements.

ghost use Rattle.pf_reinforce.specs.ReinforcementLaws.{CertificateIsLeast, BlockedIsNotReached, ReinforcementFromText, AnswerHasShape, CostIsUnique, BlockedIsUnique, AnswersTellTheSame, ReachesByRule, BlockedByRule};
ghost use Rattle.pf_reinforce.specs.Worked.{TriangleIsCertified, TwoPartsServe, CheapEdgeCrosses, OtherCost, DearEdge, ThresholdLeftOut, EdgeIsCertified, ZeroIsReached, ZeroIsNotBlocked, OnePartBlocksNot, TriangleText, EdgeText, PairsText};

/// The certificate proves that the numbers reach the level, and that none do for less, in whatever unit they are written.
pub fn certificate_is_least()
    ensures { CertificateIsLeast }
{}

/// Where the components of a graph block a level, nothing that is added reaches it.
pub fn blocked_is_not_reached()
    ensures { BlockedIsNotReached }
{}

/// The text of an answer of the right shape is the text of no other one, be it what is added or what blocks a level. Right answers have
/// this shape: no edge gets more than `P` times the number of vertices less one.
pub fn texts_determine_answers()
    ensures reinforcement { ReinforcementFromText }
    ensures shape { AnswerHasShape }
{}

/// Two right answers for a graph and a level tell the same level, cost and prices that occur, or the same components: all
/// reinforcements have one cost, and one partition blocks.
pub fn cost_is_unique()
    ensures cost { CostIsUnique }
    ensures blocked { BlockedIsUnique }
    ensures same { AnswersTellTheSame }
{}

/// It is enough to compare with partitions by the label rule: a level that is reached on all of them is reached, and components
/// that have as many parts as each of them that no edge crosses block the level.
pub fn rule_is_enough()
    ensures reaches { ReachesByRule }
    ensures blocked { BlockedByRule }
{}

/// Reinforcements worked by hand: certificates of a triangle with two prices, of one edge, and of two vertices without one at
/// the level 0. None with a partition that a cheaper edge crosses, another cost, a dear edge in place of a cheap one, or a
/// threshold left out; what does not block a level; and the texts of three answers.
pub fn worked_reinforcements()
    ensures triangle { TriangleIsCertified }
    ensures two { TwoPartsServe }
    ensures cheap { CheapEdgeCrosses }
    ensures cost { OtherCost }
    ensures dear { DearEdge }
    ensures left_out { ThresholdLeftOut }
    ensures edge { EdgeIsCertified }
    ensures zero { ZeroIsReached }
    ensures unblocked { ZeroIsNotBlocked }
    ensures one { OnePartBlocksNot }
    ensures triangle_text { TriangleText }
    ensures edge_text { EdgeText }
    ensures pairs_text { PairsText }
{}
