//! Flows, cuts and labels in a network with fixed capacities.

ghost use Rattle.pf_model.specs.FlowLaws.{ValueCrossesCut, ValueIsAtMostCapacity, ValueMeetsCapacity, MeetingIsBest, GreatestMissesSink, ReachIsSmallestLeast, GreatestMeetsReach, GreatestExists, OneSmallestLeast, OneLeastValue, OneLeastSize, LabelsMakeGreatest, ActiveLabelIsBounded};

/// The value of a flow is what leaves a cut less what enters it, whichever cut it is.
pub fn value_crosses_cut()
    ensures { ValueCrossesCut }
{}

/// The value of a flow is at most the capacity of each cut.
pub fn value_is_at_most_capacity()
    ensures { ValueIsAtMostCapacity }
{}

/// The value is the capacity exactly where no residual arc leaves the cut, and both are then best.
pub fn value_meets_capacity()
    ensures exactly { ValueMeetsCapacity }
    ensures best { MeetingIsBest }
{}

/// A flow is greatest exactly where its residual graph does not reach the sink from the source.
pub fn greatest_misses_sink()
    ensures { GreatestMissesSink }
{}

/// What the residual graph of a greatest flow reaches is the smallest least cut, whichever greatest flow it is, and the
/// flow's value is its capacity.
pub fn reach_is_smallest_least()
    ensures smallest { ReachIsSmallestLeast }
    ensures meets { GreatestMeetsReach }
{}

/// Each network has a greatest flow and a smallest least cut: the greatest value is the least capacity.
pub fn greatest_exists()
    ensures { GreatestExists }
{}

/// There is one smallest least cut, one least value and one least size.
pub fn least_is_unique()
    ensures cut { OneSmallestLeast }
    ensures value { OneLeastValue }
    ensures size { OneLeastSize }
{}

/// A preflow with valid labels and no active node is a greatest flow.
pub fn labels_make_greatest()
    ensures { LabelsMakeGreatest }
{}

/// The label of an active node is at most `2 n - 2` in a network of `n` nodes.
pub fn active_label_is_bounded()
    ensures { ActiveLabelIsBounded }
{}
