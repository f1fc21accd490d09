//! Cuts and capacities of a monotone network from one parameter to another.

ghost use Rattle.pf_model.specs.NestingLaws.{CapacityIsLine, CapacityBetween, ProperInInterval, LeastBetween, IntersectionHas, UnionHas, IntersectionIsLeast, UnionIsLeast, RisingNests, FallingNests, RisingSlopes, FallingSlopes};

/// The capacity of a side at `p/q`, in units of `1/q`, is the value of the side's line there.
pub fn capacity_is_line()
    ensures { CapacityIsLine }
{}

/// A capacity that is not below 0 at both ends of the interval is not below 0 between them, so a monotone network is a
/// proper one at each parameter of its interval.
pub fn capacity_stays()
    ensures arc { CapacityBetween }
    ensures network { ProperInInterval }
{}

/// A cut that is least at two parameters is least between them.
pub fn least_stays()
    ensures { LeastBetween }
{}

/// The intersection and the union of two least cuts are least cuts.
pub fn least_cuts_form_a_lattice()
    ensures both { IntersectionHas }
    ensures either { UnionHas }
    ensures intersection { IntersectionIsLeast }
    ensures union { UnionIsLeast }
{}

/// In a rising network the smallest least cut at a parameter is contained in each least cut at each greater one; in a
/// falling network in each least cut at each lower one.
pub fn least_cuts_nest()
    ensures rising { RisingNests }
    ensures falling { FallingNests }
{}

/// Of two cuts of a rising network that contain each other, the larger has no greater slope; in a falling network it has
/// no smaller one.
pub fn slopes_follow_containment()
    ensures rising { RisingSlopes }
    ensures falling { FallingSlopes }
{}
