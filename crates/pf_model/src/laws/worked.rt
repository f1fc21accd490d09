//! Networks worked by hand: the definitions hold of what they should, and fail where one number is changed.

ghost use Rattle.pf_model.specs.Worked.{RisingRow, SteepRow, ShutRow, FallingRow, WrongBreakpoint, WrongFlow, WrongCut, NoBreakpoint, WrongShutRow, at, FirstLine, SecondLine, ThirdLine, IsFirstBreak, FiveNodes, WrongFiveNodes};

/// Three nodes in a row: the curves of two rising networks, of one whose second arc is shut, and of a falling one.
pub fn three_nodes_in_a_row()
    ensures rising { RisingRow }
    ensures steep { SteepRow }
    ensures shut { ShutRow }
    ensures falling { FallingRow }
{}

/// With a wrong breakpoint, flow or cut, or with a breakpoint left out, none of them is certified.
pub fn three_nodes_changed()
    ensures breakpoint { WrongBreakpoint }
    ensures flow { WrongFlow }
    ensures cut { WrongCut }
    ensures left_out { NoBreakpoint }
    ensures shut { WrongShutRow }
{}

/// Five nodes and seven arcs: the lines of three cuts, the flow where the first two meet, and the whole curve, which a
/// changed number of a flow breaks.
pub fn five_nodes_and_seven_arcs()
    ensures first { FirstLine }
    ensures second { SecondLine }
    ensures third { ThirdLine }
    ensures meeting { IsFirstBreak (at 10 3) }
    ensures curve { FiveNodes 0 }
    ensures changed { WrongFiveNodes }
{}
