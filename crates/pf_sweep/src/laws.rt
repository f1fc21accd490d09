// Laws about the definitions: each is the contract of a function that does nothing.
ghost use Rattle.pf_sweep.specs.Laws.{FewRelabellings, RowsFromText, RowOfMirror, RowsOfMirror, RowsAreUnique, SweepIsUnique};

/// Over any list of steps of one sweep no label falls, and there are at most `(n - 2)(2n - 1)` relabellings, whatever the number of
/// parameters. `n` is the number of nodes.
pub fn few_relabellings()
    ensures { FewRelabellings }
{}

/// Two lists of rows of the right shape that have equal texts are equal.
pub fn texts_determine_rows()
    ensures { RowsFromText }
{}

/// A right row of a network, turned, is a right row of its mirror. The rows of equal steps through the network, turned and in
/// reverse order, are those through the mirror.
pub fn rows_of_mirror()
    ensures one { RowOfMirror }
    ensures all { RowsOfMirror }
{}

/// There is one list of right rows for each network and number of steps, and one right text.
pub fn rows_are_unique()
    ensures rows { RowsAreUnique }
    ensures text { SweepIsUnique }
{}
