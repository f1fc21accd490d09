//! What holds of every text of a network, and of its answers: each law is the contract of a function that does nothing.

ghost use Rattle.pf_par.specs.Laws.{AcceptedIsMonotone, AcceptedIsTextNetwork, PointFromText, CurveFromText, VerdictIsUnique, CertifiedIsRight, CutOfPointIsUnique, CutsOfCurveAreUnique};

/// A text of the kind `par` that is accepted gives a monotone network within the limits of texts: 2 to 1000 nodes, at most
/// 10000 arcs, coefficients and the two numbers of each end of the interval at most 1000000000 in size, and these ends in
/// lowest terms.
pub fn accepted_networks_are_monotone()
    ensures monotone { AcceptedIsMonotone }
    ensures bounds { AcceptedIsTextNetwork }
{}

/// Two answers of the right shape for one network that have equal texts are equal.
pub fn texts_determine_answers()
    ensures point { PointFromText }
    ensures curve { CurveFromText }
{}

/// For each text after a network there is one right verdict.
pub fn verdict_is_unique()
    ensures { VerdictIsUnique }
{}

/// A text certifies the curve of a monotone network exactly where it is a right answer to `curve`.
pub fn certified_texts_are_right_answers()
    ensures { CertifiedIsRight }
{}

/// All but the flows is the same in two right answers: the parameter and the cut at one parameter; the points and the cuts of a curve.
pub fn cuts_are_unique()
    ensures point { CutOfPointIsUnique }
    ensures curve { CutsOfCurveAreUnique }
{}
