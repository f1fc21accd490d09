//! What holds of fair shares, each law as the contract of a function that does nothing.

ghost use Rattle.pf_share.specs.Worked.{NarrowArc, NarrowShares, OneLevel, NotFull, NoWayOut, Thirds};
ghost use Rattle.pf_share.specs.Laws.{CertificateImpliesFair, CurveIsRead, OneFairVector, AcceptedIsBounded, SharesFromText, FewLevels, CertifiedFromText, CertifiedIsRight};

/// What certifies shares proves them fair.
pub fn certificate_implies_fair()
    ensures { CertificateImpliesFair }
{}

/// At most one vector of shares is fair.
pub fn fair_is_unique()
    ensures { OneFairVector }
{}

/// Networks worked by hand: a source behind a narrow arc and one that takes the rest, a source with no way out, and levels in
/// thirds. The first common level is not fair, and a number that leaves part of a full arc free certifies nothing.
pub fn worked_networks()
    ensures narrow { NarrowArc }
    ensures shares { NarrowShares }
    ensures one { OneLevel }
    ensures free { NotFull }
    ensures stuck { NoWayOut }
    ensures thirds { Thirds }
{}

/// What is read off a curve of the network is certified.
pub fn curve_is_read()
    ensures { CurveIsRead }
{}

/// A text of the kind `share` that is accepted gives a network within its limits.
pub fn accepted_networks_are_bounded()
    ensures { AcceptedIsBounded }
{}

/// The text of a certified answer is the text of no other answer of the right shape: it has no more levels than there are nodes.
/// The same holds of every answer of the right shape with fewer than 10^64 levels. And the verdict on a text is `yes` for exactly
/// the texts of right answers.
pub fn texts_determine_answers()
    ensures shares { SharesFromText }
    ensures few { FewLevels }
    ensures only { CertifiedFromText }
    ensures certified { CertifiedIsRight }
{}
