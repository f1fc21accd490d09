//! The curve of a monotone network.

ghost use Rattle.pf_model.specs.CurveLaws.{CutsAreOfNetwork, CertificateImpliesCurve, LeastPartsAreCurve, PointsAreInside, CurveCovers, CurveIsShort, OneCurve, OneCurveInLowestTerms, PointOfGreatest};

/// The cuts of a parametric network are those of the network that it is at any parameter.
pub fn cuts_are_of_network()
    ensures { CutsAreOfNetwork }
{}

/// What certifies a curve proves it: a few comparisons at its points stand for least cuts at every parameter.
pub fn certificate_implies_curve()
    ensures { CertificateImpliesCurve }
{}

/// Cuts that are least between neighbouring points, with slopes that fall strictly, are a curve once each is the smallest
/// least cut at some parameter, whichever: it is then the smallest at its own point, and neighbours nest.
pub fn least_parts_are_curve()
    ensures { LeastPartsAreCurve }
{}

/// The points of a curve lie in the interval, and for each parameter of the interval the cut between its neighbouring
/// points is least.
pub fn curve_covers_interval()
    ensures points { PointsAreInside }
    ensures covers { CurveCovers }
{}

/// A network of `n` nodes has at most `n - 2` breakpoints.
pub fn curve_is_short()
    ensures { CurveIsShort }
{}

/// A network has one curve: two have the same cuts and equal points, and the same points where these are in lowest terms.
pub fn curve_is_unique()
    ensures one { OneCurve }
    ensures lowest { OneCurveInLowestTerms }
{}

/// A greatest flow at a parameter and what its residual graph reaches are a point of the curve.
pub fn point_from_greatest_flow()
    ensures { PointOfGreatest }
{}
