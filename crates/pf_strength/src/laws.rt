//! Laws of the strength.

ghost use Rattle.pf_strength.specs.StrengthLaws.{CertificateIsStrength, StrengthFromText, CertifiedIsRight, StrengthIsUnique, LevelIsUnique};
ghost use Rattle.pf_strength.specs.Worked.{TriangleIsCertified, TriangleText, RaisedPastWeight, ChargedRoot, LoosePart, PairsAreCertified, OnePart, HeavyIsCertified, FirstEdgeCuts, SecondEdgeCuts};

/// The certificate proves that the level is the strength: no partition into at least two parts has a smaller ratio.
pub fn certificate_is_strength()
    ensures { CertificateIsStrength }
{}

/// The text of an answer of the right shape is the text of no other one, so the verdict on a text is `yes` for exactly the
/// texts of right answers.
pub fn texts_determine_answers()
    ensures strength { StrengthFromText }
    ensures certified { CertifiedIsRight }
{}

/// A graph has one strength, whichever partitions attain it, so two right answers have the same level. Their partitions may differ: in a
/// row of two edges of one weight both cuts attain it.
pub fn strength_is_unique()
    ensures strength { StrengthIsUnique }
    ensures level { LevelIsUnique }
    ensures first { FirstEdgeCuts }
    ensures second { SecondEdgeCuts }
{}

/// Strengths worked by hand: certificates of a triangle, of two edges that are not connected and of one edge of the greatest
/// weight, and the text of the first. None with an edge raised past its weight, a root that is charged, a sum that the vector
/// does not meet, or one part.
pub fn worked_strengths()
    ensures triangle { TriangleIsCertified }
    ensures text { TriangleText }
    ensures raised { RaisedPastWeight }
    ensures charged { ChargedRoot }
    ensures loose { LoosePart }
    ensures pairs { PairsAreCertified }
    ensures one { OnePart }
    ensures heavy { HeavyIsCertified }
{}
