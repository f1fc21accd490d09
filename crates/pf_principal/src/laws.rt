//! Laws of the principal partition.

ghost use Rattle.pf_principal.specs.PrincipalLaws.{CertificateIsPrincipal, CertifiedIsUnique, FirstLevelIsStrength, NoStrengthApart, FirstIsComponents, PrincipalFromText, CertifiedIsRight};

/// The certificate proves that the partitions are the principal partition of the graph: each is best throughout its piece of
/// the levels, and strictly inside it is the only best one.
pub fn certificate_is_principal()
    ensures { CertificateIsPrincipal }
{}

/// The levels and the partitions of two certified answers are the same, where the levels are in lowest terms.
pub fn certified_is_unique()
    ensures { CertifiedIsUnique }
{}

/// The first partition of a principal partition has the connected components of the graph as its parts. Where there is one, the
/// first level is the strength of the graph; where there are more, its strength is 0.
pub fn first_level_is_strength()
    ensures strength { FirstLevelIsStrength }
    ensures apart { NoStrengthApart }
    ensures components { FirstIsComponents }
{}

/// The text of an answer of the right shape is the text of no other one, so the verdict on a text is `yes` for exactly the
/// texts of right answers.
pub fn texts_determine_answers()
    ensures principal { PrincipalFromText }
    ensures certified { CertifiedIsRight }
{}
