//! What holds of densest sets, each law as the contract of a function that does nothing.

ghost use Rattle.pf_dense.specs.Worked.{TiedTriangle, TriangleAlone, NoEdges, CheapVertex, DearVertex, DearVertexKept, WrongCharge, DearNumbers};
ghost use Rattle.pf_dense.specs.Laws.{CertificateImpliesDensest, ChargesCertifyDensest, OneDensest, OneDensityInLowestTerms, DenseFromText, CertifiedIsRight, SetHasLine, SetCapacity, CutIsSide};

/// What certifies a density and a set proves them best.
pub fn certificate_implies_densest()
    ensures { CertificateImpliesDensest }
{}

/// Charges that charge no vertex more than it may be charged certify the densest set.
pub fn charges_certify_densest()
    ensures { ChargesCertifyDensest }
{}

/// At most one density and one set are best.
pub fn densest_is_unique()
    ensures answer { OneDensest }
    ensures lowest { OneDensityInLowestTerms }
{}

/// The text of an answer of the right shape is the text of no other one, so the verdict on a text is `yes` for exactly the texts of right
/// answers.
pub fn texts_determine_answers()
    ensures dense { DenseFromText }
    ensures certified { CertifiedIsRight }
{}

/// The cuts of a graph's network are the sides outside which a set of vertices lies. With the weight of all edges for each vertex, less
/// twice the weight inside the set, and twice its cost times the parameter, that is the capacity of such a cut.
pub fn cuts_are_sides()
    ensures line { SetHasLine }
    ensures capacity { SetCapacity }
    ensures side { CutIsSide }
{}

/// Graphs worked by hand: four certificates, and none with one charge changed; the smaller of two sets of one density is no answer, nor
/// is the set that would be one if all costs were 1; the weight inside a set and its cost.
pub fn worked_graphs()
    ensures tied { TiedTriangle }
    ensures alone { TriangleAlone }
    ensures none { NoEdges }
    ensures cheap { CheapVertex }
    ensures dear { DearVertex }
    ensures kept { DearVertexKept }
    ensures wrong { WrongCharge }
    ensures numbers { DearNumbers }
{}
