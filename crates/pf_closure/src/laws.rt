//! What holds of closures, each law as the contract of a function that does nothing.

ghost use Rattle.pf_closure.specs.Worked.{DearItem, EqualItems, SmallerClosure, CheapItem, WrongRouting, CheapNumbers, CheapLine};
ghost use Rattle.pf_closure.specs.Laws.{CertificateImpliesBest, AcceptedIsBounded, RatioFromText, CertifiedIsRight, OneLeastRatio, OneLeastRatioInLowestTerms, ClosureHasLine, ClosureCapacity, ClosureNetIsBuilt, CutIsSide, OpenCutIsDear, LeastIsClosure, SmallestIsBelow, SourceAloneIsBest};

/// What certifies a ratio and a closure proves them best.
pub fn certificate_implies_best()
    ensures { CertificateImpliesBest }
{}

/// At most one ratio and one closure are best.
pub fn best_is_unique()
    ensures answer { OneLeastRatio }
    ensures lowest { OneLeastRatioInLowestTerms }
{}

/// The side of a closure is a cut of the problem's network, and its capacity is that of the source alone with the cost of the
/// closure less the parameter times its weight.
pub fn closures_are_cuts()
    ensures line { ClosureHasLine }
    ensures capacity { ClosureCapacity }
{}

/// A text of the kind `closure` that is accepted gives items within their limits.
pub fn accepted_items_are_bounded()
    ensures { AcceptedIsBounded }
{}

/// The text of an answer of the right shape is the text of no other one, so the verdict on a text is `yes` for exactly the texts of right
/// answers.
pub fn texts_determine_answers()
    ensures ratio { RatioFromText }
    ensures certified { CertifiedIsRight }
{}

/// The network of items is a monotone one within the limits of networks.
pub fn network_is_built()
    ensures { ClosureNetIsBuilt }
{}

/// Each cut of the network is the source with a set of items. One whose items are no closure has a capacity of at least `2^56` at
/// each parameter of the interval, and the items of a least cut are a closure.
pub fn least_cuts_are_closures()
    ensures side { CutIsSide }
    ensures dear { OpenCutIsDear }
    ensures closure { LeastIsClosure }
{}

/// Where the smallest least cut at a parameter holds an item, its items have a smaller ratio; where a least cut holds none, no
/// closure has a smaller ratio.
pub fn least_cuts_tell_ratios()
    ensures below { SmallestIsBelow }
    ensures alone { SourceAloneIsBest }
{}

/// Two items worked by hand: three certificates, and none with one number changed; the smaller one of two closures of one ratio is not
/// the answer; the cost, the weight and the line of a closure.
pub fn two_items()
    ensures dear { DearItem }
    ensures equal { EqualItems }
    ensures cheap { CheapItem }
    ensures smaller { SmallerClosure }
    ensures wrong { WrongRouting }
    ensures numbers { CheapNumbers }
    ensures line { CheapLine }
{}
