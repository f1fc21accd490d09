//! What holds of product selections, each law as the contract of a function that does nothing.

ghost use Rattle.pf_select.specs.Worked.{WholeProduct, ChargeAboveGain, NothingIsBest, SmallerSelection, NoProducts, FreeProduct, FreeGains, ParallelNeeds};
ghost use Rattle.pf_select.specs.Laws.{CertificateImpliesBest, OneBestSchedule, OneBestScheduleInLowestTerms, AcceptedIsBounded, ScheduleFromText, CertifiedIsRight};

/// What certifies a schedule proves it best at every price.
pub fn certificate_implies_best()
    ensures { CertificateImpliesBest }
{}

/// At most one schedule is best.
pub fn best_is_unique()
    ensures schedule { OneBestSchedule }
    ensures lowest { OneBestScheduleInLowestTerms }
{}

/// A text of the kind `select` that is accepted gives a problem within its limits.
pub fn accepted_problems_are_bounded()
    ensures { AcceptedIsBounded }
{}

/// The text of a schedule of the right shape is the text of no other one, so the verdict on a text is `yes` for exactly the texts of
/// right answers.
pub fn texts_determine_answers()
    ensures schedule { ScheduleFromText }
    ensures certified { CertifiedIsRight }
{}

/// Schedules worked by hand: a product that needs two parts, no product, a product that needs nothing beside a part that nothing
/// needs, and two needs of one part. A charge above the gain certifies nothing, and the smaller of two best selections is not the
/// answer.
pub fn two_parts()
    ensures whole { WholeProduct }
    ensures above { ChargeAboveGain }
    ensures equal { NothingIsBest }
    ensures smaller { SmallerSelection }
    ensures none { NoProducts }
    ensures gained { FreeProduct }
    ensures gains { FreeGains }
    ensures parallel { ParallelNeeds }
{}
