// What the judging of lines means. The functions do nothing: their contracts are the laws.
ghost use Rattle.evidence_check.specs.Laws.{CertifiedIsFlood, HoldingIsCertifying, OneVerdict, PartsAreJudged};

/// All lines of a certificate hold exactly where its lists are those of the flood over its pages.
pub fn lines_hold_where_certified()
    ensures { HoldingIsCertifying }
{}

/// An answer may be judged part by part: nodes, edges, unknown pairs, clear pairs, and the end.
pub fn parts_are_judged()
    ensures { PartsAreJudged }
{}

/// Where all lines hold, the lists are those that any flood over the same pages finds.
pub fn certified_is_flood()
    ensures { CertifiedIsFlood }
{}

/// A certificate has one verdict, and no other.
pub fn one_verdict()
    ensures { OneVerdict }
{}
