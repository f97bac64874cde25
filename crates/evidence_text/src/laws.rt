// What the grammar promises. The functions do nothing: their contracts are the laws.
ghost use Rattle.std.specs.Prelude.{ℕ, List};
ghost use Rattle.evidence_text.specs.Laws.{AreJudgeable, IsEither};

/// Each text is either a certificate, and of one value only, or has a first fault, and no other.
pub fn certificate_or_fault()
    ensures { (text : List ℕ) → IsEither text }
{}

/// What a certificate says is in its ranges and in its order.
pub fn certificates_are_judgeable()
    ensures { AreJudgeable }
{}
