// What the definition of rows implies. The functions do nothing: their contracts are the laws.
ghost use Rattle.packet_signature.specs.Laws.{InverseGivesOld};

/// The inverse of a transform's row on the new signature is the old one.
#[tactic(auto, using(crate::proofs::Restoring::inverse_gives_old))]
pub fn inverse_gives_old()
    ensures { InverseGivesOld }
{}
