//! The laws of racks. The function does nothing: its contract is the laws.

ghost use Rattle.snd_rack.specs.Laws.{InPieces, OneByOne, StaysInRange};

/// The frames pass a rack one by one, in pieces as in one go, and stay in the range of a sample.
#[tactic(auto, using(crate::proofs::Composed::one_by_one, crate::proofs::Composed::in_pieces, crate::proofs::Composed::stays_in_range))]
pub fn stages_compose()
    ensures one_by_one { OneByOne }
    ensures in_pieces { InPieces }
    ensures stays_in_range { StaysInRange }
{}
