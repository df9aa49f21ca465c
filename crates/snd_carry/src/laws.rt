//! What holds of the further chunks of a file. The function does nothing: its contract is the laws.

ghost use Rattle.snd_carry.specs.Apart.{BodiesFit, CarriedFit};

/// The further chunks of a WAVE or RF64 file have no more bytes in all than the file, and so have those that
/// a copy carries.
#[tactic(auto, using(crate::proofs::Apart::bodies_fit, crate::proofs::Apart::carried_fit))]
pub fn bodies_fit()
    ensures all { BodiesFit }
    ensures carried { CarriedFit }
{}
