//! Laws: what calls give one after another. Each function does nothing; its contract is the law.

ghost use Rattle.snd_ms_adpcm.specs.Laws.{MsCallsGiveData, MsCallsAreWhole, MsDataAreBytes};

/// Calls of `encode` on one [`MsWriter`](crate::MsWriter), all with the same channels and the same number of samples, give the
/// blocks of the joined samples.
pub fn ms_calls_give_blocks()
    ensures filled { MsCallsGiveData }
    ensures joined { MsCallsAreWhole }
{}

/// The blocks of samples of 16 bits are bytes.
#[tactic(auto, using(crate::proofs::CodedBytes::ms_data_bytes))]
pub fn ms_blocks_are_bytes()
    ensures { MsDataAreBytes }
{}
