//! Laws: what calls give one after another. Each function does nothing; its contract is the law.

ghost use Rattle.snd_ima_adpcm.specs.Laws.{ImaCallsGiveData, ImaCallsAreWhole, ImaDataAreBytes};

/// Calls of `encode` on one new [`ImaWriter`](crate::ImaWriter), all with the same channels and the same number of samples,
/// give the blocks of the joined samples: each channel's step index starts at 0 and goes on from block to block.
pub fn ima_calls_give_blocks()
    ensures filled { ImaCallsGiveData }
    ensures joined { ImaCallsAreWhole }
{}

/// The blocks of samples of 16 bits are bytes.
#[tactic(auto, using(crate::proofs::CodedBytes::ima_data_bytes))]
pub fn ima_blocks_are_bytes()
    ensures { ImaDataAreBytes }
{}
