//! The laws of what is fed. The functions do nothing: their contracts are the laws.

ghost use Rattle.snd_taps.specs.Laws.{FramesInTurn, CountOfFrames, PeakOfAll, ClipsOfAll, EnergyOfAll};

/// Frames that are fed in two parts are fed as one list.
pub fn frames_fed_in_turn()
    ensures { FramesInTurn }
{}

/// What a tap measures is what all samples measure at once.
#[tactic(auto, using(crate::proofs::Totals::count_of_frames, crate::proofs::Totals::peak_of_all, crate::proofs::Totals::clips_of_all, crate::proofs::Totals::energy_of_all))]
pub fn fed_in_one_go()
    ensures frames { CountOfFrames }
    ensures peak { PeakOfAll }
    ensures clips { ClipsOfAll }
    ensures energy { EnergyOfAll }
{}
