//! The laws of blocks that are written, proved of every list of numbers. The functions do nothing: their
//! contracts are the laws.

ghost use Rattle.snd_block_writer.specs.Laws.{AllAreKept, CodedAreBytes, KeptIsRead, KeptStays, NoneIsBad, WholeFramesAreKept, WholeIsFront};

/// A block that is written is never bad, and the blocks hold all frames that were given; a file that has
/// them for its data reads as these frames. Blocks are bytes.
#[tactic(auto, using(crate::proofs::Kept::none_is_bad, crate::proofs::Kept::all_are_kept, crate::proofs::Kept::coded_are_bytes, crate::proofs::Kept::kept_is_read))]
pub fn blocks_are_good()
    ensures good { NoneIsBad }
    ensures all { AllAreKept }
    ensures read { KeptIsRead }
    ensures bytes { CodedAreBytes }
{}

/// When more is written, the whole blocks stay the front of the data, and so do the frames that are read
/// from them. These are the greatest multiple of a block's frames that was reached.
#[tactic(auto, using(crate::proofs::Kept::whole_is_front, crate::proofs::Kept::kept_stays, crate::proofs::Kept::whole_frames_are_kept))]
pub fn whole_blocks_stay()
    ensures data_front { WholeIsFront }
    ensures frames_front { KeptStays }
    ensures frames_count { WholeFramesAreKept }
{}
