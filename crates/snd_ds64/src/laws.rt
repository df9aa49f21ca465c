//! The laws of promoted files, proved of every file. The functions do nothing: their contracts are the laws.

ghost use Rattle.snd_ds64.specs.Laws.{OpensPromoted, PromotedKeeps, PromotedReadsBack, PromotesFromTo, PromotingIsWhole, ReservationStands};

/// A WAVE file with a reservation that is promoted opens as RF64, with its parameters, its start, its
/// frames and its further chunks, and holds the samples and the bodies that it held.
pub fn promoted_files_read_back()
    ensures reservation { ReservationStands }
    ensures opens { OpensPromoted }
    ensures reads { PromotedReadsBack }
    ensures keeps { PromotedKeeps }
{}

/// What a crash leaves of a file while it is promoted is the file as it was, or one that opens as the
/// promoted file.
pub fn promotion_leaves_one_of_two()
    ensures whole { PromotingIsWhole }
    ensures ends { PromotesFromTo }
{}
