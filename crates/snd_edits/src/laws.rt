//! The laws of the editing state of an open file, proved of every file. The functions do nothing: their
//! contracts are the laws.

ghost use Rattle.snd_edits.specs.Chunks.{EditedHasChunks, LeadsKeepChunks};
ghost use Rattle.snd_edits.specs.Laws.{AutomaticReadsBack, AutomaticStays, CutLeads, EncodedFrames, EncodedSound, EncodedStays, LeadsToEdited, MadeIsEdited, MadeIsEncoded, MadeIsUpdated, OpenedHoldsFrames, ReachedIsEdited, ReachedSound, ReadLeads, SealedReadsBack, SealedSound, SeekLeads, SeekWriteLeads, TrimLeads, UpdatedIsEdited, WriteLeads};
ghost use Rattle.snd_edits.specs.SafeLaws.{AutomaticRests, CutIsSafe, CutRests, GrownIsSafe, LeadsToBytes, LeadsToRest, ReachedIsBytes, RestIsSafe, SafeAcross, SafeFromAfter, SealedIsSafe, SealedRests, StaysSafe, TailCutIsSafe, TrimmedIsSafe, TrimmedRests, WrittenIsSafe, WrittenRests};

/// A file that is opened holds the frames that it counts. One that is opened to be updated, or made, begins
/// as an edited file.
#[tactic(auto, using(crate::proofs::MadeFiles::made_is_updated))]
pub fn opened_files_are_edited()
    ensures read { OpenedHoldsFrames }
    ensures updated { UpdatedIsEdited }
    ensures made { MadeIsEdited }
    ensures new { MadeIsUpdated }
{}

/// Each call that is carried out leads from one editing state to another.
pub fn calls_lead_on()
    ensures write { WriteLeads }
    ensures cut { CutLeads }
    ensures trim { TrimLeads }
    ensures read { ReadLeads }
    ensures seek { SeekLeads }
    ensures seek_write { SeekWriteLeads }
{}

/// Each call that is carried out leaves an edited file, and so do all of them, one after the other.
#[tactic(auto, using(crate::proofs::EditedSteps::reached_is_edited))]
pub fn calls_leave_edited_files()
    ensures step { LeadsToEdited }
    ensures steps { ReachedIsEdited }
{}

/// An edited file that is sealed reads back: its layout is that of the editing state, its frames are exactly
/// the state's, and the rest of its sound is that of the file that was opened or made. While updates are
/// automatic, it reads back as it is.
#[tactic(auto, using(crate::proofs::CarriedOut::reached_sound, crate::proofs::EditedSounds::sealed_sound))]
pub fn sealed_files_read_back()
    ensures layout { SealedReadsBack }
    ensures automatic { AutomaticReadsBack }
    ensures sound { SealedSound }
    ensures reached { ReachedSound }
{}

/// A file of ADPCM that is made begins as one whose blocks are those of the numbers that were given, and stays
/// one while more are given and while it is sealed. Its frames are those that are kept of its whole blocks;
/// once it is closed it reads back with those that are kept of all numbers.
pub fn encoded_files_read_back()
    ensures made { MadeIsEncoded }
    ensures given { EncodedStays }
    ensures sealed { AutomaticStays }
    ensures frames { EncodedFrames }
    ensures sound { EncodedSound }
{}

/// An edited file has the further chunks of the file that was opened or made, at their places and with their
/// bodies. Each call that is carried out keeps them.
pub fn chunks_stay()
    ensures file { EditedHasChunks }
    ensures step { LeadsKeepChunks }
{}

/// What a crash leaves of a file at rest is safe, and stays so during each call from there, and during each
/// that leads there, or from another state of the file with the same frames.
pub fn files_at_rest_are_safe()
    ensures rest { RestIsSafe }
    ensures before { StaysSafe }
    ensures after { SafeFromAfter }
    ensures across { SafeAcross }
{}

/// While frames are written over the data and behind them, and while the head is then brought up to them,
/// whatever a crash leaves is safe.
pub fn writing_is_safe()
    ensures written { WrittenIsSafe }
    ensures grown { GrownIsSafe }
{}

/// So it is while frames are cut off, while a file is sealed, and while all behind its data is cut off.
pub fn cutting_is_safe()
    ensures cut { CutIsSafe }
    ensures sealed { SealedIsSafe }
    ensures tail { TailCutIsSafe }
    ensures trimmed { TrimmedIsSafe }
{}

/// The bytes of an open file are bytes, wherever calls lead.
pub fn files_are_bytes()
    ensures step { LeadsToBytes }
    ensures steps { ReachedIsBytes }
{}

/// A file that was sealed, cut or trimmed is fit for updates that a crash cannot hurt, where the field that
/// decides the count lies in one sector; and while updates are automatic each call leaves it so.
pub fn calls_leave_fit_files()
    ensures sealed { SealedRests }
    ensures automatic { AutomaticRests }
    ensures cut { CutRests }
    ensures trimmed { TrimmedRests }
    ensures written { WrittenRests }
    ensures step { LeadsToRest }
{}
