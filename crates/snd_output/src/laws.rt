//! The laws of files that are made, proved of every file. The functions do nothing: their contracts are
//! the laws.

ghost use Rattle.snd_output.specs.Laws.{BegunIsMaking, CarriedIsMaking, EncodedIsMaking, FilledIsMade, MadeHasSound, SealedIsMade, WrittenIsMaking};

/// A file that is begun is one that is being made, and so is one into which chunks were carried, and one to
/// which frames are written; once it is sealed it is made.
pub fn files_are_made()
    ensures begun { BegunIsMaking }
    ensures carried { CarriedIsMaking }
    ensures written { WrittenIsMaking }
    ensures encoded { EncodedIsMaking }
    ensures sealed { SealedIsMade }
    ensures filled { FilledIsMade }
{}

/// A file that is made has its kind, its parameters and its chunks, and for frames the numbers, as the codec
/// keeps them; in ADPCM those that its blocks stand for.
pub fn made_files_have_sound()
    ensures { MadeHasSound }
{}
