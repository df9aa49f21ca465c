//! The laws of a promotion, proved of every file. The functions do nothing: their contracts are the laws.

ghost use Rattle.snd_reservations.specs.Laws.{PromotedIsBytes, PromotedIsEdited, PromotedIsSafe, PromotedKeepsChunks, PromotedOpens, PromotedRests, PromotedSound};

/// A file that is promoted is one that is opened to be updated: its layout, its frames and its further chunks
/// are those of the editing state that a promotion leaves, and its sound is that of the file before, but for the
/// kind. From then on it is an edited file of its own.
pub fn promoted_files_are_edited()
    ensures state { PromotedIsEdited }
    ensures bytes { PromotedIsBytes }
    ensures opens { PromotedOpens }
    ensures sound { PromotedSound }
    ensures chunks { PromotedKeepsChunks }
{}

/// Whatever a crash leaves while a file is promoted is safe between the state before it and the one after it, and
/// the promoted file is at rest.
pub fn promoting_is_safe()
    ensures safe { PromotedIsSafe }
    ensures rests { PromotedRests }
{}
