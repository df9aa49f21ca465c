//! What calls give one after another. The function does nothing; its contract is the law.

ghost use Rattle.snd_vox.specs.Laws.{VoxReadsGiveSound, VoxPutsGiveFile};

/// Calls of `next` on one new [`VoxReader`](crate::VoxReader) give the samples of the joined bytes, and calls of `put` on one new
/// [`VoxWriter`](crate::VoxWriter) the bytes of the joined samples.
pub fn vox_calls_give_files()
    ensures reads { VoxReadsGiveSound }
    ensures puts { VoxPutsGiveFile }
{}
