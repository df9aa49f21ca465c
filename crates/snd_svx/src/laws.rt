//! The laws of 8SVX files' layouts, proved of every file.

ghost use Rattle.snd_chunks.specs.HeadLaws.{KeepsHeadLaws};
ghost use Rattle.snd_layout.specs.Container.{KeepsLaws};
ghost use Rattle.snd_layout.specs.declared.kind.Kind.TheVariants.{Svx};
ghost use Rattle.snd_chunks.specs.Late.{LateReadsBack};
ghost use Rattle.snd_svx.specs.Container.{svx};
ghost use Rattle.snd_svx.specs.Made.{HeadHasItsSize, HeadIsCounted, MadeHoldsAll, MadeReadsBack};
ghost use Rattle.snd_svx.specs.Put.{HeadReadsBack, svx_heads};
ghost use Rattle.snd_svx.specs.Written.{MayBePiece};

/// 8SVX files are a container: their layouts keep the laws of all containers. The function does nothing:
/// its contract is the laws.
pub fn keeps_laws()
    ensures { KeepsLaws Svx svx }
{}

/// The heads of new 8SVX files, with any further chunks and without frames, keep the laws of heads.
#[tactic(auto, using(crate::proofs::KeptHeads::keeps_head_laws))]
pub fn keeps_head_laws()
    ensures { KeepsHeadLaws Svx svx svx_heads }
{}

/// A head that is made, with any pieces that a file may keep, has the layout that it says.
#[tactic(auto, using(crate::proofs::Made::heads_read_back))]
pub fn made_heads_read_back()
    ensures { HeadReadsBack }
{}

/// A file that is made, with any pieces that a file may keep and with frames whose data have room, has the
/// layout that its head says, and holds its pieces and its data, which begin behind the head. A head that
/// was made for no frames, and whose fields were brought up to a number of frames, is the head for so many.
#[tactic(auto, using(crate::proofs::Made::made_reads_back, crate::proofs::Made::length_head_for, crate::proofs::HeadValues::head_is_counted))]
pub fn made_files_read_back()
    ensures layout { MadeReadsBack }
    ensures holds { MadeHoldsAll }
    ensures size { HeadHasItsSize }
    ensures counted { HeadIsCounted }
{}

/// A file that is closed with chunks behind its data, and the size of the whole up to them, has these
/// behind its pieces, whatever stands behind them all.
#[tactic(auto, using(crate::proofs::LateFiles::late_reads_back))]
pub fn late_chunks_read_back()
    ensures { LateReadsBack MayBePiece svx svx_heads }
{}
