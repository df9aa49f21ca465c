//! The laws of WAVE files, proved of every file. The functions do nothing: their contracts are the laws.

ghost use Rattle.std.specs.Prelude.{ℕ, Option};
ghost use Rattle.snd_chunks.specs.HeadLaws.{KeepsHeadLaws};
ghost use Rattle.snd_chunks.specs.Late.{LateReadsBack};
ghost use Rattle.snd_layout.specs.Container.{KeepsLaws};
ghost use Rattle.snd_layout.specs.declared.kind.Kind.TheVariants.{Wave};
ghost use Rattle.snd_wave.specs.Container.{wave};
ghost use Rattle.snd_wave.specs.Put.{reserved_heads, wave_heads};
ghost use Rattle.snd_wave.specs.Sealed.{HeadIsCounted, ReservedHeadIsCounted};
ghost use Rattle.snd_wave.specs.Written.{HeadHasItsSize, HeadReadsBack, MadeHoldsAll, MadeInOneSector, MadeReadsBack, MayBePiece, ReservedHeadHasItsSize, ReservedHeadReadsBack, ReservedHoldsAll, ReservedInOneSector, ReservedReadsBack};

/// WAVE files keep the laws of all containers: what a file says whose fields are partly old and partly
/// new, as a crash leaves them while it is brought up to a number of frames; what holds of each layout
/// and of its fields; which further chunks stay; and what a file says that is made.
pub fn keeps_laws()
    ensures { KeepsLaws Wave wave }
{}

/// The heads of new WAVE files, with any further chunks and without frames, keep the laws of heads.
#[tactic(auto, using(crate::proofs::KeptHeads::keeps_head_laws))]
pub fn keeps_head_laws()
    ensures { KeepsHeadLaws Wave wave wave_heads }
{}

/// A file that is made, with any pieces that a file may keep, has the layout that its head says, and
/// holds its pieces and its data. The data begin behind the head, and the field that decides the count of
/// the frames lies in one sector. A head that was made for no frames, and whose fields were brought up to
/// a number of frames, is the head for so many.
#[tactic(auto, using(crate::proofs::Made::made_reads_back, crate::proofs::Made::head_reads_back, crate::proofs::Made::length_head_for, crate::proofs::NewHeads::made_in_one_sector, crate::proofs::HeadValues::head_is_counted))]
pub fn made_files_read_back()
    ensures layout { MadeReadsBack }
    ensures head { HeadReadsBack }
    ensures holds { MadeHoldsAll }
    ensures size { HeadHasItsSize }
    ensures one_sector { MadeInOneSector }
    ensures counted { HeadIsCounted }
{}

/// The same holds of a file that is made with a reservation.
#[tactic(auto, using(crate::proofs::Made::reserved_reads_back, crate::proofs::Made::reserved_head_reads_back, crate::proofs::Made::reserved_has_size, crate::proofs::NewHeads::reserved_in_one_sector, crate::proofs::HeadValues::reserved_head_is_counted))]
pub fn reserved_files_read_back()
    ensures layout { ReservedReadsBack }
    ensures head { ReservedHeadReadsBack }
    ensures holds { ReservedHoldsAll }
    ensures size { ReservedHeadHasItsSize }
    ensures one_sector { ReservedInOneSector }
    ensures counted { ReservedHeadIsCounted }
{}

/// A file that is closed with chunks behind its data, and the size of the whole up to them, has these
/// behind its pieces, whatever stands behind them all; with a reservation and without.
#[tactic(auto, using(crate::proofs::LateFiles::late_reads_back))]
pub fn late_chunks_read_back()
    ensures { (r : Option ℕ) → LateReadsBack MayBePiece wave (reserved_heads r) }
{}
