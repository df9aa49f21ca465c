//! The laws of the layouts of files of every kind, proved of every file. The function does nothing: its
//! contract is the laws.

ghost use Rattle.snd_container.specs.Fixed.{BytesAreKept, KeptNumbersStay, NumbersAreKept};
ghost use Rattle.snd_container.specs.HeadLaws.{KeepAllHeadLaws, KeepReservedHeadLaws, OthersMayBePut, PlainWaveIsKnown};
ghost use Rattle.snd_container.specs.Late.{LateChunksReadBack};
ghost use Rattle.snd_container.specs.Laws.{KeepAllLaws};

/// What the containers owe the layers above, for files of every kind. Where the field that decides the
/// count has its old bytes, or those for a number of frames, and the others have any, a file says the old
/// frames, or so many, as long as the data are there and the whole ends by them; where only the data
/// change, it says all that it said, with what stands behind them. The size of the whole reaches no
/// further than what closes the data. The fields of a layout stand apart, and the values of a number of
/// frames fill them. What is made says what it was made for.
#[tactic(auto, using(crate::proofs::EveryKind::keep_all_laws))]
pub fn keep_all_laws()
    ensures { KeepAllLaws }
{}

/// What the containers owe the layers above of the heads of new files, with any further chunks and without
/// frames: what such a head says and holds, that it is read back with its chunks, and that its layout hangs
/// on their identifiers and lengths alone. Where files of a kind are given chunks, any that is not a file's
/// own may be put. A new WAVE file of 16 bits without further chunks has its data at 44.
#[tactic(auto, using(crate::proofs::KindHeads::keep_all_head_laws, crate::proofs::KindHeads::keep_reserved_head_laws, crate::proofs::KindHeads::others_may_be_put, crate::proofs::KindHeads::plain_wave_is_known))]
pub fn keep_all_head_laws()
    ensures heads { KeepAllHeadLaws }
    ensures reserved { KeepReservedHeadLaws }
    ensures others { OthersMayBePut }
    ensures plain { PlainWaveIsKnown }
{}

/// A file that is closed with chunks behind its data, and the size of the whole up to them, has these
/// behind its pieces, whatever stands behind them all: for each kind that keeps chunks, with a reservation
/// and without.
#[tactic(auto, using(crate::proofs::LateKinds::late_chunks_read_back))]
pub fn late_chunks_read_back()
    ensures { LateChunksReadBack }
{}

/// Samples that are written stand for the numbers that their codec keeps: a linear one keeps each, a law
/// of G.711 one near it. What was kept once does not change when it is written again. Bytes that are whole
/// samples are those of their sources, also where they are the second zero of the mu-law.
#[tactic(auto, using(crate::proofs::FixedSamples::numbers_are_kept, crate::proofs::FixedSamples::kept_numbers_stay, crate::proofs::Sources::sources_written))]
pub fn written_samples_are_kept()
    ensures kept { NumbersAreKept }
    ensures once { KeptNumbersStay }
    ensures bytes { BytesAreKept }
{}
