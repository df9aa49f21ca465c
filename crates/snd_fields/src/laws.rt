//! The laws of numbers in fields, proved of every list of bytes. The functions do nothing: their
//! contracts are the laws.

ghost use Rattle.snd_fields.specs.Laws.{BytesAreBytes, BytesOfNumber, NumberFits, NumberIsLocal, NumberOfBytes, NumberOfField, NumberStays};

/// What is written into a field reads back.
#[tactic(auto, using(crate::proofs::Numbers::bytes_are_bytes, crate::proofs::Numbers::number_of_bytes, crate::proofs::Numbers::number_of_field))]
pub fn written_number_reads_back()
    ensures bytes { BytesAreBytes }
    ensures alone { NumberOfBytes }
    ensures in_field { NumberOfField }
{}

/// What is read of a field is written back.
#[tactic(auto, using(crate::proofs::Numbers::number_fits, crate::proofs::Numbers::bytes_of_number))]
pub fn read_bytes_are_written_back()
    ensures fits { NumberFits }
    ensures bytes { BytesOfNumber }
{}

/// A field's number depends on the field's bytes alone.
#[tactic(auto, using(crate::proofs::Numbers::number_is_local, crate::proofs::Numbers::number_stays))]
pub fn number_is_of_its_field()
    ensures same { NumberIsLocal }
    ensures beside { NumberStays }
{}
