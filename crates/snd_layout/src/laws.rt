//! The law of `fmt ` bodies. The function does nothing: its contract is the law.

ghost use Rattle.snd_layout.specs.Written.{WrittenFormatReadsBack};

/// What is written of the parameters of a WAVE file reads back.
#[tactic(auto, using(crate::proofs::RoundTrips::written_format_reads_back))]
pub fn written_format_reads_back()
    ensures { WrittenFormatReadsBack }
{}
