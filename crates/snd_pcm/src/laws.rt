//! The laws of linear samples, proved of every codec and order. The functions do nothing: their
//! contracts are the laws.

ghost use Rattle.snd_pcm.specs.Laws.{BytesOfJoined, CountOfBytes, CountOfSamples, SampleAtPlace, SampleIsWrittenBack, SampleReadsBack, SamplesAreInRange, SamplesAreWrittenBack, SamplesOfJoined, SamplesOfParts, SamplesReadBack};

/// Numbers that are written as samples read back.
#[tactic(auto, using(crate::proofs::RoundTrips::sample_reads_back, crate::proofs::RoundTrips::samples_read_back))]
pub fn written_samples_read_back()
    ensures one { SampleReadsBack }
    ensures many { SamplesReadBack }
{}

/// Samples that are read are written back as the same bytes, and are in the range of their form.
#[tactic(auto, using(crate::proofs::RoundTrips::sample_is_written_back, crate::proofs::RoundTrips::samples_are_written_back))]
pub fn read_samples_are_written_back()
    ensures one { SampleIsWrittenBack }
    ensures many { SamplesAreWrittenBack }
    ensures in_range { SamplesAreInRange }
{}

/// Samples stand side by side, each in its own bytes.
#[tactic(auto, using(crate::proofs::RoundTrips::count_of_samples, crate::proofs::RoundTrips::sample_at_place, crate::proofs::RoundTrips::count_of_bytes, crate::proofs::RoundTrips::samples_of_joined, crate::proofs::RoundTrips::bytes_of_joined))]
pub fn samples_stand_side_by_side()
    ensures count { CountOfSamples }
    ensures at_place { SampleAtPlace }
    ensures bytes { CountOfBytes }
    ensures joined { SamplesOfJoined }
    ensures joined_bytes { BytesOfJoined }
    ensures parts { SamplesOfParts }
{}
