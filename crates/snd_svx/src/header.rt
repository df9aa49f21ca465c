//! The voice header of a file.

ghost use Rattle.std.specs.Prelude.{◌≡◌};
ghost use Rattle.snd_svx.specs.Layout.{is_packed, voice_refusal};

use snd_layout::OpenRefusal;

/// What a voice header says of the sound.
#[derive(Clone, Copy, Debug, PartialEq, Eq)]
pub(crate) struct Header {
    /// Frames a second.
    pub(crate) rate: u16,
    /// How many octaves the voice has, each of which holds it anew.
    pub(crate) octaves: u8,
    /// How the body is packed: 0 where it is not.
    pub(crate) compression: u8,
}

impl Header {
    fn is_packed(self) -> bool
        ensures { result ≡ is_packed self }
    {
        1 < self.octaves || self.compression != 0
    }

    /// Why a voice is refused, one of a pair of sounds or not.
    pub(crate) fn refusal(self, pair: bool) -> Option<OpenRefusal>
        ensures { result ≡ voice_refusal pair self }
    {
        if pair {
            Some(OpenRefusal::BadChannels)
        } else if self.rate == 0 {
            Some(OpenRefusal::BadRate)
        } else if self.is_packed() {
            Some(OpenRefusal::PackedBody)
        } else {
            None
        }
    }
}
