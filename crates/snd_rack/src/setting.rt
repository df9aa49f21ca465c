//! What a stage can be set to.

ghost use Rattle.std.specs.Prelude.{◌≡◌, nat_lt};
ghost use Rattle.std.specs.List.{list_all};
ghost use Rattle.snd_rack.specs.Rack.{channels_behind, is_bad};
ghost use Rattle.snd_rack.specs.Stage.{kind_of};
ghost use Rattle.snd_rack.specs.Setting.{stated};

use arrayvec::ArrayVec;

/// What a stage does.
#[derive(Clone, Copy, Debug, PartialEq, Eq)]
pub enum StageKind {
    /// Each sample is multiplied by a fraction.
    Gain,
    /// Each sample changes its sign.
    Invert,
    /// A frame gets some of its samples, in an order of their own.
    Pick,
    /// The first frames rise from silence to the full sound.
    Fade,
}

/// A stage's setting.
#[derive(Drop)]
pub enum Setting {
    /// Each sample becomes a / b of it, rounded toward minus infinity.
    Gain {
        /// From 0 on.
        a: u16,
        /// Not 0.
        b: u16,
    },
    /// Each sample becomes its negative.
    Invert,
    /// The places of the samples that a frame gets, counted from 0: 1 to 256 of them.
    Pick(ArrayVec<u8, 256>),
    /// The frame with the number i below this one, counted from 0, is multiplied by i and divided by it. Not 0.
    Fade(u32),
}

impl Setting {
    /// The kind of the stages that it sets.
    pub fn kind(&self) -> StageKind
        ensures { result ≡ kind_of (stated self.now) }
    {
        match self {
            Setting::Gain { .. } => StageKind::Gain,
            Setting::Invert => StageKind::Invert,
            Setting::Pick(_) => StageKind::Pick,
            Setting::Fade(_) => StageKind::Fade,
        }
    }

    /// How many samples a frame has behind the stage that comes with so many.
    pub(crate) fn channels_behind(&self, channels: usize) -> usize
        ensures { result ≡ channels_behind channels (stated self.now) }
    {
        match self {
            Setting::Pick(places) => places.len(),
            _ => channels,
        }
    }

    /// Whether a sample is picked that a frame with so many does not have.
    pub(crate) fn is_bad(&self, channels: usize) -> bool
        ensures { result ≡ is_bad channels (stated self.now) }
    {
        match self {
            Setting::Pick(places) => !are_below(places.as_slice(), channels),
            _ => false,
        }
    }
}

fn are_below(places: &[u8], channels: usize) -> bool
    ensures { result ≡ list_all (λ place. nat_lt place channels) places.now }
{
    places.iter().all(|place| usize::from(*place) < channels)
}
