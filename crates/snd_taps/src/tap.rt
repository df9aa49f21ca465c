//! What a tap is.

ghost use Rattle.std.specs.Prelude.{◌≡◌};
ghost use Rattle.snd_taps.specs.Names.{tap_name};
ghost use Rattle.snd_taps.specs.Meter.{Meter, started, after_frame};

/// What a tap measures.
#[derive(Clone, Copy, Debug, PartialEq, Eq)]
pub enum TapKind {
    /// The greatest magnitude of a sample. That of -2^31 is 2147483648.
    Peak,
    /// How many samples equal the lowest or the highest number of the range.
    Clips,
    /// The sum of the squares of the samples.
    Energy,
}

impl TapKind {
    /// The word that stands for it in scripts and in what is printed, as `peak`.
    pub fn name(&self) -> &'static str
        ensures { result.now ≡ tap_name self.now }
    {
        match self {
            TapKind::Peak => "peak",
            TapKind::Clips => "clips",
            TapKind::Energy => "energy",
        }
    }
}

/// What a tap saw since it was started.
#[derive(Clone, Copy, Debug, PartialEq, Eq)]
pub struct TapState {
    /// How many frames were fed. It stays at 2^64 - 1.
    pub frames: u64,
    /// What they measure. A count or a sum stays at 2^128 - 1.
    pub value: u128,
}

/// No frame was fed.
pub(crate) const NOTHING: TapState = TapState {
    frames: 0,
    value: 0,
};

/// A meter over frames. Whoever writes one proves that it measures what its kind says.
pub trait Tap: Drop {
    /// What the tap stands for: its kind, its range, and its state.
    ghost meter: { Self → Meter };

    /// What it measures. No call changes that.
    fn kind(&self) -> TapKind
        ensures { result ≡ (meter self.now).kind };

    /// Begins anew, with no frame fed. `low` and `high` are the ends of the range of a sample.
    fn start(&mut self, low: i32, high: i32)
        ensures { meter self.new ≡ started low high (meter self.old) };

    /// Takes one frame, a sample for each channel, into account.
    fn feed(&mut self, frame: &[i32])
        ensures { meter self.new ≡ after_frame frame.now (meter self.old) };

    /// What was fed since the start.
    fn report(&self) -> TapState
        ensures { result ≡ (meter self.now).state };
}
