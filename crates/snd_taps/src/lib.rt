//! Taps: meters that see each frame that is read. Nothing here takes memory or fails.
#![tactic(auto)]

mod clips_tap;
mod energy_tap;
mod feed;
mod laws;
mod measure;
mod peak_tap;
mod tap;

pub use clips_tap::Clips;
pub use energy_tap::Energy;
pub use feed::{feed_all, feed_all_of};
pub use laws::{fed_in_one_go, frames_fed_in_turn};
pub use peak_tap::Peak;
pub use tap::{Tap, TapKind, TapState};
