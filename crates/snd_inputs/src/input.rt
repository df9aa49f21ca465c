//! A file that is open to be read.

ghost use Rattle.std.specs.Prelude.{◌≡◌, ◌+◌, ◌≤◌, ◌^◌, All, None};
ghost use Rattle.snd_layout.specs.Fit.{fit_refusal};
ghost use Rattle.snd_layout.specs.Opened.{EndsIn};
ghost use Rattle.snd_layout.specs.Params.{AreParams};
ghost use Rattle.snd_layout.specs.Shape.{end, room};

use snd_disk::Disk;
use snd_layout::Layout;

/// A file that was taken out to be read: its disk, and what it says of itself. Its frames and its chunks lie
/// within the disk: `open_laid` opens it.
pub struct Input<D: Disk> {
    pub disk: D,
    pub layout: Layout,
    ghost held: { end layout layout.frames ≤ (D.state disk).size },
    ghost fits: { fit_refusal layout.kind layout.params ≡ None },
    ghost good: { AreParams layout.params },
    ghost room_ends: { layout.start + room layout + 8 ≤ 2 ^ 63 },
    ghost pieces_held: { All (EndsIn (D.state disk).size) layout.pieces },
}
