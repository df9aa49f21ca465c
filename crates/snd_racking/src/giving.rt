//! A file that is given frames as the bytes of their samples.

ghost use Rattle.std.specs.Prelude.{◌≡◌, ℤ, List, false, OnOk, length};
ghost use Rattle.snd_disk.specs.Device.{GoesOnFrom};
ghost use Rattle.snd_edits.specs.Bytes.{AreWhole};
ghost use Rattle.snd_edits.specs.Reading.{FitCodec};
ghost use Rattle.snd_file.specs.Handle.{codec_of, disk_of, known_of, loan_of};
ghost use Rattle.snd_file.specs.Outcomes.{AsksNothing, TellsOn};
ghost use Rattle.snd_layout.specs.Blocks.{is_adpcm};
ghost use Rattle.snd_output.specs.Appended.{CountsFile, Gains, HasRoom, IsAtEnd, LeavesFile, coded_in};
ghost use Rattle.snd_racking.specs.Appending.{frames_of_bytes};

use snd_disk::Disk;
use snd_file::File;
use snd_output::{Making, Stop};

/// Gives a file whole frames as the bytes of their samples, where each sample has bytes of its own. `Fault` where a call of
/// the disk failed.
pub(crate) fn give_samples<E: Disk, M: Making>(
    to: &mut File<'_, E, M>,
    bytes: &[u8],
) -> Result<(), Stop>
    requires fixed { is_adpcm (codec_of to.old) ≡ false }
    requires at_end { IsAtEnd (known_of to.old) }
    requires whole { AreWhole (known_of to.old).shape.params (length bytes.now) }
    requires room { HasRoom (frames_of_bytes (known_of to.old).shape.params (length bytes.now)) (known_of to.old) }
    ensures loan { loan_of to.new ≡ loan_of to.old }
    ensures left { LeavesFile (frames_of_bytes (known_of to.old).shape.params (length bytes.now)) to.old to.new result }
    ensures gains { (xs : List ℤ) → bytes.now ≡ coded_in (codec_of to.old) xs → FitCodec (codec_of to.old) xs → OnOk result (Gains E.state xs to.old to.new) }
    ensures faults { CountsFile E.state to.old to.new result }
    ensures tells { TellsOn E.state to.old to.new }
    ensures time { GoesOnFrom E.state E.left_between (disk_of to.old) (disk_of to.new) }
    ensures asked { AsksNothing E.state to.old to.new }
{
    to.params().are_good();
    M::give_bytes(to, bytes)
}
