//! Frames that pass from one file into another as the bytes of their samples.

ghost use Rattle.std.specs.Prelude.{◌≡◌, ◌/◌, ◌%◌, ◌≤◌, false, IsTrue, OnOk, length, take};
ghost use Rattle.snd_disk.specs.Device.{GoesOnFrom};
ghost use Rattle.snd_edits.specs.Bytes.{numbers_in};
ghost use Rattle.snd_file.specs.Handle.{channels_of, codec_of, disk_of, known_of, loan_of};
ghost use Rattle.snd_file.specs.Outcomes.{AsksNothing, TellsOn};
ghost use Rattle.snd_output.specs.Appended.{CountsFile, Gains, HasRoom, IsAtEnd, LeavesFile, Pass, bytes_in, coded_in, has_two_zeros};
ghost use Rattle.snd_output.specs.Widths.{change_numbers};

use crate::making::Making;
use crate::stop::Stop;
use snd_container::fixed_form;
use snd_disk::Disk;
use snd_file::File;
use snd_layout::Codec;
use snd_recode::recode;

// Whether samples of one codec stay as they are in another: it is the same one, and no two samples stand for one
// number, as two of the mu-law do for zero.
fn stay(from: Codec, to: Codec) -> bool
    ensures { IsTrue result → (from ≡ to) × (has_two_zeros from ≡ false) }
{
    from == to && !matches!(from, Codec::MuLaw)
}

/// Puts the bytes of samples of one codec in another into the front of a buffer, and tells how many they are. What
/// the numbers held is lost.
pub fn recode_into(
    from: Codec,
    to: Codec,
    bytes: &[u8],
    numbers: &mut [i32],
    coded: &mut [u8],
) -> usize
    requires pass { Pass from to }
    requires held { length bytes.now ≡ bytes_in from (length numbers.old) }
    requires fits { bytes_in to (length numbers.old) ≤ length coded.old }
    ensures size { result ≡ bytes_in to (length numbers.old) }
    ensures coded { take result coded.new ≡ coded_in to (change_numbers from to (numbers_in from bytes.now)) }
{
    let (Some(old), Some(new)) = (fixed_form(from), fixed_form(to)) else {
        unreachable!()
    };
    let count = new.bytes() * numbers.len();
    recode(old, new, bytes, numbers, &mut coded[..count]);
    count
}

/// Gives a file the frames that bytes are in another codec, or in its own.
/// What the numbers and the buffer held is lost. `Fault` where a call of the disk failed.
pub fn give_passed<E: Disk, M: Making>(
    to: &mut File<'_, E, M>,
    codec: Codec,
    bytes: &[u8],
    numbers: &mut [i32],
    coded: &mut [u8],
) -> Result<(), Stop>
    requires pass { Pass codec (codec_of to.old) }
    requires at_end { IsAtEnd (known_of to.old) }
    requires room { HasRoom (length numbers.old / channels_of to.old) (known_of to.old) }
    requires whole { length numbers.old % channels_of to.old ≡ 0 }
    requires held { length bytes.now ≡ bytes_in codec (length numbers.old) }
    requires fits { bytes_in (codec_of to.old) (length numbers.old) ≤ length coded.old }
    ensures loan { loan_of to.new ≡ loan_of to.old }
    ensures left { LeavesFile (length numbers.old / channels_of to.old) to.old to.new result }
    ensures gains { OnOk result (Gains E.state (change_numbers codec (codec_of to.old) (numbers_in codec bytes.now)) to.old to.new) }
    ensures faults { CountsFile E.state to.old to.new result }
    ensures tells { TellsOn E.state to.old to.new }
    ensures time { GoesOnFrom E.state E.left_between (disk_of to.old) (disk_of to.new) }
    ensures asked { AsksNothing E.state to.old to.new }
{
    let wanted = to.params().codec;
    if stay(codec, wanted) {
        return M::give_bytes(to, bytes);
    }
    let count = recode_into(codec, wanted, bytes, numbers, coded);
    M::give_bytes(to, &coded[..count])
}
