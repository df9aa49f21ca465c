//! The frames of a source, given to a file that is being made.

ghost use Rattle.std.specs.Prelude.{◌≡◌, ◌+◌, ◌*◌, ◌/◌, ◌%◌, ◌^◌, ◌<◌, ◌≤◌, OnOk, length, take, drop, List, ℕ, false};
ghost use Rattle.snd_disk.specs.Device.{AsksAtMost, GoesOnFrom, OnlyReadsOn, Tells};
ghost use Rattle.snd_fields.specs.declared.field.Order.TheVariants.{Little};
ghost use Rattle.snd_file.specs.Handle.{channels_of, codec_of, disk_of, known_of, loan_of};
ghost use Rattle.snd_file.specs.Outcomes.{AsksNothing, TellsOn};
ghost use Rattle.snd_ima_adpcm.specs.Frames.{high_half_first};
ghost use Rattle.snd_vox.specs.Vox.{vox_samples, vox_state_read};
ghost use Rattle.snd_layout.specs.Blocks.{block_align, is_adpcm};
ghost use Rattle.snd_layout.specs.declared.codec.Codec.TheVariants.{S16};
ghost use Rattle.snd_output.specs.Appended.{CountsFile, Gains, HasRoom, IsAtEnd, IsLonger, LeavesFile};
ghost use Rattle.snd_output.specs.Ends.{CountsStop, IsUnchanged};
ghost use Rattle.snd_output.specs.Widths.{change_numbers};
ghost use Rattle.snd_import.specs.Filling.{Carries, GainsAll, IsPiece, MayTake, Passes, sound_behind, state_behind};
ghost use Rattle.snd_import.specs.Import.{bytes_in};
ghost use Rattle.snd_import.specs.Source.{IsHeld, IsSource};
ghost use Rattle.snd_import.specs.declared.source.Coding.TheVariants.{Codes};

use crate::codes::read_codes;
use crate::source::{Coding, Source};
use snd_disk::{Disk, fill};
use snd_edits::Write;
use snd_fields::Order;
use snd_file::File;
use snd_layout::{Codec, Params};
use snd_output::{Making, Stop, change_numbers, give_passed};
use snd_vox::VoxReader;

/// The most bytes of samples that are read at a time, the most samples, and the most bytes that these become, four
/// of each.
const MOST_BYTES: u64 = 65536;

const MOST_NUMBERS: u64 = 32768;

const MOST_CODED: usize = 131_072;

/// The frames of 8192 bytes of codes.
const MOST_CODES: u64 = 16384;

// How many bytes so many frames of a source have.
fn bytes_in(coding: Coding, params: Params, frames: u64) -> u64
    requires { bytes_in coding params frames < 2 ^ 64 }
    ensures { result ≡ bytes_in coding params frames }
{
    match coding {
        Coding::Samples => frames * u64::from(params.block_align()),
        Coding::Codes => frames / 2,
    }
}

// The most frames of samples that are given at a time.
fn most_samples(params: Params) -> u64
    requires fixed { is_adpcm params.codec ≡ false }
    ensures some { 1 ≤ result }
    ensures bytes { result * block_align params.channels params.codec ≤ 65536 }
    ensures numbers { result * params.channels ≤ 32768 }
{
    params.are_good();
    let numbers = MOST_NUMBERS / u64::from(params.channels);
    let bytes = MOST_BYTES / u64::from(params.block_align());
    numbers.min(bytes)
}

// .. of a source.
fn most_frames(coding: Coding, params: Params) -> u64
    requires fixed { is_adpcm params.codec ≡ false }
    requires codes { coding ≡ Codes → params.channels ≡ 1 }
    ensures some { 1 ≤ result }
    ensures even { coding ≡ Codes → result % 2 ≡ 0 }
    ensures bytes { bytes_in coding params result ≤ 65536 }
    ensures numbers { result * params.channels ≤ 32768 }
{
    match coding {
        Coding::Samples => most_samples(params),
        Coding::Codes => MOST_CODES,
    }
}

// How many are given next, where so many are left.
fn next_count(coding: Coding, params: Params, left: u64) -> u64
    requires fixed { is_adpcm params.codec ≡ false }
    requires codes { coding ≡ Codes → params.channels ≡ 1 }
    requires some { 1 ≤ left }
    ensures some { 1 ≤ result }
    ensures fits { result ≤ left }
    ensures even { coding ≡ Codes → left % 2 ≡ 0 → result % 2 ≡ 0 }
    ensures bytes { bytes_in coding params result ≤ 65536 }
    ensures numbers { result * params.channels ≤ 32768 }
{
    most_frames(coding, params).min(left)
}

// Fills a slice with the bytes from a place on, all of which the disk has.
fn read_piece<D: Disk>(disk: &mut D, at: u64, into: &mut [u8]) -> Result<(), Stop>
    requires within { at + length into.old ≤ (D.state disk.old).size }
    ensures told { OnOk result ((b : List ℕ) → Tells D.state disk.old b → into.new ≡ take (length into.old) (drop at b)) }
    ensures faults { CountsStop (D.state disk.old).faults (D.state disk.new).faults result }
    ensures unchanged { IsUnchanged result }
    ensures reads { OnlyReadsOn D.state D.may_leave D.left_between disk.old disk.new }
    ensures asked { AsksAtMost D.state (length into.old) disk.old disk.new }
{
    match fill(disk, at, into) {
        Ok(()) => Ok(()),
        Err(_) => Err(Stop::Fault),
    }
}

// Gives a file the frames of codes.
fn give_codes<E: Disk>(
    to: &mut File<'_, E, Write>,
    bytes: &[u8],
    reader: &mut VoxReader,
    numbers: &mut [i32],
) -> Result<(), Stop>
    requires at_end { IsAtEnd (known_of to.old) }
    requires room { HasRoom (length numbers.old) (known_of to.old) }
    requires mono { channels_of to.old ≡ 1 }
    requires fixed { is_adpcm (codec_of to.old) ≡ false }
    requires held { length numbers.old ≡ 2 * length bytes.now }
    ensures loan { loan_of to.new ≡ loan_of to.old }
    ensures left { LeavesFile (length numbers.old / channels_of to.old) to.old to.new result }
    ensures gains { OnOk result (Gains E.state (change_numbers (S16 Little) (codec_of to.old) (vox_samples reader.old (high_half_first bytes.now))) to.old to.new) }
    ensures state { reader.new ≡ vox_state_read reader.old (high_half_first bytes.now) }
    ensures faults { CountsFile E.state to.old to.new result }
    ensures tells { TellsOn E.state to.old to.new }
    ensures time { GoesOnFrom E.state E.left_between (disk_of to.old) (disk_of to.new) }
    ensures asked { AsksNothing E.state to.old to.new }
{
    read_codes(reader, bytes, numbers);
    let wanted = to.params().codec;
    change_numbers(Codec::S16(Order::Little), wanted, numbers);
    Write::give(to, numbers)
}

// Gives a file the frames of bytes of a source.
fn give_piece<E: Disk>(
    to: &mut File<'_, E, Write>,
    source: &Source,
    bytes: &[u8],
    reader: &mut VoxReader,
    numbers: &mut [i32],
    coded: &mut [u8],
) -> Result<(), Stop>
    requires takes { MayTake (length numbers.old / channels_of to.old) source.now (known_of to.old) }
    requires whole { length numbers.old % channels_of to.old ≡ 0 }
    requires source { IsSource source.now }
    requires held { IsPiece source.now (length numbers.old) (length bytes.now) }
    requires fits { length coded.old ≡ 131072 }
    requires few { length numbers.old ≤ 32768 }
    ensures loan { loan_of to.new ≡ loan_of to.old }
    ensures left { LeavesFile (length numbers.old / channels_of to.old) to.old to.new result }
    ensures gains { OnOk result (Gains E.state (change_numbers source.now.params.codec (codec_of to.old) (sound_behind source.now.coding source.now.params.codec reader.old bytes.now)) to.old to.new) }
    ensures state { reader.new ≡ state_behind source.now.coding reader.old bytes.now }
    ensures faults { CountsFile E.state to.old to.new result }
    ensures tells { TellsOn E.state to.old to.new }
    ensures time { GoesOnFrom E.state E.left_between (disk_of to.old) (disk_of to.new) }
    ensures asked { AsksNothing E.state to.old to.new }
{
    match source.coding {
        Coding::Samples => give_passed(to, source.params.codec, bytes, numbers, coded),
        Coding::Codes => give_codes(to, bytes, reader, numbers),
    }
}

// Gives a file the next frames of a source, of which the bytes stand from a place on.
fn pass_piece<D: Disk, E: Disk>(
    disk: &mut D,
    at: u64,
    source: &Source,
    to: &mut File<'_, E, Write>,
    reader: &mut VoxReader,
    bytes: &mut [u8],
    numbers: &mut [i32],
    coded: &mut [u8],
) -> Result<(), Stop>
    requires within { at + length bytes.old ≤ (D.state disk.old).size }
    requires takes { MayTake (length numbers.old / channels_of to.old) source.now (known_of to.old) }
    requires whole { length numbers.old % channels_of to.old ≡ 0 }
    requires source { IsSource source.now }
    requires held { IsPiece source.now (length numbers.old) (length bytes.old) }
    requires fits { length coded.old ≡ 131072 }
    requires few { length numbers.old ≤ 32768 }
    ensures carries { Carries D.Disk E.Disk (length bytes.old) disk.old disk.new to.old to.new result }
    ensures longer { OnOk result (IsLonger (length numbers.old / channels_of to.old) (known_of to.old) (known_of to.new)) }
    ensures passed { OnOk result (Passes D.state E.state source.now at (length bytes.old) disk.old reader.old reader.new to.old to.new) }
{
    read_piece(disk, at, bytes)?;
    give_piece(to, source, bytes, reader, numbers, coded)
}

/// Gives a file that is being made all frames of a source on a disk, a piece at a time, each number in the width of
/// its codec. It takes no memory, and asks the bytes of the frames.
///
/// `Fault` where a call of one of the two disks failed.
pub(crate) fn give_all<D: Disk, E: Disk>(
    disk: &mut D,
    source: &Source,
    to: &mut File<'_, E, Write>,
) -> Result<(), Stop>
    requires held { IsHeld (D.state disk.old).size source.now }
    requires takes { MayTake source.now.frames source.now (known_of to.old) }
    ensures carries { Carries D.Disk E.Disk (bytes_in source.now.coding source.now.params source.now.frames) disk.old disk.new to.old to.new result }
    ensures gains { OnOk result (GainsAll D.state E.state source.now disk.old to.old to.new) }
{
    let (params, coding) = (source.params, source.coding);
    let channels = usize::from(params.channels);
    let mut bytes = [0u8; MOST_BYTES as usize];
    let mut numbers = [0i32; MOST_NUMBERS as usize];
    let mut coded = [0u8; MOST_CODED];
    let mut reader = VoxReader::new();
    let mut given = 0;
    while given < source.frames {
        let count = next_count(coding, params, source.frames - given);
        let at = source.start + bytes_in(coding, params, given);
        let held = &mut bytes[..bytes_in(coding, params, count) as usize];
        let whole = &mut numbers[..count as usize * channels];
        pass_piece(disk, at, source, to, &mut reader, held, whole, &mut coded)?;
        given += count;
    }
    Ok(())
}
