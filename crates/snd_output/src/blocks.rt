//! The frames of one file, behind those of another.

ghost use Rattle.std.specs.Prelude.{◌≡◌, ◌*◌, ◌/◌, ◌%◌, ◌≤◌, IfOk, OnOk, length, true};
ghost use Rattle.snd_disk.specs.Device.{GoesOnFrom, OnlyReadsOn};
ghost use Rattle.snd_layout.specs.Blocks.{block_align, block_frames, is_adpcm};
ghost use Rattle.snd_edits.specs.Calls.{count_read};
ghost use Rattle.snd_file.specs.Calls.{AsksForFrames};
ghost use Rattle.snd_file.specs.Handle.{StandsAfter, channels_of, codec_of, disk_of, known_of, loan_of};
ghost use Rattle.snd_edits.specs.Editing.{frames_read, moved_by};
ghost use Rattle.snd_file.specs.Outcomes.{AsksNothing, TellsOn};
ghost use Rattle.snd_output.specs.Appended.{AsksForLeft, CountsFiles, FindsChanged, LeavesFiles, Lengthens, MayAppend, OnlyReadsIn, Pass, bytes_for, bytes_in, frames_ahead, left_in, next_count, next_frames, next_numbers, numbers_left};

use crate::making::Making;
use crate::pages::frames_first;
use crate::samples::give_passed;
use crate::steps::{read_some, read_some_bytes};
use crate::stop::Stop;
use crate::widths::change_numbers;
use snd_disk::Disk;
use snd_edits::{Mode, Read};
use snd_file::File;
use snd_layout::{Codec, Params};

/// How many numbers a frame of a file has, and their codec.
pub fn numbers_of<D: Disk, M: Mode>(file: &File<'_, D, M>) -> (usize, Codec)
    ensures channels { result.0 ≡ channels_of file.now }
    ensures some { 1 ≤ result.0 }
    ensures most { result.0 ≤ 256 }
    ensures codec { result.1 ≡ codec_of file.now }
    ensures frames { 1 ≤ block_frames (codec_of file.now) }
{
    file.keeps_rule();
    let params = file.params();
    params.are_good();
    (usize::from(params.channels), params.codec)
}

// The most bytes of samples that pass at a time, and the most samples, which become at most four bytes each; and the
// most samples of a file that passes through less.
const MOST_BYTES: usize = 65536;

const MOST_NUMBERS: usize = 32768;

const FEW_NUMBERS: usize = 4096;

// How many places of a block are used by numbers: those of whole frames, and of a multiple of the frames of a block of
// the file that is given them, but where they come in blocks themselves or there are too few places for one.
fn places_of(places: usize, channels: usize, from: Codec, to: Params) -> usize
    requires some { 1 ≤ channels }
    requires one { channels ≤ places }
    requires together { 1 ≤ block_frames to.codec }
    ensures one { channels ≤ result }
    ensures fits { result ≤ places }
    ensures whole { result % channels ≡ 0 }
    ensures all { is_adpcm from ≡ true → result / channels ≡ places / channels }
{
    let frames = places / channels;
    let together = usize::from(to.block_frames());
    if from.is_adpcm() || frames < together {
        return frames * channels;
    }
    (frames - frames % together) * channels
}

// Puts as many frames of one file behind those of another as a block has places for, fewer only at the end, by their
// numbers. The answer is how many.
fn append_block<D: Disk, E: Disk, M: Making>(
    from: &mut File<'_, D, Read>,
    to: &mut File<'_, E, M>,
    block: &mut [i32],
) -> Result<usize, Stop>
    requires may { MayAppend (known_of from.old) (known_of to.old) }
    requires whole { length block.old % channels_of from.old ≡ 0 }
    ensures loan { loan_of from.new ≡ loan_of from.old }
    ensures to_loan { loan_of to.new ≡ loan_of to.old }
    ensures count { IfOk result (λ k. k ≡ next_count (length block.old) from.old) }
    ensures left { LeavesFiles (next_count (length block.old) from.old) from.old from.new to.old to.new result }
    ensures changed { FindsChanged D.state (next_frames (length block.old) from.old) from.old result }
    ensures stands { IfOk result (λ k. StandsAfter D.state from.old from.new (moved_by k)) }
    ensures lengthens { IfOk result (λ k. Lengthens D.state E.state (next_numbers k) from.old to.old to.new) }
    ensures faults { CountsFiles D.state E.state from.old from.new to.old to.new result }
    ensures reads { OnlyReadsIn D.Disk from.old from.new }
    ensures tells { TellsOn E.state to.old to.new }
    ensures time { GoesOnFrom E.state E.left_between (disk_of to.old) (disk_of to.new) }
    ensures asked { AsksForFrames D.state (length block.old) from.old from.new }
    ensures to_asked { AsksNothing E.state to.old to.new }
{
    let (channels, codec) = numbers_of(from);
    let (_, wanted) = numbers_of(to);
    let count = read_some(from, block)?;
    let numbers = &mut block[..count * channels];
    change_numbers(codec, wanted, numbers);
    M::give(to, numbers)?;
    Ok(count)
}

// Puts the frames that are left in one file behind those of another by their numbers, as many at a time as a block has
// places for.
fn append_numbers<D: Disk, E: Disk, M: Making>(
    from: &mut File<'_, D, Read>,
    to: &mut File<'_, E, M>,
    block: &mut [i32],
) -> Result<(), Stop>
    requires may { MayAppend (known_of from.old) (known_of to.old) }
    requires places { channels_of from.old ≤ length block.old }
    requires together { 1 ≤ block_frames (codec_of to.old) }
    ensures loan { loan_of from.new ≡ loan_of from.old }
    ensures to_loan { loan_of to.new ≡ loan_of to.old }
    ensures left { LeavesFiles (left_in (known_of from.old)) from.old from.new to.old to.new result }
    ensures changed { FindsChanged D.state frames_ahead from.old result }
    ensures lengthens { OnOk result (Lengthens D.state E.state numbers_left from.old to.old to.new) }
    ensures faults { CountsFiles D.state E.state from.old from.new to.old to.new result }
    ensures reads { OnlyReadsIn D.Disk from.old from.new }
    ensures tells { TellsOn E.state to.old to.new }
    ensures time { GoesOnFrom E.state E.left_between (disk_of to.old) (disk_of to.new) }
    ensures asked { AsksForLeft D.state (length block.old) from.old from.new }
    ensures to_asked { AsksNothing E.state to.old to.new }
{
    let (channels, codec) = numbers_of(from);
    let places = places_of(block.len(), channels, codec, to.params());
    let mut count = 1;
    while count > 0 {
        let whole = &mut block[..places];
        count = append_block(from, to, whole)?;
    }
    Ok(())
}

// Puts frames of one file behind those of another as `append_block` does, by their bytes: as many as the bytes have places
// for.
fn pass_block<D: Disk, E: Disk, M: Making>(
    from: &mut File<'_, D, Read>,
    to: &mut File<'_, E, M>,
    block: &mut [i32],
    bytes: &mut [u8],
    coded: &mut [u8],
) -> Result<usize, Stop>
    requires may { MayAppend (known_of from.old) (known_of to.old) }
    requires pass { Pass (codec_of from.old) (codec_of to.old) }
    requires whole { length block.old % channels_of from.old ≡ 0 }
    requires held { length bytes.old ≡ bytes_for from.old (length block.old) }
    requires few { length block.old ≤ 32768 }
    requires fits { bytes_in (codec_of to.old) (length block.old) ≤ length coded.old }
    ensures loan { loan_of from.new ≡ loan_of from.old }
    ensures to_loan { loan_of to.new ≡ loan_of to.old }
    ensures count { IfOk result (λ k. k ≡ next_count (length block.old) from.old) }
    ensures left { LeavesFiles (next_count (length block.old) from.old) from.old from.new to.old to.new result }
    ensures changed { FindsChanged D.state (next_frames (length block.old) from.old) from.old result }
    ensures stands { IfOk result (λ k. StandsAfter D.state from.old from.new (moved_by k)) }
    ensures lengthens { IfOk result (λ k. Lengthens D.state E.state (next_numbers k) from.old to.old to.new) }
    ensures faults { CountsFiles D.state E.state from.old from.new to.old to.new result }
    ensures reads { OnlyReadsIn D.Disk from.old from.new }
    ensures tells { TellsOn E.state to.old to.new }
    ensures time { GoesOnFrom E.state E.left_between (disk_of to.old) (disk_of to.new) }
    ensures asked { AsksForFrames D.state (length block.old) from.old from.new }
    ensures to_asked { AsksNothing E.state to.old to.new }
{
    let (channels, codec) = numbers_of(from);
    let align = usize::from(from.params().block_align());
    let count = read_some_bytes(from, bytes)?;
    let numbers = &mut block[..count * channels];
    give_passed(to, codec, &bytes[..count * align], numbers, coded)?;
    Ok(count)
}

// How many frames pass at a time: as many as there are places for, of their samples and of their bytes.
fn frames_of(numbers: usize, channels: usize, bytes: usize, align: usize) -> usize
    requires some { (1 ≤ channels) × (1 ≤ align) }
    requires one { (channels ≤ numbers) × (align ≤ bytes) }
    ensures one { 1 ≤ result }
    ensures numbers { result * channels ≤ numbers }
    ensures bytes { result * align ≤ bytes }
{
    (numbers / channels).min(bytes / align)
}

// Puts the frames that are left in one file behind those of another by their bytes, as many at a time as there are places
// for their samples and their bytes. The first ones may be fewer, so that the later ones end where the pages of the file
// do that is given them.
fn append_bytes<D: Disk, E: Disk, M: Making>(
    from: &mut File<'_, D, Read>,
    to: &mut File<'_, E, M>,
    numbers: &mut [i32],
    bytes: &mut [u8],
    coded: &mut [u8],
) -> Result<(), Stop>
    requires may { MayAppend (known_of from.old) (known_of to.old) }
    requires pass { Pass (codec_of from.old) (codec_of to.old) }
    requires places { channels_of from.old ≤ length numbers.old }
    requires few { length numbers.old ≤ 32768 }
    requires held { block_align (channels_of from.old) (codec_of from.old) ≤ length bytes.old }
    requires few_bytes { length bytes.old ≤ 65536 }
    requires fits { 4 * length numbers.old ≤ length coded.old }
    ensures loan { loan_of from.new ≡ loan_of from.old }
    ensures to_loan { loan_of to.new ≡ loan_of to.old }
    ensures left { LeavesFiles (left_in (known_of from.old)) from.old from.new to.old to.new result }
    ensures changed { FindsChanged D.state frames_ahead from.old result }
    ensures lengthens { OnOk result (Lengthens D.state E.state numbers_left from.old to.old to.new) }
    ensures faults { CountsFiles D.state E.state from.old from.new to.old to.new result }
    ensures reads { OnlyReadsIn D.Disk from.old from.new }
    ensures tells { TellsOn E.state to.old to.new }
    ensures time { GoesOnFrom E.state E.left_between (disk_of to.old) (disk_of to.new) }
    ensures asked { AsksForLeft D.state (length numbers.old) from.old from.new }
    ensures to_asked { AsksNothing E.state to.old to.new }
{
    let (channels, _) = numbers_of(from);
    let align = usize::from(from.params().block_align());
    let most = frames_of(numbers.len(), channels, bytes.len(), align);
    let mut frames = frames_first(to, most);
    let mut count = 1;
    while count > 0 {
        let block = &mut numbers[..frames * channels];
        let held = &mut bytes[..frames * align];
        count = pass_block(from, to, block, held, coded)?;
        frames = most;
    }
    Ok(())
}

// Puts the frames that are left in one file behind those of another as `append_bytes` does, of any number. A function
// touches its stack page by page as it begins, so this one stands by itself: few frames pass without it.
#[inline(never)]
fn append_many<D: Disk, E: Disk, M: Making>(
    from: &mut File<'_, D, Read>,
    to: &mut File<'_, E, M>,
) -> Result<(), Stop>
    requires may { MayAppend (known_of from.old) (known_of to.old) }
    requires pass { Pass (codec_of from.old) (codec_of to.old) }
    requires channels { channels_of from.old ≤ 256 }
    ensures loan { loan_of from.new ≡ loan_of from.old }
    ensures to_loan { loan_of to.new ≡ loan_of to.old }
    ensures left { LeavesFiles (left_in (known_of from.old)) from.old from.new to.old to.new result }
    ensures changed { FindsChanged D.state frames_ahead from.old result }
    ensures lengthens { OnOk result (Lengthens D.state E.state numbers_left from.old to.old to.new) }
    ensures faults { CountsFiles D.state E.state from.old from.new to.old to.new result }
    ensures reads { OnlyReadsIn D.Disk from.old from.new }
    ensures tells { TellsOn E.state to.old to.new }
    ensures time { GoesOnFrom E.state E.left_between (disk_of to.old) (disk_of to.new) }
    ensures asked { AsksForLeft D.state 32768 from.old from.new }
    ensures to_asked { AsksNothing E.state to.old to.new }
{
    let mut numbers = [0i32; MOST_NUMBERS];
    let mut bytes = [0u8; MOST_BYTES];
    let mut coded = [0u8; 4 * MOST_NUMBERS];
    append_bytes(from, to, &mut numbers, &mut bytes, &mut coded)
}

/// Puts the frames that are left in one file, from the one to read next on, behind those of another, a
/// block at a time. Where the codecs have numbers of different widths, each number is changed: a wider
/// one is a multiple by a power of two, a narrower one is divided by it and rounded toward minus infinity.
/// Samples pass by their bytes, but where either codec is ADPCM; then the first block may be shorter than the
/// others. A file of ADPCM is given whole blocks of its own at a time, as many as there are places for, but by one that
/// comes in blocks itself. What the block held is lost; it has places for one frame at least. It takes no memory, and asks the
/// disk that is read for at most the bytes of the frames; in ADPCM for those of their blocks, and in each call
/// for two more.
///
/// The answer is `Fault` where a call of one of the two disks failed: from then on its file is broken; and
/// `Changed` where a block of the file that is read is bad, so never where `check_blocks` passed them all and
/// the file has not changed since.
pub fn append<D: Disk, E: Disk, M: Making>(
    from: &mut File<'_, D, Read>,
    to: &mut File<'_, E, M>,
    block: &mut [i32],
) -> Result<(), Stop>
    requires may { MayAppend (known_of from.old) (known_of to.old) }
    requires places { channels_of from.old ≤ length block.old }
    ensures loan { loan_of from.new ≡ loan_of from.old }
    ensures to_loan { loan_of to.new ≡ loan_of to.old }
    ensures left { LeavesFiles (left_in (known_of from.old)) from.old from.new to.old to.new result }
    ensures changed { FindsChanged D.state frames_ahead from.old result }
    ensures lengthens { OnOk result (Lengthens D.state E.state numbers_left from.old to.old to.new) }
    ensures faults { CountsFiles D.state E.state from.old from.new to.old to.new result }
    ensures reads { OnlyReadsIn D.Disk from.old from.new }
    ensures tells { TellsOn E.state to.old to.new }
    ensures time { GoesOnFrom E.state E.left_between (disk_of to.old) (disk_of to.new) }
    ensures asked { AsksForLeft D.state (length block.old) from.old from.new }
    ensures to_asked { AsksNothing E.state to.old to.new }
{
    let (channels, codec) = numbers_of(from);
    let (_, wanted) = numbers_of(to);
    if codec.is_adpcm() || wanted.is_adpcm() {
        return append_numbers(from, to, block);
    }
    if from.frames() > (FEW_NUMBERS / channels) as u64 {
        return append_many(from, to);
    }
    let few = block.len().min(FEW_NUMBERS);
    let mut bytes = [0u8; 4 * FEW_NUMBERS];
    let mut coded = [0u8; 4 * FEW_NUMBERS];
    append_bytes(from, to, &mut block[..few], &mut bytes, &mut coded)
}
