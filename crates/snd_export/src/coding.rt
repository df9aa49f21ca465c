//! The frames of a file as the bytes that they become, a block at a time.

ghost use Rattle.std.specs.Prelude.{◌≡◌, ◌+◌, ◌*◌, ◌%◌, ◌≤◌, All, OnOk, false, is_some, length, true};
ghost use Rattle.snd_disk.specs.Device.{AsksAtMost, OnlyReadsOn};
ghost use Rattle.snd_edits.specs.Reading.{FitCodec, bytes_to_read};
ghost use Rattle.snd_fields.specs.Laws.{IsByte};
ghost use Rattle.snd_frames.specs.Caching.{CachesIn};
ghost use Rattle.snd_vox.specs.Vox.{VoxState};
ghost use Rattle.snd_layout.specs.Blocks.{is_adpcm};
ghost use Rattle.snd_layout.specs.Shape.{end};
ghost use Rattle.snd_output.specs.Appended.{has_two_zeros};
ghost use Rattle.snd_output.specs.Ends.{CountsStop, IsUnchanged};
ghost use Rattle.snd_export.specs.declared.target.Target.TheVariants as target;
ghost use Rattle.snd_export.specs.Coding.{ChangedBad, Codes, HasChannels, HasNumbers, IsPlain};

use crate::pairs::{make_even, put_pairs};
use crate::target::{Target, codec_of};
use snd_blocks::{BlockCache, BlockError};
use snd_container::{fixed_form, put_samples};
use snd_disk::Disk;
use snd_fields::Order;
use snd_frames::{BLOCK_BYTES, align_of, channels_of, read_any, read_raw};
use snd_layout::{Codec, Layout};
use snd_output::{Stop, change_numbers, recode_into};
use snd_vox::VoxWriter;

// Reads frames that the layout counts, from a place on, as numbers of a codec.
fn read_numbers<D: Disk>(
    from: &mut D,
    layout: &Layout,
    place: u64,
    count: usize,
    codec: Codec,
    into: &mut [i32],
    block: &mut [u8; BLOCK_BYTES],
    cache: &mut Option<Box<BlockCache>>,
) -> Result<(), Stop>
    requires blocks { is_some cache.old ≡ is_adpcm layout.now.params.codec }
    requires cached { CachesIn D.state from.old layout.now cache.old }
    requires held { end layout.now layout.now.frames ≤ (D.state from.old).size }
    requires within { place + count ≤ layout.now.frames }
    requires room { length into.old ≡ count * layout.now.params.channels }
    ensures blocks { is_some cache.new ≡ is_adpcm layout.now.params.codec }
    ensures cached { CachesIn D.state from.new layout.now cache.new }
    ensures read { OnOk result (HasNumbers D.state from.old layout.now codec place count into.new) }
    ensures in_range { OnOk result (FitCodec codec into.new) }
    ensures faults { CountsStop (D.state from.old).faults (D.state from.new).faults result }
    ensures changed { ChangedBad D.state from.old layout.now result }
    ensures reads { OnlyReadsOn D.state D.may_leave D.left_between from.old from.new }
    ensures asked { AsksAtMost D.state (bytes_to_read layout.now.params count) from.old from.new }
{
    let own = codec_of(layout);
    match read_any(from, layout, place, count, into, block, cache) {
        Ok(()) => {
            change_numbers(own, codec, into);
            Ok(())
        }
        Err(BlockError::BadBlock) => Err(Stop::Changed),
        Err(BlockError::DiskFault(_)) => Err(Stop::Fault),
    }
}

// Reads frames as numbers, and puts them as samples of a codec.
fn code_numbers<D: Disk>(
    from: &mut D,
    layout: &Layout,
    place: u64,
    count: usize,
    codec: Codec,
    numbers: &mut [i32],
    block: &mut [u8; BLOCK_BYTES],
    cache: &mut Option<Box<BlockCache>>,
    coded: &mut [u8],
) -> Result<usize, Stop>
    requires blocks { is_some cache.old ≡ is_adpcm layout.now.params.codec }
    requires cached { CachesIn D.state from.old layout.now cache.old }
    requires held { end layout.now layout.now.frames ≤ (D.state from.old).size }
    requires within { place + count ≤ layout.now.frames }
    requires plain { is_adpcm codec ≡ false }
    requires room { count * layout.now.params.channels ≤ length numbers.old }
    requires fits { 4 * length numbers.old ≤ length coded.old }
    ensures blocks { is_some cache.new ≡ is_adpcm layout.now.params.codec }
    ensures cached { CachesIn D.state from.new layout.now cache.new }
    ensures coded { (vox : VoxState) →
        Codes D.state from.old layout.now (target.Samples codec) place count vox vox coded.new result }
    ensures faults { CountsStop (D.state from.old).faults (D.state from.new).faults result }
    ensures changed { ChangedBad D.state from.old layout.now result }
    ensures reads { OnlyReadsOn D.state D.may_leave D.left_between from.old from.new }
    ensures asked { AsksAtMost D.state (bytes_to_read layout.now.params count) from.old from.new }
{
    let Some(form) = fixed_form(codec) else {
        unreachable!()
    };
    let numbers = &mut numbers[..count * channels_of(layout)];
    read_numbers(from, layout, place, count, codec, numbers, block, cache)?;
    let size = form.bytes() * numbers.len();
    put_samples(form, numbers, &mut coded[..size]);
    Ok(size)
}

// What a slice has are bytes: so many.
fn are_bytes(bytes: &[u8]) -> usize
    ensures size { result ≡ length bytes.now }
    ensures bytes { All IsByte bytes.now }
{
    bytes.len()
}

// Whether samples of a codec stay as they are: no two of them stand for one number, as two of the mu-law do for zero.
fn stay(own: Codec, codec: Codec) -> bool
    ensures { result ≡ true → (own ≡ codec) × (has_two_zeros own ≡ false) }
{
    own == codec && !matches!(own, Codec::MuLaw)
}

// Reads the samples of frames, which stay as they are.
fn keep_samples<D: Disk>(
    from: &mut D,
    layout: &Layout,
    place: u64,
    count: usize,
    coded: &mut [u8],
) -> Result<usize, Stop>
    requires plain { is_adpcm layout.now.params.codec ≡ false }
    requires one { has_two_zeros layout.now.params.codec ≡ false }
    requires held { end layout.now layout.now.frames ≤ (D.state from.old).size }
    requires within { place + count ≤ layout.now.frames }
    requires fits { 4 * (count * layout.now.params.channels) ≤ length coded.old }
    ensures coded { (vox : VoxState) →
        Codes D.state from.old layout.now (target.Samples layout.now.params.codec) place count vox vox coded.new result }
    ensures faults { CountsStop (D.state from.old).faults (D.state from.new).faults result }
    ensures unchanged { IsUnchanged result }
    ensures reads { OnlyReadsOn D.state D.may_leave D.left_between from.old from.new }
    ensures asked { AsksAtMost D.state (bytes_to_read layout.now.params count) from.old from.new }
{
    let size = count * align_of(layout);
    match read_raw(from, layout, place, count, &mut coded[..size]) {
        Ok(()) => Ok(are_bytes(&coded[..size])),
        Err(_) => Err(Stop::Fault),
    }
}

// Reads the samples of frames, and makes them samples of another codec.
fn pass_samples<D: Disk>(
    from: &mut D,
    layout: &Layout,
    place: u64,
    count: usize,
    codec: Codec,
    numbers: &mut [i32],
    bytes: &mut [u8],
    coded: &mut [u8],
) -> Result<usize, Stop>
    requires plain { is_adpcm layout.now.params.codec ≡ false }
    requires to_plain { is_adpcm codec ≡ false }
    requires held { end layout.now layout.now.frames ≤ (D.state from.old).size }
    requires within { place + count ≤ layout.now.frames }
    requires room { count * layout.now.params.channels ≤ length numbers.old }
    requires places { 4 * length numbers.old ≤ length bytes.old }
    requires fits { 4 * length numbers.old ≤ length coded.old }
    ensures coded { (vox : VoxState) →
        Codes D.state from.old layout.now (target.Samples codec) place count vox vox coded.new result }
    ensures faults { CountsStop (D.state from.old).faults (D.state from.new).faults result }
    ensures unchanged { IsUnchanged result }
    ensures reads { OnlyReadsOn D.state D.may_leave D.left_between from.old from.new }
    ensures asked { AsksAtMost D.state (bytes_to_read layout.now.params count) from.old from.new }
{
    let own = codec_of(layout);
    let bytes = &mut bytes[..count * align_of(layout)];
    let numbers = &mut numbers[..count * channels_of(layout)];
    match read_raw(from, layout, place, count, bytes) {
        Ok(()) => Ok(recode_into(own, codec, bytes, numbers, coded)),
        Err(_) => Err(Stop::Fault),
    }
}

// Reads frames, and makes them samples of a codec: by their bytes, where they have some of their own.
fn code_samples<D: Disk>(
    from: &mut D,
    layout: &Layout,
    place: u64,
    count: usize,
    codec: Codec,
    numbers: &mut [i32],
    bytes: &mut [u8],
    block: &mut [u8; BLOCK_BYTES],
    cache: &mut Option<Box<BlockCache>>,
    coded: &mut [u8],
) -> Result<usize, Stop>
    requires blocks { is_some cache.old ≡ is_adpcm layout.now.params.codec }
    requires cached { CachesIn D.state from.old layout.now cache.old }
    requires held { end layout.now layout.now.frames ≤ (D.state from.old).size }
    requires within { place + count ≤ layout.now.frames }
    requires plain { is_adpcm codec ≡ false }
    requires room { count * layout.now.params.channels ≤ length numbers.old }
    requires places { 4 * length numbers.old ≤ length bytes.old }
    requires fits { 4 * length numbers.old ≤ length coded.old }
    ensures blocks { is_some cache.new ≡ is_adpcm layout.now.params.codec }
    ensures cached { CachesIn D.state from.new layout.now cache.new }
    ensures coded { (vox : VoxState) →
        Codes D.state from.old layout.now (target.Samples codec) place count vox vox coded.new result }
    ensures faults { CountsStop (D.state from.old).faults (D.state from.new).faults result }
    ensures changed { ChangedBad D.state from.old layout.now result }
    ensures reads { OnlyReadsOn D.state D.may_leave D.left_between from.old from.new }
    ensures asked { AsksAtMost D.state (bytes_to_read layout.now.params count) from.old from.new }
{
    let own = codec_of(layout);
    if own.is_adpcm() {
        return code_numbers(
            from, layout, place, count, codec, numbers, block, cache, coded,
        );
    }
    if stay(own, codec) {
        return keep_samples(from, layout, place, count, coded);
    }
    pass_samples(from, layout, place, count, codec, numbers, bytes, coded)
}

// Reads frames of one channel, and makes them codes of VOX.
fn code_vox<D: Disk>(
    from: &mut D,
    layout: &Layout,
    place: u64,
    count: usize,
    writer: &mut VoxWriter,
    numbers: &mut [i32],
    block: &mut [u8; BLOCK_BYTES],
    cache: &mut Option<Box<BlockCache>>,
    coded: &mut [u8],
) -> Result<usize, Stop>
    requires blocks { is_some cache.old ≡ is_adpcm layout.now.params.codec }
    requires cached { CachesIn D.state from.old layout.now cache.old }
    requires held { end layout.now layout.now.frames ≤ (D.state from.old).size }
    requires within { place + count ≤ layout.now.frames }
    requires mono { layout.now.params.channels ≡ 1 }
    requires room { count ≤ length numbers.old }
    requires whole { length numbers.old % 2 ≡ 0 }
    requires fits { length numbers.old ≤ length coded.old }
    ensures blocks { is_some cache.new ≡ is_adpcm layout.now.params.codec }
    ensures cached { CachesIn D.state from.new layout.now cache.new }
    ensures coded { Codes D.state from.old layout.now target.Vox place count writer.old writer.new coded.new result }
    ensures faults { CountsStop (D.state from.old).faults (D.state from.new).faults result }
    ensures changed { ChangedBad D.state from.old layout.now result }
    ensures reads { OnlyReadsOn D.state D.may_leave D.left_between from.old from.new }
    ensures asked { AsksAtMost D.state (bytes_to_read layout.now.params count) from.old from.new }
{
    let codec = Codec::S16(Order::Little);
    let wanted = &mut numbers[..count];
    read_numbers(from, layout, place, count, codec, wanted, block, cache)?;
    let even = make_even(numbers, count);
    let size = even / 2;
    put_pairs(writer, &numbers[..even], &mut coded[..size]);
    Ok(size)
}

/// Reads frames that the layout counts, from a place on, and puts the bytes that they become into the front of a slice.
/// The answer is how many these are. It takes no memory.
///
/// `Fault` where a call of the disk failed, and `Changed` where a block of ADPCM is bad.
pub(crate) fn code_block<D: Disk>(
    from: &mut D,
    layout: &Layout,
    place: u64,
    count: usize,
    target: Target,
    writer: &mut VoxWriter,
    numbers: &mut [i32],
    bytes: &mut [u8],
    block: &mut [u8; BLOCK_BYTES],
    cache: &mut Option<Box<BlockCache>>,
    coded: &mut [u8],
) -> Result<usize, Stop>
    requires blocks { is_some cache.old ≡ is_adpcm layout.now.params.codec }
    requires cached { CachesIn D.state from.old layout.now cache.old }
    requires held { end layout.now layout.now.frames ≤ (D.state from.old).size }
    requires within { place + count ≤ layout.now.frames }
    requires plain { IsPlain target }
    requires channels { HasChannels target layout.now }
    requires room { count * layout.now.params.channels ≤ length numbers.old }
    requires whole { length numbers.old % 2 ≡ 0 }
    requires places { 4 * length numbers.old ≤ length bytes.old }
    requires fits { 4 * length numbers.old ≤ length coded.old }
    ensures blocks { is_some cache.new ≡ is_adpcm layout.now.params.codec }
    ensures cached { CachesIn D.state from.new layout.now cache.new }
    ensures coded { Codes D.state from.old layout.now target place count writer.old writer.new coded.new result }
    ensures faults { CountsStop (D.state from.old).faults (D.state from.new).faults result }
    ensures changed { ChangedBad D.state from.old layout.now result }
    ensures reads { OnlyReadsOn D.state D.may_leave D.left_between from.old from.new }
    ensures asked { AsksAtMost D.state (bytes_to_read layout.now.params count) from.old from.new }
{
    match target {
        Target::Samples(codec) => code_samples(
            from, layout, place, count, codec, numbers, bytes, block, cache, coded,
        ),
        Target::Vox => code_vox(
            from, layout, place, count, writer, numbers, block, cache, coded,
        ),
    }
}
