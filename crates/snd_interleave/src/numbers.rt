//! The numbers of one input.

ghost use Rattle.std.specs.Prelude.{◌≡◌, ◌≢◌, ◌*◌, ◌<◌, ◌≤◌, ℕ, All, IfOk, OnOk, get_or, is_some, length, pos, take};
ghost use Rattle.snd_layout.specs.Blocks.{is_adpcm};
ghost use Rattle.snd_edits.specs.Reading.{FitCodec};
ghost use Rattle.snd_frames.specs.Caching.{IsEmpty};
ghost use Rattle.snd_output.specs.Ends.{CountsStop};
ghost use Rattle.snd_output.specs.Widths.{width_of};
ghost use Rattle.snd_pcm.specs.Width.{HasWidth};
ghost use Rattle.snd_interleave.specs.Asking.{AsksInput, bytes_from};
ghost use Rattle.snd_interleave.specs.Beside.{HasChannel, KeepsChannels};
ghost use Rattle.snd_interleave.specs.Channels.{InputChanged, Reads, faults_of};
ghost use Rattle.snd_interleave.specs.Reading.{GivesHeld, HasChannelOf, IsCount};

use snd_blocks::{BlockCache, BlockError};
use snd_disk::Disk;
use snd_frames::{BLOCK_BYTES, frames_ahead, is_adpcm, read_any};
use snd_inputs::Input;
use snd_layout::Codec;
use snd_output::{Stop, change_numbers};
use std::alloc::{AllocError, Global};

// What a file is read by blocks with, where its codec is ADPCM.
fn cache_for(alloc: Global, codec: Codec) -> Result<Option<Box<BlockCache>>, AllocError>
    ensures blocks { IfOk result (λ cache. is_some cache ≡ is_adpcm codec) }
    ensures empty { IfOk result IsEmpty }
{
    if !is_adpcm(codec) {
        return Ok(None);
    }
    Ok(Some(Box::new(alloc, BlockCache::new())?))
}

// Reads numbers of an input from a frame on, as many as the slice has places for, fewer only at the end.
fn read_input<D: Disk>(
    alloc: Global,
    input: &mut Input<D>,
    place: u64,
    into: &mut [i32],
) -> Result<usize, Stop>
    requires mono { input.old.layout.params.channels ≡ 1 }
    ensures count { IfOk result (IsCount place input.old.layout.frames (length into.old)) }
    ensures read { IfOk result (GivesHeld D.state input.old place into.new) }
    ensures in_range { IfOk result (λ k. FitCodec input.old.layout.params.codec (take k into.new)) }
    ensures faults { CountsStop (faults_of D.state input.old) (faults_of D.state input.new) result }
    ensures changed { InputChanged D.state input.old result }
    ensures reads { Reads D.Disk input.old input.new }
    ensures asked { AsksInput D.state (bytes_from place (length into.old)) input.old input.new }
{
    if place >= input.layout.frames {
        return Ok(0);
    }
    let Ok(mut cache) = cache_for(alloc, input.layout.params.codec) else {
        return Err(Stop::Memory);
    };
    let mut block = [0; BLOCK_BYTES];
    let count = frames_ahead(&input.layout, place, into.len());
    match read_any(
        &mut input.disk,
        &input.layout,
        place,
        count,
        &mut into[..count],
        &mut block,
        &mut cache,
    ) {
        Ok(()) => Ok(count),
        Err(BlockError::BadBlock) => Err(Stop::Changed),
        Err(BlockError::DiskFault(_)) => Err(Stop::Fault),
    }
}

// The codec of an input.
fn codec_in<D: Disk>(input: &Input<D>) -> Codec
    ensures { result ≡ input.now.layout.params.codec }
{
    input.layout.params.codec
}

/// Puts zeros into a slice from a place on.
pub(crate) fn put_zeros<T: Copy>(zero: T, from: usize, into: &mut [T])
    requires { from ≤ length into.old }
    ensures zeros { (j : ℕ) → from ≤ j → j < length into.new → get_or into.new j zero ≡ zero }
    ensures front { take from into.new ≡ take from into.old }
{
    for held in into[from..].iter_mut() {
        *held = zero;
    }
}

/// Reads the numbers of an input from a frame on, as many as the slice has places for, with zeros behind its
/// end, as numbers of a codec.
pub(crate) fn read_numbers<D: Disk>(
    alloc: Global,
    input: &mut Input<D>,
    place: u64,
    codec: Codec,
    into: &mut [i32],
) -> Result<(), Stop>
    requires mono { input.old.layout.params.channels ≡ 1 }
    ensures read { OnOk result (HasChannelOf D.state input.old codec place (length into.old) into.new) }
    ensures in_range { OnOk result (All (HasWidth (width_of codec)) into.new) }
    ensures faults { CountsStop (faults_of D.state input.old) (faults_of D.state input.new) result }
    ensures changed { InputChanged D.state input.old result }
    ensures reads { Reads D.Disk input.old input.new }
    ensures asked { AsksInput D.state (bytes_from place (length into.old)) input.old input.new }
{
    let own = codec_in(input);
    let count = read_input(alloc, input, place, into)?;
    put_zeros(0, count, into);
    change_numbers(own, codec, into);
    Ok(())
}

/// Puts numbers into a block of as many frames, as one of their channels.
pub(crate) fn put_numbers(numbers: &[i32], channels: usize, which: usize, block: &mut [i32])
    requires within { which < channels }
    requires size { length block.old ≡ length numbers.now * channels }
    ensures put { HasChannel channels which (length numbers.now) numbers.now block.new }
    ensures others { KeepsChannels channels which (length numbers.now) block.old block.new }
{
    for (i, number) in numbers.iter().enumerate() {
        block[i * channels + which] = *number;
    }
}
