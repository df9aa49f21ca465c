//! The frames of inputs side by side, behind those of a file that is made.

ghost use Rattle.std.specs.Prelude.{◌≡◌, ◌*◌, ◌<◌, ◌^◌, IfErr, IfOk, IsTrue, OnOk, length};
ghost use Rattle.std.specs.Vec.{vec_len};
ghost use Rattle.snd_disk.specs.Device.{GoesOnFrom};
ghost use Rattle.snd_file.specs.Handle.{channels_of, codec_of, disk_of, known_of, loan_of};
ghost use Rattle.snd_file.specs.Outcomes.{AsksNothing, TellsOn};
ghost use Rattle.snd_output.specs.Appended.{HasRoom, IsAtEnd, IsLonger};
ghost use Rattle.snd_output.specs.Ends.{BreaksByFault};
ghost use Rattle.snd_interleave.specs.Asking.{AsksEach, AsksOnce, bytes_from};
ghost use Rattle.snd_interleave.specs.Beside.{HaveEach};
ghost use Rattle.snd_interleave.specs.Channels.{AreFrames, AreMono, CountsAddingTo, CountsInputs, Lengthens, ReadAll, StayGood, layouts_of, most_frames};
ghost use Rattle.snd_interleave.specs.Held.{AllSuit, SuitsPairs, is_pair};

use crate::held::Held;
use snd_disk::Disk;
use snd_file::File;
use snd_inputs::Input;
use snd_layout::Codec;
use snd_output::{Making, Stop, numbers_of};
use std::alloc::Global;

// Puts so many frames of two inputs into a block, from a place on: the samples of each pass by a buffer, and are joined
// at once.
fn fill_two<D: Disk, U: Held>(
    alloc: Global,
    inputs: &mut [Input<D>],
    place: u64,
    count: usize,
    codec: Codec,
    buffer: &mut [U],
    second: &mut [U],
    block: &mut [U],
) -> Result<(), Stop>
    requires two { length inputs.old ≡ 2 }
    requires mono { AreMono inputs.old }
    requires suit { AllSuit U.suits codec inputs.old }
    requires size { length buffer.old ≡ U.PER * count }
    requires alike { length second.old ≡ U.PER * count }
    requires room { length block.old ≡ U.PER * (count * 2) }
    ensures filled { OnOk result (AreFrames D.state inputs.old codec place count (U.numbers codec block.new)) }
    ensures in_range { OnOk result (HaveEach (U.fits codec) (count * 2) (U.numbers codec block.new)) }
    ensures faults { CountsInputs D.state inputs.old inputs.new result }
    ensures changed { StayGood D.state inputs.old result }
    ensures reads { ReadAll D.Disk inputs.old inputs.new }
    ensures asked { AsksEach D.state (bytes_from place count) inputs.old inputs.new }
{
    let first = &mut inputs[0];
    U::read(alloc, first, place, count, codec, buffer)?;
    let last = &mut inputs[1];
    U::read(alloc, last, place, count, codec, second)?;
    U::join(buffer, second, count, block);
    U::are_counted(block, count, 2);
    Ok(())
}

// .. of any number of inputs: of others than two one after the other, by the first buffer.
fn fill<D: Disk, U: Held>(
    alloc: Global,
    inputs: &mut [Input<D>],
    place: u64,
    count: usize,
    codec: Codec,
    buffer: &mut [U],
    second: &mut [U],
    block: &mut [U],
) -> Result<(), Stop>
    requires mono { AreMono inputs.old }
    requires suit { AllSuit U.suits codec inputs.old }
    requires size { length buffer.old ≡ U.PER * count }
    requires alike { length second.old ≡ U.PER * count }
    requires room { length block.old ≡ U.PER * (count * length inputs.old) }
    ensures filled { OnOk result (AreFrames D.state inputs.old codec place count (U.numbers codec block.new)) }
    ensures in_range { OnOk result (HaveEach (U.fits codec) (count * length inputs.old) (U.numbers codec block.new)) }
    ensures faults { CountsInputs D.state inputs.old inputs.new result }
    ensures changed { StayGood D.state inputs.old result }
    ensures reads { ReadAll D.Disk inputs.old inputs.new }
    ensures asked { AsksEach D.state (bytes_from place count) inputs.old inputs.new }
{
    let channels = inputs.len();
    if channels == 2 {
        return fill_two(alloc, inputs, place, count, codec, buffer, second, block);
    }
    for i in 0..channels {
        let input = &mut inputs[i];
        U::read(alloc, input, place, count, codec, buffer)?;
        U::put(buffer, count, channels, i, block);
    }
    U::are_counted(block, count, channels);
    Ok(())
}

// Puts so many frames of inputs, from a place on, behind those of a file that is made. Each of two buffers has places
// for the samples of one input, and the block for all of them.
fn add_block<D: Disk, E: Disk, M: Making, U: Held>(
    alloc: Global,
    inputs: &mut [Input<D>],
    to: &mut File<'_, E, M>,
    place: u64,
    count: usize,
    buffer: &mut [U],
    second: &mut [U],
    block: &mut [U],
) -> Result<(), Stop>
    requires mono { AreMono inputs.old }
    requires suit { AllSuit U.suits (codec_of to.old) inputs.old }
    requires alike { channels_of to.old ≡ length inputs.old }
    requires at_end { IsAtEnd (known_of to.old) }
    requires room { HasRoom count (known_of to.old) }
    requires size { length buffer.old ≡ U.PER * count }
    requires two { length second.old ≡ U.PER * count }
    requires all { length block.old ≡ U.PER * (count * length inputs.old) }
    ensures loan { loan_of to.new ≡ loan_of to.old }
    ensures left { OnOk result (IsLonger count (known_of to.old) (known_of to.new)) }
    ensures works { BreaksByFault (known_of to.new) result }
    ensures lengthens { OnOk result (Lengthens D.state E.state place count inputs.old to.old to.new) }
    ensures faults { CountsAddingTo D.state E.state inputs.old inputs.new to.old to.new result }
    ensures changed { StayGood D.state inputs.old result }
    ensures reads { ReadAll D.Disk inputs.old inputs.new }
    ensures tells { TellsOn E.state to.old to.new }
    ensures time { GoesOnFrom E.state E.left_between (disk_of to.old) (disk_of to.new) }
    ensures asked { AsksEach D.state (bytes_from place count) inputs.old inputs.new }
    ensures unasked { AsksNothing E.state to.old to.new }
{
    let (_, codec) = numbers_of(to);
    fill(alloc, inputs, place, count, codec, buffer, second, block)?;
    U::give(to, count, block)
}

// Places for so many samples.
fn places_for<U: Held>(alloc: Global, count: usize) -> Result<Vec<U>, Stop>
    requires { U.PER * count < 2 ^ 63 }
    ensures size { IfOk result (λ places. vec_len places ≡ U.PER * count) }
    ensures memory { IfErr result (λ stop. stop ≡ Stop.Memory) }
{
    let size = U::PER * count;
    let Ok(places) = vec![in alloc; U::ZERO; size] else {
        return Err(Stop::Memory);
    };
    Ok(places)
}

// Puts all frames there by such places, which have room for the most samples of a channel, and of all of them: as many at a
// time, but fewer at first.
fn add_by<D: Disk, E: Disk, M: Making, U: Held>(
    alloc: Global,
    inputs: &mut [Input<D>],
    to: &mut File<'_, E, M>,
    frames: u64,
    buffer: &mut [U],
    second: &mut [U],
    block: &mut [U],
) -> Result<(), Stop>
    requires mono { AreMono inputs.old }
    requires suit { AllSuit U.suits (codec_of to.old) inputs.old }
    requires alike { channels_of to.old ≡ length inputs.old }
    requires at_end { IsAtEnd (known_of to.old) }
    requires room { HasRoom frames (known_of to.old) }
    requires all { frames ≡ most_frames (layouts_of inputs.old) }
    requires size { length buffer.old ≡ U.PER * U.MOST }
    requires two { length second.old ≡ U.PER * U.MOST }
    requires block { length block.old ≡ U.PER * (U.MOST * length inputs.old) }
    ensures loan { loan_of to.new ≡ loan_of to.old }
    ensures works { BreaksByFault (known_of to.new) result }
    ensures lengthens { OnOk result (Lengthens D.state E.state 0 frames inputs.old to.old to.new) }
    ensures faults { CountsAddingTo D.state E.state inputs.old inputs.new to.old to.new result }
    ensures changed { StayGood D.state inputs.old result }
    ensures reads { ReadAll D.Disk inputs.old inputs.new }
    ensures tells { TellsOn E.state to.old to.new }
    ensures time { GoesOnFrom E.state E.left_between (disk_of to.old) (disk_of to.new) }
    ensures asked { AsksOnce D.state inputs.old inputs.new }
    ensures unasked { AsksNothing E.state to.old to.new }
{
    let (channels, _) = numbers_of(to);
    let mut most = U::count_first(to);
    let mut place = 0;
    while place < frames {
        let count = (frames - place).min(most as u64) as usize;
        let size = U::PER * count;
        add_block(
            alloc,
            inputs,
            to,
            place,
            count,
            &mut buffer[..size],
            &mut second[..size],
            &mut block[..size * channels],
        )?;
        place += count as u64;
        most = U::MOST;
    }
    Ok(())
}

// Puts all frames there, by two buffers and a block.
fn add_all<D: Disk, E: Disk, M: Making, U: Held>(
    alloc: Global,
    inputs: &mut [Input<D>],
    to: &mut File<'_, E, M>,
    frames: u64,
) -> Result<(), Stop>
    requires mono { AreMono inputs.old }
    requires suit { AllSuit U.suits (codec_of to.old) inputs.old }
    requires alike { channels_of to.old ≡ length inputs.old }
    requires at_end { IsAtEnd (known_of to.old) }
    requires room { HasRoom frames (known_of to.old) }
    requires all { frames ≡ most_frames (layouts_of inputs.old) }
    ensures loan { loan_of to.new ≡ loan_of to.old }
    ensures works { BreaksByFault (known_of to.new) result }
    ensures lengthens { OnOk result (Lengthens D.state E.state 0 frames inputs.old to.old to.new) }
    ensures faults { CountsAddingTo D.state E.state inputs.old inputs.new to.old to.new result }
    ensures changed { StayGood D.state inputs.old result }
    ensures reads { ReadAll D.Disk inputs.old inputs.new }
    ensures tells { TellsOn E.state to.old to.new }
    ensures time { GoesOnFrom E.state E.left_between (disk_of to.old) (disk_of to.new) }
    ensures asked { AsksOnce D.state inputs.old inputs.new }
    ensures unasked { AsksNothing E.state to.old to.new }
{
    let (channels, _) = numbers_of(to);
    let mut buffer = places_for::<U>(alloc, U::MOST)?;
    let mut second = places_for::<U>(alloc, U::MOST)?;
    let mut block = places_for::<U>(alloc, U::MOST * channels)?;
    add_by(
        alloc,
        inputs,
        to,
        frames,
        &mut buffer,
        &mut second,
        &mut block,
    )
}

// Whether the samples of a codec are pairs: linear ones of 16 bits.
fn is_pair(codec: Codec) -> bool
    ensures { result ≡ is_pair codec }
{
    matches!(codec, Codec::S16(_))
}

// Whether the samples of inputs are those of a codec, and pairs.
fn are_pairs<D: Disk>(inputs: &[Input<D>], codec: Codec) -> bool
    ensures { IsTrue result → AllSuit SuitsPairs codec inputs.now }
{
    if !is_pair(codec) {
        return false;
    }
    for input in inputs {
        if input.layout.params.codec != codec {
            return false;
        }
    }
    true
}

/// Puts the frames of inputs of one channel behind those of a file that is made, side by side, a block at a
/// time: so many, from the first on, with zeros where an input has ended. Each number has the width of the
/// codec of the file; where all are linear ones of 16 bits, of that codec, they pass as the bytes that they
/// are. Each frame of an input is asked for once.
///
/// The answer is `Fault` where a call of a disk failed, `Memory` where there is none, and `Changed` where an
/// input has a bad block.
pub(crate) fn add_frames<D: Disk, E: Disk, M: Making>(
    alloc: Global,
    inputs: &mut [Input<D>],
    to: &mut File<'_, E, M>,
    frames: u64,
) -> Result<(), Stop>
    requires mono { AreMono inputs.old }
    requires alike { channels_of to.old ≡ length inputs.old }
    requires at_end { IsAtEnd (known_of to.old) }
    requires room { HasRoom frames (known_of to.old) }
    requires all { frames ≡ most_frames (layouts_of inputs.old) }
    ensures loan { loan_of to.new ≡ loan_of to.old }
    ensures works { BreaksByFault (known_of to.new) result }
    ensures lengthens { OnOk result (Lengthens D.state E.state 0 frames inputs.old to.old to.new) }
    ensures faults { CountsAddingTo D.state E.state inputs.old inputs.new to.old to.new result }
    ensures changed { StayGood D.state inputs.old result }
    ensures reads { ReadAll D.Disk inputs.old inputs.new }
    ensures tells { TellsOn E.state to.old to.new }
    ensures time { GoesOnFrom E.state E.left_between (disk_of to.old) (disk_of to.new) }
    ensures asked { AsksOnce D.state inputs.old inputs.new }
    ensures unasked { AsksNothing E.state to.old to.new }
{
    let (_, codec) = numbers_of(to);
    if are_pairs(inputs, codec) {
        add_all::<D, E, M, u8>(alloc, inputs, to, frames)
    } else {
        add_all::<D, E, M, i32>(alloc, inputs, to, frames)
    }
}
