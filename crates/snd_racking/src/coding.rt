//! Frames that pass stages as the bytes of their samples, where each sample has bytes of its own before the stages and
//! behind them.

ghost use Rattle.std.specs.Prelude.{◌≡◌, ◌*◌, ◌/◌, ◌%◌, ◌≤◌, length, map};
ghost use Rattle.snd_container.specs.Fixed.{byte_count, samples};
ghost use Rattle.snd_edits.specs.Bytes.{AreWhole, numbers_in};
ghost use Rattle.snd_edits.specs.Reading.{FitCodec};
ghost use Rattle.snd_layout.specs.Blocks.{block_align};
ghost use Rattle.snd_output.specs.Appended.{Pass, bytes_in};
ghost use Rattle.snd_pcm.specs.Groups.{groups};
ghost use Rattle.snd_rack.specs.Passing.{EachMayPass, later};
ghost use Rattle.snd_rack.specs.Stage.{kind_of};
ghost use Rattle.snd_racking.specs.Appending.{ArePlaced, frames_of_bytes, passed_bytes, passed_groups};

use crate::pieces::PieceRoom;
use arrayvec::ArrayVec;
use snd_container::{Fixed, fixed_form, put_samples, read_samples};
use snd_layout::Params;
use snd_output::change_numbers;
use snd_rack::{Stage, keep_width, pass_frames, pass_in_place};

// The most numbers behind the stages that are coded at a time: few enough that they are still near the processor when
// their bytes are made.
const MOST_NUMBERS: usize = 4096;

// How many frames of so many numbers before the stages and so many behind them are coded at a time.
fn frames_at_once(places: usize, channels: usize, after: usize) -> usize
    requires some { (1 ≤ channels) × (1 ≤ after) }
    requires one { channels ≤ places }
    requires most { after ≤ 256 }
    ensures one { 1 ≤ result }
    ensures places { result * channels ≤ places }
    ensures few { result * after ≤ 4096 }
{
    (places / channels).min(MOST_NUMBERS / after)
}

// Makes a list as long as others: of their numbers, where it is not.
fn make_as_long(numbers: &[i32], list: &mut ArrayVec<i32, 16384>)
    requires { length numbers.now ≤ 16384 }
    ensures { length list.new.items ≡ length numbers.now }
{
    if list.len() != numbers.len() {
        list.clear();
        let _ = list.try_extend_from_slice(numbers);
    }
}

// Reads samples into a list. There are as many numbers as samples.
fn read_into(form: Fixed, bytes: &[u8], numbers: &[i32], list: &mut ArrayVec<i32, 16384>)
    requires held { length bytes.now ≡ byte_count form * length numbers.now }
    requires fits { length numbers.now ≤ 16384 }
    ensures { list.new.items ≡ samples form bytes.now }
{
    make_as_long(numbers, list);
    read_samples(form, bytes, list.as_mut_slice());
}

// Reads samples, and passes the whole frames that they are through stages: where they stand, if no frame has more or fewer
// samples then. What the numbers, of which there are as many as samples, and the room held is lost.
fn pass_read(
    form: Fixed,
    channels: usize,
    stages: &mut [Box<dyn Stage>],
    bytes: &[u8],
    numbers: &mut [i32],
    room: &mut PieceRoom,
)
    requires held { length bytes.now ≡ byte_count form * length numbers.old }
    requires some { 1 ≤ channels }
    requires most { channels ≤ 256 }
    requires whole { length numbers.old % channels ≡ 0 }
    requires kinds { map (λ b. (stage b).kind) stages.old ≡ map (λ b. kind_of (stage b).stated) stages.old }
    requires may { EachMayPass (map (λ b. stage b) stages.old) (groups channels (samples form bytes.now)) }
    requires room { length (passed_groups channels (map (λ b. stage b) stages.old) (samples form bytes.now)) ≤ 16384 }
    ensures passed { room.new.passed.items ≡ passed_groups channels (map (λ b. stage b) stages.old) (samples form bytes.now) }
    ensures states { map (λ b. stage b) stages.new ≡ later (length numbers.old / channels) (map (λ b. stage b) stages.old) }
{
    let passed = &mut room.passed;
    if keep_width(stages) {
        read_into(form, bytes, numbers, passed);
        pass_in_place(stages, channels, passed, &mut room.between);
    } else {
        read_samples(form, bytes, numbers);
        pass_frames(stages, channels, numbers, &mut room.between, passed);
    }
}

// Passes whole frames through stages, all at once, and puts the bytes of what becomes of them into a slice with just enough
// places. What the numbers, of which there are as many as samples, and the room held is lost.
fn pass_piece(
    from: Params,
    to: Params,
    stages: &mut [Box<dyn Stage>],
    bytes: &[u8],
    numbers: &mut [i32],
    room: &mut PieceRoom,
    coded: &mut [u8],
)
    requires pass { Pass from.codec to.codec }
    requires placed { ArePlaced from.codec from.channels to.channels (map (λ b. stage b) stages.old) }
    requires held { length bytes.now ≡ bytes_in from.codec (length numbers.old) }
    requires whole { length numbers.old % from.channels ≡ 0 }
    requires few { length numbers.old / from.channels * to.channels ≤ 16384 }
    requires fits { length coded.old ≡ bytes_in to.codec (length numbers.old / from.channels * to.channels) }
    ensures coded { coded.new ≡ passed_bytes from to (map (λ b. stage b) stages.old) bytes.now }
    ensures states { map (λ b. stage b) stages.new ≡ later (length numbers.old / from.channels) (map (λ b. stage b) stages.old) }
{
    let (Some(old), Some(new)) = (fixed_form(from.codec), fixed_form(to.codec)) else {
        unreachable!()
    };
    from.are_good();
    let channels = usize::from(from.channels);
    pass_read(old, channels, stages, bytes, numbers, room);
    change_numbers(from.codec, to.codec, room.passed.as_mut_slice());
    put_samples(new, room.passed.as_slice(), coded);
}

/// Passes whole frames through stages, and puts the bytes of what becomes of them into a slice with just enough places.
/// What the numbers, which have places for one frame at least, and the room held is lost.
pub(crate) fn pass_samples(
    from: Params,
    to: Params,
    stages: &mut [Box<dyn Stage>],
    bytes: &[u8],
    numbers: &mut [i32],
    room: &mut PieceRoom,
    coded: &mut [u8],
)
    requires pass { Pass from.codec to.codec }
    requires placed { ArePlaced from.codec from.channels to.channels (map (λ b. stage b) stages.old) }
    requires whole { AreWhole from (length bytes.now) }
    requires places { from.channels ≤ length numbers.old }
    requires fits { length coded.old ≡ frames_of_bytes from (length bytes.now) * block_align to.channels to.codec }
    ensures coded { coded.new ≡ passed_bytes from to (map (λ b. stage b) stages.old) bytes.now }
    ensures states { map (λ b. stage b) stages.new ≡ later (frames_of_bytes from (length bytes.now)) (map (λ b. stage b) stages.old) }
    ensures in_range { FitCodec from.codec (numbers_in from.codec bytes.now) }
{
    from.are_good();
    to.are_good();
    let channels = usize::from(from.channels);
    let align = usize::from(from.block_align());
    let to_align = usize::from(to.block_align());
    let frames = bytes.len() / align;
    let most = frames_at_once(numbers.len(), channels, usize::from(to.channels));
    let mut at = 0;
    while at < frames {
        let end = at + most.min(frames - at);
        let piece = &bytes[at * align..end * align];
        let places = &mut numbers[..(end - at) * channels];
        let into = &mut coded[at * to_align..end * to_align];
        pass_piece(from, to, stages, piece, places, room, into);
        at = end;
    }
}
