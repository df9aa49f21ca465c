//! Blocks that are decoded four at a time.

ghost use Rattle.std.specs.Prelude.{◌≡◌, ◌-◌, ◌<◌, ◌≤◌, length, true};
ghost use Rattle.snd_layout.specs.Blocks.{is_adpcm};
ghost use Rattle.snd_blocks.specs.Calls.{HasRoomFor};
ghost use Rattle.snd_blocks.specs.Four.{AreFourOf, IsFourfold};

use crate::block::{align_of, frames_of, keeps_blocks};
use crate::buffer::MOST_BYTES;
use crate::fetch::Fetched;
use arrayvec::ArrayVec;
use snd_layout::{Codec, Layout, Params};
use snd_ms_adpcm::MsBlock;

/// Whether blocks are read, and made, four at a time: those of Microsoft ADPCM of two channels, where there is room for
/// the bytes of four.
pub fn is_fourfold(params: &Params) -> bool
    ensures only { result ≡ true → IsFourfold params.now }
    ensures all { IsFourfold params.now → result ≡ true }
{
    let is_microsoft = matches!(params.codec, Codec::Ms { .. });
    is_microsoft && params.channels == 2 && 4 * usize::from(params.block_align()) <= MOST_BYTES
}

// Makes so many places, whatever they hold.
fn make_places(samples: &mut ArrayVec<i32, 16384>, count: usize)
    requires { count ≤ 16384 }
    ensures { length samples.new.items ≡ count }
{
    if samples.len() < count {
        *samples = ArrayVec::from([0; 16384]);
    }
    samples.truncate(count);
}

// Puts the samples of four blocks from one on, whose bytes were read, in place of what `into` holds, where they are
// decoded together and none of them is bad, which is the answer.
pub(crate) fn decode_four(
    layout: &Layout,
    fetched: Fetched,
    number: u64,
    bytes: &[u8; MOST_BYTES],
    into: &mut ArrayVec<i32, 16384>,
) -> bool
    requires blocks { is_adpcm layout.now.params.codec ≡ true }
    requires begun { fetched.first ≤ number }
    requires some { number < fetched.next }
    requires room { HasRoomFor layout.now (fetched.next - fetched.first) }
    ensures { result ≡ true → AreFourOf layout.now fetched number bytes.now into.new.items }
{
    keeps_blocks(layout);
    if !is_fourfold(&layout.params) || fetched.next - number < 4 {
        return false;
    }
    let align = usize::from(align_of(layout));
    let at = (number - fetched.first) as usize * align;
    make_places(into, 8 * usize::from(frames_of(layout)));
    MsBlock::decode_four(&bytes[at..at + 4 * align], into.as_mut_slice()).is_ok()
}
