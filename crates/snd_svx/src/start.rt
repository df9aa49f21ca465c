//! Where the data begin in a file that is made with further chunks.

ghost use Rattle.std.specs.Prelude.{◌<◌, ◌≤◌, ◌^◌};
ghost use Rattle.snd_svx.specs.Start.{BeginsWith};

use snd_wave::filled_start;

/// The place of the data of a file without further chunks.
const PLAIN_START: u64 = 48;

/// The bytes of the size of its body, which lie before them.
const INNER: u8 = 4;

/// The place of the data of an 8SVX file that is made with further chunks of so many bytes, at most 16777216.
pub fn start_with(chunks: u64) -> u64
    requires { chunks ≤ 16777216 }
    ensures begins { BeginsWith chunks result }
    ensures few { result < 2 ^ 32 }
{
    filled_start(PLAIN_START + chunks, INNER)
}
