//! The bytes that a chunk takes.

ghost use Rattle.std.specs.Prelude.{◌≡◌, ◌+◌, ◌<◌, ◌^◌};
ghost use Rattle.snd_container.specs.Room.{AddsBytes, chunk_size};

/// The head of a chunk: its identifier and its size.
const HEAD_SIZE: u64 = 8;

/// The bytes that a chunk takes in a head, in either byte order: its identifier and size, its body of so
/// many bytes, and the byte that pads an odd body.
#[tactic(auto, using(crate::proofs::Sizes::adds_bytes))]
pub fn chunk_size(len: u64) -> u64
    requires { len + 9 < 2 ^ 64 }
    ensures value { result ≡ chunk_size len }
    ensures adds { AddsBytes len result }
{
    HEAD_SIZE + len + len % 2
}
