//! Chunks put behind one another.

ghost use Rattle.std.specs.Prelude.{◌≡◌, ◌+◌, ◌≤◌, ◌<◌, ◌^◌, ◌++◌, length, replicate};
ghost use Rattle.arrayvec.specs.ArrayVec.{array_vec_len};
ghost use Rattle.snd_w64.specs.Written.{chunk_bytes, head_bytes};

use crate::count::raised;
use crate::walk::ID_END;
use arrayvec::ArrayVec;
use snd_fields::{put_all, put_long};

/// The head of a chunk, which its size counts.
pub(crate) const HEAD_SIZE: u64 = 24;

/// Puts so many zeros behind the others.
pub(crate) fn put_zeros<const N: usize>(into: &mut ArrayVec<u8, N>, count: u64)
    requires { array_vec_len into.old + count ≤ N }
    ensures items { into.new.items ≡ into.old.items ++ replicate count 0 }
    ensures len { array_vec_len into.new ≡ array_vec_len into.old + count }
{
    for _i in 0..count {
        into.push(0);
    }
}

/// Puts the head of a chunk whose body has so many bytes.
pub(crate) fn put_head<const N: usize>(into: &mut ArrayVec<u8, N>, letters: &[u8], len: u64)
    requires room { array_vec_len into.old + length letters.now + 20 ≤ N }
    requires few { len + 24 < 2 ^ 64 }
    ensures items { into.new.items ≡ into.old.items ++ head_bytes letters.now len }
    ensures len { array_vec_len into.new ≡ array_vec_len into.old + length letters.now + 20 }
{
    put_all(into, letters);
    put_all(into, &ID_END);
    put_long(into, len + HEAD_SIZE);
}

/// Puts a chunk.
pub(crate) fn put_chunk<const N: usize>(into: &mut ArrayVec<u8, N>, letters: &[u8], body: &[u8])
    requires room { array_vec_len into.old + length letters.now + length body.now + 27 ≤ N }
    requires few { length body.now ≤ 64 }
    ensures items { into.new.items ≡ into.old.items ++ chunk_bytes letters.now body.now }
    ensures few { array_vec_len into.new ≤ array_vec_len into.old + length letters.now + length body.now + 27 }
{
    let len = body.len() as u64;
    put_head(into, letters, len);
    put_all(into, body);
    put_zeros(into, raised(len) - len);
}
