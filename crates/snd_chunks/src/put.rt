//! Chunks put behind one another, as the heads of files are.

ghost use Rattle.std.specs.Prelude.{◌≡◌, ◌+◌, ◌≤◌, ◌++◌, length};
ghost use Rattle.arrayvec.specs.ArrayVec.{array_vec_len};
ghost use Rattle.snd_chunks.specs.Written.{chunk_bytes, pad};
ghost use Rattle.snd_fields.specs.declared.field.Order.TheVariants.{Little};

use arrayvec::ArrayVec;
use snd_fields::{Order, put_all, put_number};

/// Puts a zero behind an odd number of bytes.
pub fn put_pad<const N: usize>(into: &mut ArrayVec<u8, N>, len: usize)
    requires { array_vec_len into.old + 1 ≤ N }
    ensures items { into.new.items ≡ into.old.items ++ pad len }
    ensures few { array_vec_len into.new ≤ array_vec_len into.old + 1 }
{
    if len % 2 == 1 {
        into.push(0);
    }
}

/// Puts a chunk behind the others, with its size lowest byte first.
pub fn put_chunk<const N: usize>(into: &mut ArrayVec<u8, N>, id: &[u8], body: &[u8])
    requires { array_vec_len into.old + length id.now + length body.now + 5 ≤ N }
    ensures items { into.new.items ≡ into.old.items ++ chunk_bytes Little (record { id = id.now; body = body.now }) }
    ensures few { array_vec_len into.new ≤ array_vec_len into.old + length id.now + length body.now + 5 }
{
    put_all(into, id);
    put_number(into, Order::Little, body.len() as u64);
    put_all(into, body);
    put_pad(into, body.len());
}
