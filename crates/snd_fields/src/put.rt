//! Bytes put behind one another, as the heads of files are.

ghost use Rattle.std.specs.Prelude.{◌≡◌, ◌+◌, ◌≤◌, ◌++◌, length};
ghost use Rattle.arrayvec.specs.ArrayVec.{array_vec_len};
ghost use Rattle.snd_fields.specs.Field.{bytes_of};
ghost use Rattle.snd_fields.specs.declared.field.Order.TheVariants.{Little};

use crate::field::Order;
use arrayvec::ArrayVec;

/// Puts bytes behind the others.
pub fn put_all<const N: usize>(into: &mut ArrayVec<u8, N>, bytes: &[u8])
    requires { array_vec_len into.old + length bytes.now ≤ N }
    ensures items { into.new.items ≡ into.old.items ++ bytes.now }
    ensures len { array_vec_len into.new ≡ array_vec_len into.old + length bytes.now }
{
    for byte in bytes {
        into.push(*byte);
    }
}

// The lowest 4 bytes of a number, in a byte order.
fn number_bytes(order: Order, value: u64) -> [u8; 4]
    ensures { result ≡ bytes_of order 4 value }
{
    match order {
        Order::Little => {
            let [first, second, third, fourth, ..] = value.to_le_bytes();
            [first, second, third, fourth]
        }
        Order::Big => {
            let [.., first, second, third, fourth] = value.to_be_bytes();
            [first, second, third, fourth]
        }
    }
}

/// Puts the lowest 4 bytes of a number behind the others, in a byte order.
pub fn put_number<const N: usize>(into: &mut ArrayVec<u8, N>, order: Order, value: u64)
    requires { array_vec_len into.old + 4 ≤ N }
    ensures items { into.new.items ≡ into.old.items ++ bytes_of order 4 value }
    ensures len { array_vec_len into.new ≡ array_vec_len into.old + 4 }
{
    put_all(into, &number_bytes(order, value));
}

/// Puts the 8 bytes of a number behind the others, the lowest first.
pub fn put_long<const N: usize>(into: &mut ArrayVec<u8, N>, value: u64)
    requires { array_vec_len into.old + 8 ≤ N }
    ensures items { into.new.items ≡ into.old.items ++ bytes_of Little 8 value }
    ensures len { array_vec_len into.new ≡ array_vec_len into.old + 8 }
{
    put_all(into, &value.to_le_bytes());
}
