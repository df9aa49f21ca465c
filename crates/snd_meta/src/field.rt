//! One field of the broadcast extension, for a change in place.

ghost use Rattle.std.specs.Prelude.{◌≡◌, ◌≢◌, ◌↔◌, ◌≤◌, length, IsSome, IfOk, IfErr, IsErrOf};
ghost use Rattle.snd_fields.specs.Decimal.{decimal as decimal_of};
ghost use Rattle.snd_fields.specs.Field.{bytes_of};
ghost use Rattle.snd_fields.specs.declared.field.Order.TheVariants.{Little};
ghost use Rattle.snd_meta.specs.Text.{padded};
ghost use Rattle.snd_meta.specs.Broadcast.{ExceedsField, field_of};

use crate::bext::BextKey;
use crate::error::MetaError;
use arrayvec::ArrayVec;
use snd_fields::decimal;

/// The bytes that put a text into its field of fixed size: zeros follow it. The time reference is given in
/// decimal digits, and is eight bytes, the lowest first.
///
/// # Errors
///
/// `TextTooLong` exactly where the text exceeds its field; never for the time reference.
pub fn field_bytes(key: BextKey, text: &[u8]) -> Result<ArrayVec<u8, 256>, MetaError>
    requires fixed { key ≢ BextKey.CodingHist }
    requires digits { key ≡ BextKey.TimeRef → IsSome (decimal_of text.now) }
    ensures bytes { IfOk result (λ bytes. bytes.items ≡ field_of key text.now) }
    ensures too_long { IsErrOf result MetaError.TextTooLong ↔ ExceedsField key text.now }
    ensures only { IfErr result (λ e. e ≡ MetaError.TextTooLong) }
{
    if key == BextKey::TimeRef {
        return Ok(number_field(decimal(text).unwrap()));
    }
    if text.len() > key.size() {
        return Err(MetaError::TextTooLong);
    }
    Ok(text_field(text, key.size()))
}

/// A number of eight bytes.
fn number_field(value: u64) -> ArrayVec<u8, 256>
    ensures { result.items ≡ bytes_of Little 8 value }
{
    let mut bytes = ArrayVec::new();
    bytes.try_extend_from_slice(&value.to_le_bytes()).unwrap();
    bytes
}

/// A text and zeros behind it.
fn text_field(text: &[u8], size: usize) -> ArrayVec<u8, 256>
    requires fits { length text.now ≤ size }
    requires small { size ≤ 256 }
    ensures { result.items ≡ padded size text.now }
{
    let mut bytes = ArrayVec::new();
    bytes.try_extend_from_slice(text).unwrap();
    for _ in text.len()..size {
        bytes.push(0);
    }
    bytes
}
