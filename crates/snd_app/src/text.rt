ghost use Rattle.std.specs.Prelude.{◌≡◌, ◌<◌, ◌++◌, OnOk};
ghost use Rattle.snd_app.specs.Text.{padded};

use itoa::Buffer;
use std::alloc::AllocError;

/// Appends a number's decimal digits, with zeros before them up to a width.
pub fn push_padded(text: &mut Vec<u8>, number: u64, width: usize) -> Result<(), AllocError>
    requires { width < 256 }
    ensures { OnOk result (text.new.items ≡ text.old.items ++ padded width number) }
{
    let mut buffer = Buffer::new();
    let digits = buffer.format(number).as_bytes();
    let zeros = width.saturating_sub(digits.len());
    text.resize(text.len() + zeros, b'0')?;
    text.extend_from_slice(digits)
}
