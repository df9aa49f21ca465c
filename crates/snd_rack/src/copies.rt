//! Samples copied from list to list.

ghost use Rattle.std.specs.Prelude.{◌≡◌, ◌+◌, ◌++◌, ◌≤◌, length};

use arrayvec::ArrayVec;

/// Makes a frame of samples.
pub(crate) fn copy_samples(samples: &[i32], frame: &mut ArrayVec<i32, 256>)
    requires { length samples.now ≤ 256 }
    ensures { frame.new.items ≡ samples.now }
{
    frame.clear();
    let _ = frame.try_extend_from_slice(samples);
}

/// Makes a block of samples.
pub(crate) fn copy_block(samples: &[i32], block: &mut ArrayVec<i32, 16384>)
    requires { length samples.now ≤ 16384 }
    ensures { block.new.items ≡ samples.now }
{
    block.clear();
    let _ = block.try_extend_from_slice(samples);
}

/// Puts samples behind others.
pub(crate) fn add_samples(samples: &[i32], into: &mut ArrayVec<i32, 16384>)
    requires { length into.old.items + length samples.now ≤ 16384 }
    ensures { into.new.items ≡ into.old.items ++ samples.now }
{
    let _ = into.try_extend_from_slice(samples);
}
