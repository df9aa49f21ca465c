//! The head of a file that is made.

ghost use Rattle.std.specs.Prelude.{◌≡◌, ◌+◌, ◌<◌, ◌≤◌, ◌++◌, None, is_some, length, OnOk, IfErr, IfOk};
ghost use Rattle.snd_disk.specs.Device.{GoesOnFrom, WritesAtMost};
ghost use Rattle.snd_layout.specs.Fit.{fit_refusal};
ghost use Rattle.snd_layout.specs.Laid.{HoldsJust, IsLayCause};
ghost use Rattle.snd_layout.specs.Opened.{CountsOpening};
ghost use Rattle.snd_layout.specs.declared.kind.Kind.TheVariants.{Voc};
ghost use Rattle.snd_voc.specs.Written.{bits_of, code_of, made_shape, voc_head};

use arrayvec::ArrayVec;
use snd_disk::Disk;
use snd_fields::put_all;
use snd_layout::{Codec, Field, Kind, Layout, OpenError, Params, lay_made};
use std::alloc::Global;

// The bits of a sample.
fn bits_of(codec: Codec) -> u8
    ensures { result ≡ bits_of codec }
{
    match codec {
        Codec::S16(_) => 16,
        _ => 8,
    }
}

// The number of a codec.
fn code_of(codec: Codec) -> u8
    ensures { result ≡ code_of codec }
{
    match codec {
        Codec::S16(_) => 4,
        Codec::ALaw => 6,
        Codec::MuLaw => 7,
        _ => 0,
    }
}

// The head of a file without frames.
fn plain_head(params: &Params) -> ArrayVec<u8, 64>
    requires { fit_refusal Voc params.now ≡ None }
    ensures { result.items ≡ voc_head params.now }
{
    params.are_good();
    let channels = params.channels as u8;
    let mut head = ArrayVec::new();
    put_all(
        &mut head,
        b"Creative Voice File\x1a\x1a\x00\x14\x01\x1f\x11",
    );
    put_all(&mut head, &[9, 12, 0, 0]);
    put_all(&mut head, &params.rate.to_le_bytes());
    let (bits, code) = (bits_of(params.codec), code_of(params.codec));
    put_all(&mut head, &[bits, channels, code, 0, 0, 0, 0, 0]);
    head
}

// What it says.
#[tactic(auto, unfolding(crate::specs::Written::made_shape))]
fn plain_layout(alloc: Global, params: Params) -> Layout
    requires { fit_refusal Voc params ≡ None }
    ensures { result ≡ made_shape params }
{
    let inner = Field { at: 27, size: 3 };
    Layout::made(alloc, Kind::Voc, params, 42, inner, None, None)
}

/// Makes a disk a Creative Voice file with these parameters and no frames, whatever it held before. A
/// Creative Voice file holds the parameters. It writes at most 2048 bytes and reads none. The only error
/// is `DiskFault`, where a call of the disk failed.
pub fn lay_head<D: Disk>(alloc: Global, disk: &mut D, params: Params) -> Result<Layout, OpenError>
    requires { fit_refusal Voc params ≡ None }
    ensures laid { OnOk result (HoldsJust (voc_head params) (D.state disk.old) (D.state disk.new)) }
    ensures layout { IfOk result (λ l. l ≡ made_shape params) }
    ensures cause { IfErr result (IsLayCause (D.state disk.old).faults (D.state disk.new).faults) }
    ensures faults { CountsOpening D.state disk.old disk.new result }
    ensures name { (D.state disk.new).name ≡ (D.state disk.old).name }
    ensures told { is_some (D.state disk.new).contents ≡ is_some (D.state disk.old).contents }
    ensures time { GoesOnFrom D.state D.left_between disk.old disk.new }
    ensures written { WritesAtMost D.state 2048 disk.old disk.new }
    ensures asked { (D.state disk.new).asked ≡ (D.state disk.old).asked }
{
    params.are_good();
    let head = plain_head(&params);
    let layout = plain_layout(alloc, params);
    lay_made(disk, head.as_slice(), layout)
}
