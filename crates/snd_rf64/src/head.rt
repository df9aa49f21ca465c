//! The head of a file that is made.

ghost use Rattle.std.specs.Prelude.{◌≡◌, ◌≤◌, [], None, is_some, OnOk, IfErr, IfOk};
ghost use Rattle.arrayvec.specs.ArrayVec.{array_vec_len};
ghost use Rattle.snd_disk.specs.Device.{GoesOnFrom, WritesAtMost};
ghost use Rattle.snd_layout.specs.Fit.{fit_refusal};
ghost use Rattle.snd_layout.specs.Laid.{HoldsJust, IsLayCause};
ghost use Rattle.snd_layout.specs.Opened.{CountsOpening};
ghost use Rattle.snd_layout.specs.declared.kind.Kind.TheVariants.{Rf64};
ghost use Rattle.snd_rf64.specs.Written.{made_shape, plain_start, rf64_head, top};

use crate::layout::{INNER, OUTER, SIDE};
use arrayvec::ArrayVec;
use snd_chunks::put_chunk;
use snd_disk::Disk;
use snd_fields::{Order, put_all, put_long, put_number};
use snd_layout::{Codec, Kind, Layout, OpenError, Params, lay_made, put_fmt};
use std::alloc::Global;

/// A size of 32 bits that says nothing.
pub(crate) const NO_SIZE: u64 = 0xffff_ffff;

/// The bytes of `ds64` that has an empty table.
const SIZES_LEN: u64 = 28;

/// Where the data begin.
pub(crate) fn plain_start(params: &Params) -> u64
    ensures value { result ≡ plain_start params.now.codec }
    ensures least { 80 ≤ result }
    ensures most { result ≤ 82 }
{
    match params.codec {
        Codec::MuLaw | Codec::ALaw => 82,
        _ => 80,
    }
}

// The first bytes of a file without frames, with the size of the whole.
fn top(size: u64) -> ArrayVec<u8, 128>
    ensures items { result.items ≡ top size }
    ensures len { array_vec_len result ≡ 48 }
{
    let mut bytes = ArrayVec::new();
    put_all(&mut bytes, b"RF64");
    put_number(&mut bytes, Order::Little, NO_SIZE);
    put_all(&mut bytes, b"WAVE");
    put_all(&mut bytes, b"ds64");
    put_number(&mut bytes, Order::Little, SIZES_LEN);
    put_long(&mut bytes, size);
    put_long(&mut bytes, 0);
    put_long(&mut bytes, 0);
    put_number(&mut bytes, Order::Little, 0);
    bytes
}

// The head of a file without pieces and frames.
fn plain_head(params: &Params) -> ArrayVec<u8, 128>
    requires { fit_refusal Rf64 params.now ≡ None }
    ensures { result.items ≡ rf64_head params.now [] }
{
    params.are_good();
    let mut format = ArrayVec::new();
    put_fmt(*params, &mut format);
    let mut head = top(plain_start(params) - 8);
    put_chunk(&mut head, b"fmt ", format.as_slice());
    put_all(&mut head, b"data");
    put_number(&mut head, Order::Little, NO_SIZE);
    head
}

// What it says.
fn plain_layout(alloc: Global, params: Params) -> Layout
    requires { fit_refusal Rf64 params ≡ None }
    ensures { result ≡ made_shape params [] }
{
    params.are_good();
    let start = plain_start(&params);
    Layout::made(
        alloc,
        Kind::Rf64,
        params,
        start,
        INNER,
        Some(OUTER),
        Some(SIDE),
    )
}

/// Makes a disk an RF64 file with these parameters, no frames and no pieces, whatever it held before. An
/// RF64 file holds the parameters. It writes at most 2048 bytes and reads none. The only error is
/// `DiskFault`, where a call of the disk failed.
pub fn lay_head<D: Disk>(alloc: Global, disk: &mut D, params: Params) -> Result<Layout, OpenError>
    requires { fit_refusal Rf64 params ≡ None }
    ensures laid { OnOk result (HoldsJust (rf64_head params []) (D.state disk.old) (D.state disk.new)) }
    ensures layout { IfOk result (λ l. l ≡ made_shape params []) }
    ensures cause { IfErr result (IsLayCause (D.state disk.old).faults (D.state disk.new).faults) }
    ensures faults { CountsOpening D.state disk.old disk.new result }
    ensures name { (D.state disk.new).name ≡ (D.state disk.old).name }
    ensures told { is_some (D.state disk.new).contents ≡ is_some (D.state disk.old).contents }
    ensures time { GoesOnFrom D.state D.left_between disk.old disk.new }
    ensures written { WritesAtMost D.state 2048 disk.old disk.new }
    ensures asked { (D.state disk.new).asked ≡ (D.state disk.old).asked }
{
    params.are_good();
    let head = plain_head(&params);
    let layout = plain_layout(alloc, params);
    lay_made(disk, head.as_slice(), layout)
}
