//! The head of a file that is made.

ghost use Rattle.std.specs.Prelude.{◌≡◌, ◌+◌, ◌≤◌, ◌++◌, None, is_some, length, OnOk, IfErr, IfOk};
ghost use Rattle.snd_disk.specs.Device.{GoesOnFrom, WritesAtMost};
ghost use Rattle.arrayvec.specs.ArrayVec.{array_vec_len};
ghost use Rattle.snd_layout.specs.Fit.{fit_refusal};
ghost use Rattle.snd_layout.specs.Laid.{HoldsJust, IsLayCause};
ghost use Rattle.snd_layout.specs.Opened.{CountsOpening};
ghost use Rattle.snd_layout.specs.declared.kind.Kind.TheVariants.{W64};
ghost use Rattle.snd_w64.specs.Written.{fact_bytes, has_fact, inner_at, made_shape, side_at, start_of, w64_head};

use crate::layout::WHOLE_SIZE;
use crate::put::{put_chunk, put_head};
use crate::walk::ID_END;
use arrayvec::ArrayVec;
use snd_disk::Disk;
use snd_fields::{put_all, put_long};
use snd_layout::{Codec, Field, Kind, Layout, OpenError, Params, lay_made, put_fmt};
use std::alloc::Global;

/// The last 12 bytes of the identifier `riff`.
const RIFF_END: [u8; 12] = [
    0x2e, 0x91, 0xcf, 0x11, 0xa5, 0xd6, 0x28, 0xdb, 0x04, 0xc1, 0x00, 0x00,
];

fn has_fact(params: &Params) -> bool
    ensures { result ≡ has_fact params.now.codec }
{
    matches!(
        params.codec,
        Codec::MuLaw | Codec::ALaw | Codec::Ima { .. } | Codec::Ms { .. }
    )
}

// Where the data begin.
fn start_of(params: &Params) -> u64
    ensures value { result ≡ start_of params.now.codec }
    ensures least { 104 ≤ result }
    ensures most { result ≤ 176 }
{
    match params.codec {
        Codec::MuLaw | Codec::ALaw | Codec::Ima { .. } => 144,
        Codec::Ms { .. } => 176,
        _ => 104,
    }
}

// The field that decides the count.
fn inner_of(params: &Params, start: u64) -> Field
    requires { 32 ≤ start }
    ensures { result ≡ inner_at params.now.codec start }
{
    if params.codec.is_adpcm() {
        Field {
            at: start - 32,
            size: 32,
        }
    } else {
        Field {
            at: start - 8,
            size: 8,
        }
    }
}

// The count that is not read.
fn side_of(params: &Params, start: u64) -> Option<Field>
    requires { 32 ≤ start }
    ensures { result ≡ side_at params.now.codec start }
{
    if has_fact(params) && !params.codec.is_adpcm() {
        Some(Field {
            at: start - 32,
            size: 8,
        })
    } else {
        None
    }
}

// Puts the count of no frames behind the others, where there is one.
fn put_fact(into: &mut ArrayVec<u8, 256>, params: &Params)
    requires { array_vec_len into.old + 39 ≤ 256 }
    ensures items { into.new.items ≡ into.old.items ++ fact_bytes params.now.codec }
    ensures few { array_vec_len into.new ≤ array_vec_len into.old + 39 }
{
    if has_fact(params) {
        put_chunk(into, b"fact", &[0; 8]);
    }
}

// The head of a file without frames.
fn plain_head(params: &Params) -> ArrayVec<u8, 256>
    requires { fit_refusal W64 params.now ≡ None }
    ensures { result.items ≡ w64_head params.now }
{
    params.are_good();
    let mut format = ArrayVec::new();
    put_fmt(*params, &mut format);
    let mut head = ArrayVec::new();
    put_all(&mut head, b"riff");
    put_all(&mut head, &RIFF_END);
    put_long(&mut head, start_of(params));
    put_all(&mut head, b"wave");
    put_all(&mut head, &ID_END);
    put_chunk(&mut head, b"fmt ", format.as_slice());
    put_fact(&mut head, params);
    put_head(&mut head, b"data", 0);
    head
}

// What it says.
#[tactic(auto, unfolding(crate::specs::Written::made_shape))]
fn plain_layout(alloc: Global, params: Params) -> Layout
    requires { fit_refusal W64 params ≡ None }
    ensures { result ≡ made_shape params }
{
    params.are_good();
    let start = start_of(&params);
    let inner = inner_of(&params, start);
    let side = side_of(&params, start);
    Layout::made(
        alloc,
        Kind::W64,
        params,
        start,
        inner,
        Some(WHOLE_SIZE),
        side,
    )
}

/// Makes a disk a Wave64 file with these parameters and no frames, whatever it held before. A
/// Wave64 file holds the parameters. It writes at most 2048 bytes and reads none. The only error is
/// `DiskFault`, where a call of the disk failed.
pub fn lay_head<D: Disk>(alloc: Global, disk: &mut D, params: Params) -> Result<Layout, OpenError>
    requires { fit_refusal W64 params ≡ None }
    ensures laid { OnOk result (HoldsJust (w64_head params) (D.state disk.old) (D.state disk.new)) }
    ensures layout { IfOk result (λ l. l ≡ made_shape params) }
    ensures cause { IfErr result (IsLayCause (D.state disk.old).faults (D.state disk.new).faults) }
    ensures faults { CountsOpening D.state disk.old disk.new result }
    ensures name { (D.state disk.new).name ≡ (D.state disk.old).name }
    ensures told { is_some (D.state disk.new).contents ≡ is_some (D.state disk.old).contents }
    ensures time { GoesOnFrom D.state D.left_between disk.old disk.new }
    ensures written { WritesAtMost D.state 2048 disk.old disk.new }
    ensures asked { (D.state disk.new).asked ≡ (D.state disk.old).asked }
{
    params.are_good();
    let head = plain_head(&params);
    let layout = plain_layout(alloc, params);
    lay_made(disk, head.as_slice(), layout)
}
