//! The head of a file that is made.

ghost use Rattle.std.specs.Prelude.{◌≡◌, ◌+◌, ◌≤◌, ◌++◌, [], None, is_some, length, OnOk, IfErr, IfOk};
ghost use Rattle.arrayvec.specs.ArrayVec.{array_vec_len};
ghost use Rattle.snd_disk.specs.Device.{GoesOnFrom, WritesAtMost};
ghost use Rattle.snd_fields.specs.Field.{bytes_of};
ghost use Rattle.snd_fields.specs.declared.field.Order.TheVariants.{Big};
ghost use Rattle.snd_layout.specs.Fit.{fit_refusal};
ghost use Rattle.snd_layout.specs.Laid.{HoldsJust, IsLayCause};
ghost use Rattle.snd_layout.specs.Opened.{CountsOpening};
ghost use Rattle.snd_layout.specs.declared.kind.Kind.TheVariants.{Svx};
ghost use Rattle.snd_svx.specs.Written.{made_shape, svx_head};

use arrayvec::ArrayVec;
use snd_disk::Disk;
use snd_fields::{Order, put_all, put_number};
use snd_layout::{Field, Kind, Layout, OpenError, Params, lay_made};
use std::alloc::Global;

/// The place of the data.
const START: u64 = 48;

/// The place of the one-shot samples of the voice header.
pub(crate) const COUNT_AT: u64 = 20;

/// The bytes of a voice header.
const HEADER_SIZE: u64 = 20;

/// One octave that is not packed, and the full volume, 1 with 16 bits behind the point.
const VOICE: [u8; 6] = [1, 0, 0, 1, 0, 0];

// Puts the lowest 2 bytes of a number behind the others, the highest first.
fn put_short(into: &mut ArrayVec<u8, 64>, value: u32)
    requires { array_vec_len into.old + 2 ≤ 64 }
    ensures items { into.new.items ≡ into.old.items ++ bytes_of Big 2 value }
    ensures len { array_vec_len into.new ≡ array_vec_len into.old + 2 }
{
    let [first, second, ..] = value.to_le_bytes();
    into.push(second);
    into.push(first);
}

// The head of a file without pieces and frames.
fn plain_head(params: &Params) -> ArrayVec<u8, 64>
    requires { fit_refusal Svx params.now ≡ None }
    ensures { result.items ≡ svx_head params.now [] }
{
    params.are_good();
    let mut head = ArrayVec::new();
    put_all(&mut head, b"FORM");
    put_number(&mut head, Order::Big, START - 8);
    put_all(&mut head, b"8SVXVHDR");
    put_number(&mut head, Order::Big, HEADER_SIZE);
    put_all(&mut head, &[0; 12]);
    put_short(&mut head, params.rate);
    put_all(&mut head, &VOICE);
    put_all(&mut head, b"BODY");
    put_number(&mut head, Order::Big, 0);
    head
}

// What it says.
fn plain_layout(alloc: Global, params: Params) -> Layout
    requires { fit_refusal Svx params ≡ None }
    ensures { result ≡ made_shape params [] 0 }
{
    params.are_good();
    let inner = Field {
        at: START - 4,
        size: 4,
    };
    let outer = Some(Field { at: 4, size: 4 });
    let side = Some(Field {
        at: COUNT_AT,
        size: 4,
    });
    Layout::made(alloc, Kind::Svx, params, START, inner, outer, side)
}

/// Makes a disk an 8SVX file with these parameters, no frames and no pieces, whatever it held before. An
/// 8SVX file holds the parameters. It writes at most 2048 bytes and reads none. The only error is
/// `DiskFault`, where a call of the disk failed.
pub fn lay_head<D: Disk>(alloc: Global, disk: &mut D, params: Params) -> Result<Layout, OpenError>
    requires { fit_refusal Svx params ≡ None }
    ensures laid { OnOk result (HoldsJust (svx_head params []) (D.state disk.old) (D.state disk.new)) }
    ensures layout { IfOk result (λ l. l ≡ made_shape params [] 0) }
    ensures cause { IfErr result (IsLayCause (D.state disk.old).faults (D.state disk.new).faults) }
    ensures faults { CountsOpening D.state disk.old disk.new result }
    ensures name { (D.state disk.new).name ≡ (D.state disk.old).name }
    ensures told { is_some (D.state disk.new).contents ≡ is_some (D.state disk.old).contents }
    ensures time { GoesOnFrom D.state D.left_between disk.old disk.new }
    ensures written { WritesAtMost D.state 2048 disk.old disk.new }
    ensures asked { (D.state disk.new).asked ≡ (D.state disk.old).asked }
{
    params.are_good();
    let head = plain_head(&params);
    let layout = plain_layout(alloc, params);
    lay_made(disk, head.as_slice(), layout)
}
