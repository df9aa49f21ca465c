//! The head of a file that is made.

ghost use Rattle.std.specs.Prelude.{◌≡◌, ◌≤◌, IfErr, IfOk, None, OnOk, is_some, length};
ghost use Rattle.snd_disk.specs.Device.{GoesOnFrom, WritesAtMost};
ghost use Rattle.snd_layout.specs.Fit.{fit_refusal};
ghost use Rattle.snd_layout.specs.Laid.{HoldsJust, IsLayCause};
ghost use Rattle.snd_layout.specs.Opened.{CountsOpening};
ghost use Rattle.snd_au.specs.Layout.{kind_of};
ghost use Rattle.snd_au.specs.Written.{au_head, made_shape, mark};

use crate::codecs::encoding_of;
use crate::layout::{DATA_SIZE, kind_of};
use crate::numbers::HEAD_SIZE;
use arrayvec::ArrayVec;
use snd_disk::Disk;
use snd_fields::{Order, put_all, put_number};
use snd_layout::{Layout, OpenError, Params, lay_made};
use std::alloc::Global;

// The mark of a byte order.
fn mark(order: Order) -> [u8; 4]
    ensures { result ≡ mark order }
{
    match order {
        Order::Big => *b".snd",
        Order::Little => *b"dns.",
    }
}

// The head of a file without frames.
fn new_head(order: Order, params: &Params) -> ArrayVec<u8, 24>
    ensures { result.items ≡ au_head order params.now }
{
    let mut head = ArrayVec::new();
    put_all(&mut head, &mark(order));
    put_number(&mut head, order, HEAD_SIZE);
    put_number(&mut head, order, 0);
    put_number(&mut head, order, u64::from(encoding_of(params.codec)));
    put_number(&mut head, order, u64::from(params.rate));
    put_number(&mut head, order, u64::from(params.channels));
    head
}

// What it says.
fn new_layout(alloc: Global, order: Order, params: Params) -> Layout
    requires { fit_refusal (kind_of order) params ≡ None }
    ensures { result ≡ made_shape order params }
{
    params.are_good();
    let kind = kind_of(order);
    Layout::made(alloc, kind, params, HEAD_SIZE, DATA_SIZE, None, None)
}

/// Makes a disk an AU file with these parameters and no frames, whatever it held before: in the highest
/// byte first a `.snd` file, in the lowest first a `dns.` file. The kind holds the parameters. It writes
/// at most 2048 bytes and reads none. The only error is `DiskFault`, where a call of the disk failed.
pub fn lay_head<D: Disk>(
    alloc: Global,
    disk: &mut D,
    order: Order,
    params: Params,
) -> Result<Layout, OpenError>
    requires { fit_refusal (kind_of order) params ≡ None }
    ensures laid { OnOk result (HoldsJust (au_head order params) (D.state disk.old) (D.state disk.new)) }
    ensures layout { IfOk result (λ l. l ≡ made_shape order params) }
    ensures cause { IfErr result (IsLayCause (D.state disk.old).faults (D.state disk.new).faults) }
    ensures faults { CountsOpening D.state disk.old disk.new result }
    ensures name { (D.state disk.new).name ≡ (D.state disk.old).name }
    ensures told { is_some (D.state disk.new).contents ≡ is_some (D.state disk.old).contents }
    ensures time { GoesOnFrom D.state D.left_between disk.old disk.new }
    ensures written { WritesAtMost D.state 2048 disk.old disk.new }
    ensures asked { (D.state disk.new).asked ≡ (D.state disk.old).asked }
{
    let head = new_head(order, &params);
    let layout = new_layout(alloc, order, params);
    lay_made(disk, head.as_slice(), layout)
}
