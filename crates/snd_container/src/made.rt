//! Files of every kind that are made.

ghost use Rattle.std.specs.Prelude.{◌≡◌, IfErr, IfOk, None, OnErr, OnOk, Some, [], false, is_some, length};
ghost use Rattle.snd_disk.specs.Device.{CountsOn, GoesOnFrom, WritesAtMost};
ghost use Rattle.snd_disk.specs.State.{IsMeant};
ghost use Rattle.snd_layout.specs.Blocks.{is_adpcm};
ghost use Rattle.snd_layout.specs.Fit.{fit_refusal};
ghost use Rattle.snd_layout.specs.Laid.{HoldsJust};
ghost use Rattle.snd_layout.specs.Opened.{CountsOpening};
ghost use Rattle.snd_layout.specs.declared.kind.Kind.TheVariants.{Wave};
ghost use Rattle.snd_container.specs.Made.{IsMakeCause, new_file, new_shape};
ghost use Rattle.snd_container.specs.Put.{IsHeadOf, heads_for};

use snd_disk::{Disk, Step};
use snd_fields::Order;
use snd_layout::{Kind, Layout, OpenError, OpenRefusal, Params};
use std::alloc::Global;

/// Whether a file of a kind is made with some parameters: BadRate where it is 8SVX and the rate is above
/// 65535, then BadPair where the kind does not hold the codec, its order or the channels.
pub fn fit(kind: Kind, params: Params) -> Result<(), OpenRefusal>
    ensures fits { OnOk result (fit_refusal kind params ≡ None) }
    ensures refused { IfErr result (λ refusal. fit_refusal kind params ≡ Some refusal) }
{
    match kind.refusal_of(&params) {
        Some(refusal) => Err(refusal),
        None => Ok(()),
    }
}

/// Makes a disk a file of a kind with these parameters, no frames and no pieces, whatever it held before.
/// The kind holds the parameters. It writes at most 2048 bytes and reads none. The answer is
/// `DiskFault` where a call of the disk failed.
pub fn lay_head<D: Disk>(
    alloc: Global,
    disk: &mut D,
    kind: Kind,
    params: Params,
) -> Result<Layout, OpenError>
    requires { fit_refusal kind params ≡ None }
    ensures laid { OnOk result (IsMeant (length (new_file kind params)) (λ b. new_file kind params) (D.state disk.old) (D.state disk.new)) }
    ensures layout { IfOk result (λ l. l ≡ new_shape kind params) }
    ensures head { IfOk result (λ l. IsHeadOf (D.state disk.new) l params []) }
    ensures cause { IfErr result (IsMakeCause (D.state disk.old).faults (D.state disk.new).faults) }
    ensures faults { CountsOpening D.state disk.old disk.new result }
    ensures name { (D.state disk.new).name ≡ (D.state disk.old).name }
    ensures told { is_some (D.state disk.new).contents ≡ is_some (D.state disk.old).contents }
    ensures time { GoesOnFrom D.state D.left_between disk.old disk.new }
    ensures written { WritesAtMost D.state 2048 disk.old disk.new }
    ensures asked { (D.state disk.new).asked ≡ (D.state disk.old).asked }
{
    params.are_good();
    match kind {
        Kind::Wave => snd_wave::lay_head(alloc, disk, params),
        Kind::Rf64 => snd_rf64::lay_head(alloc, disk, params),
        Kind::W64 => snd_w64::lay_head(alloc, disk, params),
        Kind::Au => snd_au::lay_head(alloc, disk, Order::Big, params),
        Kind::Dns => snd_au::lay_head(alloc, disk, Order::Little, params),
        Kind::Voc => snd_voc::lay_head(alloc, disk, params),
        Kind::Svx => snd_svx::lay_head(alloc, disk, params),
        Kind::Sphere => snd_sphere::lay_head(alloc, disk, params),
    }
}

/// Lays the head of a WAVE file that is made anew with a chunk of 28 bytes before all others, which is
/// reserved for 64-bit sizes. The disk holds the head of the layout, with no pieces, no reservation and no
/// frames, and the samples have a fixed size; afterwards it holds the head with the reservation, and the
/// layout is that of this head. It takes no memory, writes at most 2048 bytes and reads none. The only error
/// is a call of the disk that failed: what the disk holds then is not said, and the layout stays.
pub fn lay_reserved<D: Disk>(disk: &mut D, layout: &mut Layout) -> Result<(), Step>
    requires wave { layout.old.kind ≡ Wave }
    requires fixed { is_adpcm layout.old.params.codec ≡ false }
    requires head { IsHeadOf (D.state disk.old) layout.old layout.old.params [] }
    requires free { layout.old.reserve ≡ None }
    ensures laid { OnOk result (HoldsJust ((heads_for (Some 28) Wave).head layout.old.params []) (D.state disk.old) (D.state disk.new)) }
    ensures layout { OnOk result (layout.new ≡ (heads_for (Some 28) Wave).shape layout.old.params []) }
    ensures head { OnOk result (IsHeadOf (D.state disk.new) layout.new layout.old.params []) }
    ensures kept { OnErr result (layout.new ≡ layout.old) }
    ensures faults { CountsOn D.state disk.old disk.new result }
    ensures name { (D.state disk.new).name ≡ (D.state disk.old).name }
    ensures told { is_some (D.state disk.new).contents ≡ is_some (D.state disk.old).contents }
    ensures time { GoesOnFrom D.state D.left_between disk.old disk.new }
    ensures written { WritesAtMost D.state 2048 disk.old disk.new }
    ensures asked { (D.state disk.new).asked ≡ (D.state disk.old).asked }
{
    snd_wave::lay_reserved(disk, layout)
}
