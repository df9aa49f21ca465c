//! The head of a file that is made.

ghost use Rattle.std.specs.Prelude.{◌≡◌, ◌+◌, ◌≤◌, None, decimal, is_some, length, OnOk, IfErr, IfOk};
ghost use Rattle.snd_disk.specs.Device.{GoesOnFrom, WritesAtMost};
ghost use Rattle.snd_layout.specs.Fit.{fit_refusal};
ghost use Rattle.snd_layout.specs.Laid.{HoldsJust, IsLayCause};
ghost use Rattle.snd_layout.specs.Opened.{CountsOpening};
ghost use Rattle.snd_layout.specs.declared.kind.Kind.TheVariants.{Sphere};
ghost use Rattle.snd_sphere.specs.Written.{coding_lines, made_shape, sphere_head};

use crate::put::put_spaces;
use arrayvec::ArrayVec;
use itoa::Buffer;
use snd_disk::Disk;
use snd_fields::{Order, put_all};
use snd_layout::{Codec, Field, Kind, Layout, OpenError, Params, lay_made};
use std::alloc::Global;

/// The size of the header, behind which the data begin.
const HEADER: u64 = 1024;

/// The place of the count's first digit, but for the digits of the channels, which stand before it.
const COUNT_AT: u64 = 50;

/// How many digits the count has.
const COUNT_SIZE: u8 = 10;

// The lines that say how samples are coded, with the line feed before them.
fn coding_lines(codec: Codec) -> &'static [u8]
    ensures lines { result.now ≡ coding_lines codec }
    ensures few { length result.now ≤ 128 }
{
    match codec {
        Codec::S16(Order::Little) => {
            b"\nsample_n_bytes -i 2\nsample_byte_format -s2 01\nsample_sig_bits -i 16\nsample_coding -s3 pcm\nend_head\n"
        }
        Codec::S16(Order::Big) => {
            b"\nsample_n_bytes -i 2\nsample_byte_format -s2 10\nsample_sig_bits -i 16\nsample_coding -s3 pcm\nend_head\n"
        }
        Codec::ALaw => {
            b"\nsample_n_bytes -i 1\nsample_byte_format -s1 1\nsample_sig_bits -i 8\nsample_coding -s4 alaw\nend_head\n"
        }
        _ => {
            b"\nsample_n_bytes -i 1\nsample_byte_format -s1 1\nsample_sig_bits -i 8\nsample_coding -s4 ulaw\nend_head\n"
        }
    }
}

// The head of a file without frames.
#[tactic(auto, unfolding(crate::specs::Written::sphere_head))]
fn head_of(params: &Params) -> ArrayVec<u8, 1024>
    ensures { result.items ≡ sphere_head params.now }
{
    let mut channels = Buffer::new();
    let mut rate = Buffer::new();
    let mut head = ArrayVec::new();
    put_all(&mut head, b"NIST_1A\n   1024\nchannel_count -i ");
    put_all(&mut head, channels.format(params.channels).as_bytes());
    put_all(&mut head, b"\nsample_count -i 0000000000\nsample_rate -i ");
    put_all(&mut head, rate.format(params.rate).as_bytes());
    put_all(&mut head, coding_lines(params.codec));
    put_spaces(&mut head);
    head
}

// How many digits a number has.
fn digit_count(number: u16) -> u64
    ensures value { result ≡ length (decimal number) }
    ensures most { result ≤ 40 }
{
    let mut buffer = Buffer::new();
    buffer.format(number).len() as u64
}

// What it says.
#[tactic(auto, unfolding(crate::specs::Written::made_shape))]
fn layout_of(alloc: Global, params: Params) -> Layout
    requires { fit_refusal Sphere params ≡ None }
    ensures { result ≡ made_shape params }
{
    params.are_good();
    let at = COUNT_AT + digit_count(params.channels);
    let inner = Field {
        at,
        size: COUNT_SIZE,
    };
    Layout::made(alloc, Kind::Sphere, params, HEADER, inner, None, None)
}

/// Makes a disk a SPHERE file with these parameters and no frames, whatever it held before. A SPHERE
/// file holds the parameters. It writes at most 2048 bytes and reads none. The only error is
/// `DiskFault`, where a call of the disk failed.
pub fn lay_head<D: Disk>(alloc: Global, disk: &mut D, params: Params) -> Result<Layout, OpenError>
    requires { fit_refusal Sphere params ≡ None }
    ensures laid { OnOk result (HoldsJust (sphere_head params) (D.state disk.old) (D.state disk.new)) }
    ensures layout { IfOk result (λ l. l ≡ made_shape params) }
    ensures cause { IfErr result (IsLayCause (D.state disk.old).faults (D.state disk.new).faults) }
    ensures faults { CountsOpening D.state disk.old disk.new result }
    ensures name { (D.state disk.new).name ≡ (D.state disk.old).name }
    ensures told { is_some (D.state disk.new).contents ≡ is_some (D.state disk.old).contents }
    ensures time { GoesOnFrom D.state D.left_between disk.old disk.new }
    ensures written { WritesAtMost D.state 2048 disk.old disk.new }
    ensures asked { (D.state disk.new).asked ≡ (D.state disk.old).asked }
{
    let head = head_of(&params);
    let layout = layout_of(alloc, params);
    lay_made(disk, head.as_slice(), layout)
}
