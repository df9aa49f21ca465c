//! The format of the sound's block.

ghost use Rattle.std.specs.Prelude.{◌≡◌, ◌+◌, ◌-◌, ◌≤◌, ◌<◌, ◌^◌, List, ℕ, None, IfOk, IfSome, length};
ghost use Rattle.snd_disk.specs.Device.{AsksAtMost, OnlyReadsOn, Tells};
ghost use Rattle.snd_layout.specs.Fit.{fit_refusal};
ghost use Rattle.snd_layout.specs.Opened.{CountsOpening, OpensAs};
ghost use Rattle.snd_layout.specs.declared.kind.Kind.TheVariants.{Voc};
ghost use Rattle.snd_voc.specs.Layout.{codec_of, data_start, extended_rate, extra, has_bits, has_format, is_long, newer_of, older_format, older_of, rate_of, sound_format};
ghost use Rattle.snd_voc.specs.Parts.{AgreesFrom};

use crate::blocks::{Block, Sound};
use crate::reads::read_from;
use snd_disk::Disk;
use snd_fields::{Order, u16_at, u24_at, u32_at};
use snd_layout::{Codec, OpenError, OpenRefusal, Params};

/// The bytes of a head of type 9, the longer of the two.
pub(crate) const SOUND_HEAD: usize = 16;

// The codec with a number, where it is one of the four.
fn codec_of(code: u16) -> Option<Codec>
    ensures { result ≡ codec_of code }
{
    match code {
        0 => Some(Codec::U8),
        4 => Some(Codec::S16(Order::Little)),
        6 => Some(Codec::ALaw),
        7 => Some(Codec::MuLaw),
        _ => None,
    }
}

// Whether linear samples of a codec have so many bits.
fn has_bits(codec: Codec, bits: u8) -> bool
    ensures { result ≡ has_bits codec bits }
{
    match codec {
        Codec::U8 => bits == 8,
        Codec::S16(_) => bits == 16,
        _ => true,
    }
}

// The parameters that a block of type 9 states.
fn newer_of(code: u16, channels: u8, rate: u32, bits: u8) -> Result<Params, OpenRefusal>
    ensures value { result ≡ newer_of (codec_of code) channels rate bits }
    ensures fits { IfOk result (λ p. fit_refusal Voc p ≡ None) }
{
    let Some(codec) = codec_of(code) else {
        return Err(OpenRefusal::UnknownCodec);
    };
    if channels > 2 {
        return Err(OpenRefusal::BadChannels);
    }
    let params = Params::new(u64::from(channels), u64::from(rate), codec)?;
    if !has_bits(codec, bits) {
        return Err(OpenRefusal::BadBits);
    }
    Ok(params)
}

// Those of a block of type 1, or of type 8 before it.
fn older_of(codec: u8, mode: u8, rate: u32) -> Result<Params, OpenRefusal>
    ensures value { result ≡ older_of codec mode rate }
    ensures fits { IfOk result (λ p. fit_refusal Voc p ≡ None) }
{
    if codec != 0 {
        return Err(OpenRefusal::UnknownCodec);
    }
    if mode > 1 {
        return Err(OpenRefusal::BadChannels);
    }
    Params::new(u64::from(mode) + 1, u64::from(rate), Codec::U8)
}

// The rate of a time constant of 8 bits.
fn rate_of(constant: u8) -> u32
    ensures { result ≡ rate_of constant }
{
    1_000_000 / (256 - u32::from(constant))
}

// The rate of a time constant of 16 bits, which counts the samples of all channels.
fn extended_rate(mode: u8, constant: u16) -> u32
    ensures { result ≡ extended_rate mode constant }
{
    256_000_000 / ((u32::from(mode) + 1) * (65536 - u32::from(constant)))
}

impl Sound {
    // The bytes between the block's size and the data.
    fn extra(&self) -> u64
        ensures { result ≡ extra self.now }
    {
        if self.kind == 1 { 2 } else { 12 }
    }

    /// The place of the first data byte.
    pub(crate) fn data_start(&self) -> u64
        requires { self.now.at + 16 < 2 ^ 63 }
        ensures { result ≡ data_start self.now }
    {
        self.at + 4 + self.extra()
    }

    /// The data bytes of a block of this size.
    pub(crate) fn data_len(&self, len: u32) -> u64
        ensures { result ≡ len - extra self.now }
    {
        u64::from(len).saturating_sub(self.extra())
    }
}

// Whether a block of type 8 holds its four bytes, where there is one.
fn is_long(extension: Option<Block>) -> bool
    ensures { result ≡ is_long extension }
{
    match extension {
        Some(block) => 4 <= block.len,
        None => true,
    }
}

// Whether the format is there in a block of this size and in a file of this size.
fn has_format(len: u32, end: u64, sound: Sound) -> bool
    requires { sound.at + 16 < 2 ^ 63 }
    ensures { result ≡ has_format len end sound }
{
    sound.extra() <= u64::from(len)
        && sound.data_start() <= end
        && (sound.kind != 1 || is_long(sound.extension))
}

// Reads the format of a block of type 1, which has this time constant and codec.
fn read_older<D: Disk>(
    disk: &mut D,
    extension: Option<Block>,
    constant: u8,
    codec: u8,
) -> Result<Params, OpenError>
    requires { IfSome extension (λ block. block.at + 4 < 2 ^ 63) }
    ensures told { OpensAs D.state disk.old (λ b. older_format b extension constant codec) result }
    ensures fits { IfOk result (λ p. fit_refusal Voc p ≡ None) }
    ensures faults { CountsOpening D.state disk.old disk.new result }
    ensures reads { OnlyReadsOn D.state D.may_leave D.left_between disk.old disk.new }
    ensures asked { AsksAtMost D.state 4 disk.old disk.new }
{
    let Some(block) = extension else {
        return Ok(older_of(codec, 0, rate_of(constant))?);
    };
    let mut body = [0; 4];
    read_from(disk, block.at, &mut body)?;
    let constant = u16_at(&body, 0, Order::Little);
    let rate = extended_rate(body[3], constant);
    Ok(older_of(body[2], body[3], rate)?)
}

/// Reads the format of the sound's block, whose head has these bytes: NoFormat where it is not all there,
/// then UnknownCodec, BadChannels, BadRate and BadBits.
pub(crate) fn read_format<D: Disk>(
    disk: &mut D,
    size: u64,
    sound: Sound,
    head: &[u8],
) -> Result<Params, OpenError>
    requires size { size ≡ (D.state disk.old).size }
    requires early { sound.at + 16 < 2 ^ 63 }
    requires extension { IfSome sound.extension (λ block. block.at ≤ sound.at) }
    requires long { length head.now ≡ 16 }
    requires head { (b : List ℕ) → Tells D.state disk.old b → AgreesFrom b sound.at 16 head.now }
    ensures told { OpensAs D.state disk.old (λ b. sound_format b sound) result }
    ensures there { IfOk result (λ p. data_start sound ≤ size) }
    ensures fits { IfOk result (λ p. fit_refusal Voc p ≡ None) }
    ensures faults { CountsOpening D.state disk.old disk.new result }
    ensures reads { OnlyReadsOn D.state D.may_leave D.left_between disk.old disk.new }
    ensures asked { AsksAtMost D.state 4 disk.old disk.new }
{
    if !has_format(u24_at(head, 1, Order::Little), size, sound) {
        return Err(OpenError::Refused(OpenRefusal::NoFormat));
    }
    if sound.kind == 1 {
        return read_older(disk, sound.extension, head[4], head[5]);
    }
    let code = u16_at(head, 10, Order::Little);
    let rate = u32_at(head, 4, Order::Little);
    Ok(newer_of(code, head[9], rate, head[8])?)
}
