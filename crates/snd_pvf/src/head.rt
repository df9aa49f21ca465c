//! The head of a file.

ghost use Rattle.std.specs.Prelude.{◌≡◌, ◌+◌, ◌≤◌, IfOk, IfSome, length, option_map};
ghost use Rattle.snd_pvf.specs.Pvf.{codec_of, cut_at, has_mark, is_pvf_codec, params_in, pvf_head, second_line};

use crate::line::{Stated, cut_at, stated_in};
use snd_fields::Order;
use snd_layout::{Codec, OpenRefusal, Params};

/// The first line, with its line feed.
const MARK: [u8; 5] = *b"PVF1\n";

/// How many bytes of a file may be its head.
const MOST_BYTES: usize = 64;

/// What the head of a PVF file says.
#[derive(Clone, Copy, Debug, PartialEq, Eq)]
pub struct Head {
    /// One of three codecs: linear of 8, 16 or 32 bits in two's complement, the highest byte first.
    pub params: Params,
    /// The place of the first data byte.
    pub start: u64,
}

// Whether a file begins with the first line.
#[tactic(auto, unfolding(crate::specs::Pvf::has_mark))]
fn has_mark(bytes: &[u8]) -> bool
    ensures value { result ≡ has_mark bytes.now }
{
    bytes.starts_with(&MARK)
}

// The second line, without its line feed.
#[tactic(auto, unfolding(crate::specs::Pvf::second_line))]
fn second_line(bytes: &[u8]) -> Option<&[u8]>
    ensures line { option_map (λ line. line.now) result ≡ option_map (λ parts. parts.0) (second_line bytes.now) }
    ensures within { IfSome result (λ line. 6 + length line.now ≤ length bytes.now) }
{
    let front = &bytes[..MOST_BYTES.min(bytes.len())];
    if front.len() < MARK.len() {
        return None;
    }
    match cut_at(b'\n', &front[MARK.len()..]) {
        Some((line, _)) => Some(line),
        None => None,
    }
}

// The codec of so many bits.
fn codec_of(bits: u64) -> Codec
    ensures { result ≡ codec_of bits }
{
    match bits {
        8 => Codec::S8,
        32 => Codec::S32(Order::Big),
        _ => Codec::S16(Order::Big),
    }
}

// The parameters that the numbers of the second line state, or why they are refused.
fn params_in(stated: Stated) -> Result<Params, OpenRefusal>
    ensures { result ≡ params_in stated }
{
    let params = Params::new(stated.channels, stated.rate, codec_of(stated.bits))?;
    if !matches!(stated.bits, 8 | 16 | 32) {
        return Err(OpenRefusal::BadBits);
    }
    Ok(params)
}

/// Reads the head of a PVF file, of which these are the first bytes: 64 of them, or all there are. What
/// stands behind the first 64 is not looked at.
///
/// The answer is `NotSound` where they do not begin with `PVF1` and a line feed; `BadField` where no line
/// of three numbers of 1 to 10 digits, with one space between each two, ends within the first 64; then
/// `BadChannels` and `BadRate` as `Params::new` says; and `BadBits` where a sample has not 8, 16 or 32 bits.
pub fn read_head(bytes: &[u8]) -> Result<Head, OpenRefusal>
    ensures head { result ≡ pvf_head bytes.now }
    ensures within { IfOk result (λ h. h.start ≤ length bytes.now) }
{
    if !has_mark(bytes) {
        return Err(OpenRefusal::NotSound);
    }
    let Some(line) = second_line(bytes) else {
        return Err(OpenRefusal::BadField);
    };
    let Some(stated) = stated_in(line) else {
        return Err(OpenRefusal::BadField);
    };
    let params = params_in(stated)?;
    let start = (MARK.len() + line.len() + 1) as u64;
    Ok(Head { params, start })
}
