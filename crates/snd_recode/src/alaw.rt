//! The A-law of ITU-T G.711 as linear samples of 16 bits, and these as its bytes.
#![tactic(auto, using(crate::proofs::Loops::law_all, crate::proofs::Loops::law_step, crate::proofs::Loops::number_all, crate::proofs::Loops::number_step))]

ghost use Rattle.std.specs.Prelude.{◌≡◌, ◌*◌, ◌*ℤ◌, ◌<◌, FitsSigned, length, map, pos};
ghost use Rattle.std.specs.Int.{w16};
ghost use Rattle.snd_fields.specs.declared.field.Order.TheVariants.{Little};
ghost use Rattle.snd_g711.specs.Alaw.{alaw_byte, alaw_value};
ghost use Rattle.snd_pcm.specs.Pcm.{sample_bytes, samples, samples_bytes};
ghost use Rattle.snd_pcm.specs.declared.linear.Linear.TheVariants.{S16};
ghost use Rattle.snd_recode.specs.Factors.{alaw_code_in, alaw_factor, alaw_halves};

use crate::pair::{PIECE, nothing, number_in};
use snd_g711::alaw_encode;

// The code of a byte, of which the even bits are inverted.
#[inline(always)]
fn code_in(byte: u8) -> u8
    ensures value { result ≡ alaw_code_in byte }
    ensures few { result < 128 }
{
    (byte ^ 0x55) % 128
}

// How many times the steps of the first two segments go into those of a byte's.
#[inline(always)]
fn factor_of(byte: u8) -> u8
    ensures { result ≡ alaw_factor byte }
{
    (64 >> (7 - code_in(byte) / 16)).max(1)
}

// How many halves of its steps a byte's value lies above zero.
#[inline(always)]
fn halves_of(byte: u8) -> i8
    ensures { result ≡ alaw_halves byte }
{
    let code = code_in(byte);
    let first = if code < 16 { 1 } else { 33 };
    let halves = (2 * (code % 16) + first) as i8;
    if byte < 128 { -halves } else { halves }
}

// Both of each byte. Without the multiplication in the loop, sixteen bytes are taken at once.
#[inline(always)]
fn put_parts(bytes: &[u8], factors: &mut [u8], halves: &mut [i8])
    requires room { length factors.old ≡ length bytes.now }
    requires halves { length halves.old ≡ length bytes.now }
    ensures factors { factors.new ≡ map alaw_factor bytes.now }
    ensures halves { halves.new ≡ map alaw_halves bytes.now }
{
    for (i, byte) in bytes.iter().enumerate() {
        factors[i] = factor_of(*byte);
        halves[i] = halves_of(*byte);
    }
}

// The bytes of the value that lies so many halves of such steps above zero.
#[inline(always)]
fn bytes_of(halves: i8, factor: u8) -> [u8; 2]
    requires { FitsSigned w16 (halves *ℤ pos (8 * factor)) }
    ensures { result ≡ sample_bytes (S16 Little) (halves *ℤ pos (8 * factor)) }
{
    (i16::from(halves) * (8 * i16::from(factor))).to_le_bytes()
}

// The bytes of the values.
#[inline(always)]
fn put_values(bytes: &[u8], factors: &[u8], halves: &[i8], into: &mut [u8])
    requires factors { factors.now ≡ map alaw_factor bytes.now }
    requires halves { halves.now ≡ map alaw_halves bytes.now }
    requires room { length into.old ≡ 2 * length bytes.now }
    ensures { into.new ≡ samples_bytes (S16 Little) (map alaw_value bytes.now) }
{
    for i in 0..bytes.len() {
        let [low, high] = bytes_of(halves[i], factors[i]);
        into[2 * i] = low;
        into[2 * i + 1] = high;
    }
}

// The bytes of the values, with a room for the factors and one for the halves.
#[inline(always)]
fn put_piece(bytes: &[u8], factors: &mut [u8], halves: &mut [i8], into: &mut [u8])
    requires factors { length factors.old ≡ length bytes.now }
    requires halves { length halves.old ≡ length bytes.now }
    requires room { length into.old ≡ 2 * length bytes.now }
    ensures { into.new ≡ samples_bytes (S16 Little) (map alaw_value bytes.now) }
{
    put_parts(bytes, factors, halves);
    put_values(bytes, factors, halves, into);
}

/// The values of A-law bytes as linear samples of 16 bits, the lowest byte first. `into` has just enough
/// places.
pub(crate) fn alaw_as_linear(bytes: &[u8], into: &mut [u8])
    requires { length into.old ≡ 2 * length bytes.now }
    ensures { into.new ≡ samples_bytes (S16 Little) (map alaw_value bytes.now) }
{
    let (mut factors, mut halves) = ([0u8; PIECE], [0i8; PIECE]);
    let whole = bytes.len() / PIECE;
    for i in 0..whole {
        let (from, to) = (PIECE * i, PIECE * (i + 1));
        put_piece(
            &bytes[from..to],
            &mut factors,
            &mut halves,
            &mut into[2 * from..2 * to],
        );
    }
    let rest = PIECE * whole;
    let left = bytes.len() - rest;
    put_piece(
        &bytes[rest..],
        &mut factors[..left],
        &mut halves[..left],
        &mut into[2 * rest..],
    );
}

/// Linear samples of 16 bits, the lowest byte first, as A-law bytes. `bytes` has two for each place.
pub(crate) fn linear_as_alaw(bytes: &[u8], into: &mut [u8])
    requires room { length bytes.now ≡ 2 * length into.old }
    ensures { into.new ≡ map alaw_byte (samples (S16 Little) bytes.now) }
{
    let nothing = nothing(bytes, into);
    for (i, byte) in into.iter_mut().enumerate() {
        *byte = alaw_encode(number_in(bytes[2 * i], bytes[2 * i + 1]) + nothing);
    }
}
