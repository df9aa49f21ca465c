//! The mu-law of ITU-T G.711 as linear samples of 16 bits, and these as its bytes.
#![tactic(auto, using(crate::proofs::Loops::law_all, crate::proofs::Loops::law_step, crate::proofs::Loops::number_all, crate::proofs::Loops::number_step))]

ghost use Rattle.std.specs.Prelude.{◌≡◌, ◌*◌, length, map};
ghost use Rattle.snd_fields.specs.declared.field.Order.TheVariants.{Little};
ghost use Rattle.snd_g711.specs.Mulaw.{mulaw_byte, mulaw_value};
ghost use Rattle.snd_pcm.specs.Pcm.{code, samples, samples_bytes};
ghost use Rattle.snd_pcm.specs.declared.linear.Linear.TheVariants.{S16};
ghost use Rattle.snd_recode.specs.Factors.{mulaw_factor};

use crate::pair::{PIECE, nothing, number_in};
use snd_g711::mulaw_encode;

// How many times the steps of the first segment go into those of a byte's.
#[inline(always)]
fn factor_of(byte: u8) -> u8
    ensures { result ≡ mulaw_factor byte }
{
    128 >> (byte / 16 % 8)
}

// That of each byte. Alone in a loop, sixteen of them are looked up at once.
#[inline(always)]
fn put_factors(bytes: &[u8], factors: &mut [u8])
    requires { length factors.old ≡ length bytes.now }
    ensures { factors.new ≡ map mulaw_factor bytes.now }
{
    for (i, factor) in factors.iter_mut().enumerate() {
        *factor = factor_of(bytes[i]);
    }
}

// The code of a byte's value in 16 bits.
#[inline(always)]
fn code_of(byte: u8, factor: u8) -> u16
    requires { factor ≡ mulaw_factor byte }
    ensures { result ≡ code (S16 Little) (mulaw_value byte) }
{
    let magnitude = u16::from(252 - byte % 16 * 8) * u16::from(factor) - 132;
    if byte < 128 {
        magnitude.wrapping_neg()
    } else {
        magnitude
    }
}

// The bytes of the values.
#[inline(always)]
fn put_values(bytes: &[u8], factors: &[u8], into: &mut [u8])
    requires factors { factors.now ≡ map mulaw_factor bytes.now }
    requires room { length into.old ≡ 2 * length bytes.now }
    ensures { into.new ≡ samples_bytes (S16 Little) (map mulaw_value bytes.now) }
{
    for (i, byte) in bytes.iter().enumerate() {
        let [low, high] = code_of(*byte, factors[i]).to_le_bytes();
        into[2 * i] = low;
        into[2 * i + 1] = high;
    }
}

// The bytes of the values, with a room for the factors.
#[inline(always)]
fn put_piece(bytes: &[u8], factors: &mut [u8], into: &mut [u8])
    requires factors { length factors.old ≡ length bytes.now }
    requires room { length into.old ≡ 2 * length bytes.now }
    ensures { into.new ≡ samples_bytes (S16 Little) (map mulaw_value bytes.now) }
{
    put_factors(bytes, factors);
    put_values(bytes, factors, into);
}

/// The values of mu-law bytes as linear samples of 16 bits, the lowest byte first. `into` has just enough
/// places.
pub(crate) fn mulaw_as_linear(bytes: &[u8], into: &mut [u8])
    requires { length into.old ≡ 2 * length bytes.now }
    ensures { into.new ≡ samples_bytes (S16 Little) (map mulaw_value bytes.now) }
{
    let mut factors = [0u8; PIECE];
    let whole = bytes.len() / PIECE;
    for i in 0..whole {
        let (from, to) = (PIECE * i, PIECE * (i + 1));
        put_piece(&bytes[from..to], &mut factors, &mut into[2 * from..2 * to]);
    }
    let rest = PIECE * whole;
    put_piece(
        &bytes[rest..],
        &mut factors[..bytes.len() - rest],
        &mut into[2 * rest..],
    );
}

/// Linear samples of 16 bits, the lowest byte first, as mu-law bytes. `bytes` has two for each place.
pub(crate) fn linear_as_mulaw(bytes: &[u8], into: &mut [u8])
    requires room { length bytes.now ≡ 2 * length into.old }
    ensures { into.new ≡ map mulaw_byte (samples (S16 Little) bytes.now) }
{
    let nothing = nothing(bytes, into);
    for (i, byte) in into.iter_mut().enumerate() {
        *byte = mulaw_encode(number_in(bytes[2 * i], bytes[2 * i + 1]) + nothing);
    }
}
