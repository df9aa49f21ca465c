//! The bodies of `fmt ` chunks, as they are written.

ghost use Rattle.std.specs.Prelude.{◌≡◌, ◌+◌, ◌*◌, ◌≤◌, ◌++◌, None, length};
ghost use Rattle.std.specs.List.{flat_map};
ghost use Rattle.arrayvec.specs.ArrayVec.{array_vec_len};
ghost use Rattle.snd_fields.specs.Field.{bytes_of};
ghost use Rattle.snd_fields.specs.declared.field.Order.TheVariants.{Little};
ghost use Rattle.snd_layout.specs.Blocks.{block_frames};
ghost use Rattle.snd_layout.specs.Fit.{fit_refusal};
ghost use Rattle.snd_layout.specs.Written.{bits_per_sample, bytes_per_second, extension, tag_of, written_format};
ghost use Rattle.snd_layout.specs.declared.kind.Kind.TheVariants.{Wave};

use crate::codec::Codec;
use crate::format::COEFFICIENTS;
use crate::params::Params;
use arrayvec::ArrayVec;

/// Replaces what `into` holds by the body of the `fmt ` chunk of a WAVE file with these parameters: 16
/// bytes for linear samples, 18 for the laws, 20 for IMA ADPCM and 50 for Microsoft ADPCM. A WAVE file
/// holds the parameters.
#[tactic(auto, using(crate::proofs::Frames::blocks_have_frames))]
pub fn put_fmt(params: Params, into: &mut ArrayVec<u8, 64>)
    requires { fit_refusal Wave params ≡ None }
    ensures { into.new.items ≡ written_format params }
{
    params.are_good();
    into.clear();
    put_u16(into, tag_of(params.codec));
    put_u16(into, params.channels);
    put_u32(into, params.rate);
    put_u32(into, bytes_per_second(&params));
    put_u16(into, params.block_align());
    put_u16(into, bits_per_sample(params.codec));
    put_extension(into, params.codec);
}

fn tag_of(codec: Codec) -> u16
    ensures { result ≡ tag_of codec }
{
    match codec {
        Codec::Ms { .. } => 2,
        Codec::ALaw => 6,
        Codec::MuLaw => 7,
        Codec::Ima { .. } => 17,
        _ => 1,
    }
}

fn bits_per_sample(codec: Codec) -> u16
    ensures { result ≡ bits_per_sample codec }
{
    match codec {
        Codec::S16(_) => 16,
        Codec::S24(_) => 24,
        Codec::S32(_) => 32,
        Codec::Ima { .. } | Codec::Ms { .. } => 4,
        _ => 8,
    }
}

fn bytes_per_second(params: &Params) -> u32
    requires { 1 ≤ block_frames params.now.codec }
    ensures { result ≡ bytes_per_second params.now }
{
    let block = u64::from(params.rate) * u64::from(params.block_align());
    let bytes = block / u64::from(params.block_frames());
    if bytes < 1 << 32 {
        bytes as u32
    } else {
        u32::MAX
    }
}

// Puts 2 bytes behind the others, the lowest first.
fn put_u16(into: &mut ArrayVec<u8, 64>, value: u16)
    requires { array_vec_len into.old + 2 ≤ 64 }
    ensures items { into.new.items ≡ into.old.items ++ bytes_of Little 2 value }
    ensures len { array_vec_len into.new ≡ array_vec_len into.old + 2 }
{
    let [low, high] = value.to_le_bytes();
    into.push(low);
    into.push(high);
}

// Puts 4 bytes behind the others, the lowest first.
fn put_u32(into: &mut ArrayVec<u8, 64>, value: u32)
    requires { array_vec_len into.old + 4 ≤ 64 }
    ensures items { into.new.items ≡ into.old.items ++ bytes_of Little 4 value }
    ensures len { array_vec_len into.new ≡ array_vec_len into.old + 4 }
{
    let [first, second, third, fourth] = value.to_le_bytes();
    into.push(first);
    into.push(second);
    into.push(third);
    into.push(fourth);
}

fn put_extension(into: &mut ArrayVec<u8, 64>, codec: Codec)
    requires { array_vec_len into.old + 34 ≤ 64 }
    ensures { into.new.items ≡ into.old.items ++ extension codec }
{
    match codec {
        Codec::MuLaw | Codec::ALaw => put_u16(into, 0),
        Codec::Ima { per_block, .. } => {
            put_u16(into, 2);
            put_u16(into, per_block);
        }
        Codec::Ms { per_block, .. } => {
            put_u16(into, 32);
            put_u16(into, per_block);
            put_u16(into, 7);
            put_numbers(into, &COEFFICIENTS);
        }
        _ => {}
    }
}

fn put_numbers(into: &mut ArrayVec<u8, 64>, numbers: &[u16])
    requires { array_vec_len into.old + 2 * length numbers.now ≤ 64 }
    ensures { into.new.items ≡ into.old.items ++ flat_map (bytes_of Little 2) numbers.now }
{
    for number in numbers {
        put_u16(into, *number);
    }
}
