ghost use Rattle.std.specs.Prelude.{◌≡◌, ◌<◌, ◌≤◌, All, FitsSigned, length};
ghost use Rattle.std.specs.Int.{w16};
ghost use Rattle.snd_ima_adpcm.specs.Frames.{Is16Bit};
ghost use Rattle.codec_bench.specs.Codec.{block_size};

use arrayvec::ArrayVec;
use snd_fields::Order;
use snd_g711::{alaw_decode_all, alaw_encode_all, mulaw_decode_all, mulaw_encode_all};
use snd_ima_adpcm::{ImaBlock, ImaWriter};
use snd_ms_adpcm::{MsBlock, MsWriter};
use snd_pcm::{Linear, put_samples, read_samples};

const LINEAR: Linear = Linear::S16(Order::Little);

/// Room for what a block becomes on the way, which is kept from block to block.
#[derive(Drop)]
pub struct Room {
    numbers: [i32; 16384],
    samples: ArrayVec<i32, 16384>,
    bytes: ArrayVec<u8, 8192>,
}

impl Room {
    pub fn new() -> Room {
        Room {
            numbers: [0; 16384],
            samples: ArrayVec::new(),
            bytes: ArrayVec::new(),
        }
    }
}

/// One codec, one way. A writer of ADPCM keeps what is carried from block to block.
#[derive(Drop)]
pub enum Codec {
    MulawDecode,
    MulawEncode,
    AlawDecode,
    AlawEncode,
    ImaDecode,
    ImaEncode(ImaWriter),
    MsDecode,
    MsEncode(MsWriter),
}

impl Codec {
    pub fn of_words(codec: &str, way: &str) -> Option<Codec> {
        match (codec, way) {
            ("mulaw", "decode") => Some(Codec::MulawDecode),
            ("mulaw", "encode") => Some(Codec::MulawEncode),
            ("alaw", "decode") => Some(Codec::AlawDecode),
            ("alaw", "encode") => Some(Codec::AlawEncode),
            ("ima", "decode") => Some(Codec::ImaDecode),
            ("ima", "encode") => Some(Codec::ImaEncode(ImaWriter::new())),
            ("ms", "decode") => Some(Codec::MsDecode),
            ("ms", "encode") => Some(Codec::MsEncode(MsWriter::new())),
            _ => None,
        }
    }

    /// How many bytes are turned at a time.
    pub fn block_size(&self) -> usize
        ensures value { result ≡ block_size self.now }
        ensures some { 0 < result }
        ensures room { result ≤ 32768 }
    {
        match self {
            Codec::MulawDecode | Codec::AlawDecode => 16384,
            Codec::MulawEncode | Codec::AlawEncode => 32768,
            Codec::ImaDecode | Codec::MsDecode => 1024,
            Codec::ImaEncode(_) => 4082,
            Codec::MsEncode(_) => 4072,
        }
    }

    /// Turns a block, and answers how many bytes it became.
    pub fn turn(&mut self, input: &[u8], room: &mut Room, output: &mut [u8]) -> usize
        requires whole { length input.now ≡ block_size self.old }
        requires room { length output.old ≡ 32768 }
        ensures { result ≤ 32768 }
    {
        match self {
            Codec::MulawDecode => decode_law(input, &mut room.numbers, output, false),
            Codec::AlawDecode => decode_law(input, &mut room.numbers, output, true),
            Codec::MulawEncode => encode_law(input, &mut room.numbers, output, false),
            Codec::AlawEncode => encode_law(input, &mut room.numbers, output, true),
            Codec::ImaDecode => decode_ima(input, &mut room.samples, output),
            Codec::MsDecode => decode_ms(input, &mut room.samples, output),
            Codec::ImaEncode(writer) => {
                encode_ima(writer, input, &mut room.numbers, &mut room.bytes, output)
            }
            Codec::MsEncode(writer) => {
                encode_ms(writer, input, &mut room.numbers, &mut room.bytes, output)
            }
        }
    }
}

fn decode_law(input: &[u8], samples: &mut [i32; 16384], output: &mut [u8], is_alaw: bool) -> usize
    requires whole { length input.now ≡ 16384 }
    requires room { length output.old ≡ 32768 }
    ensures { result ≤ 32768 }
{
    if is_alaw {
        alaw_decode_all(input, samples);
    } else {
        mulaw_decode_all(input, samples);
    }
    put_samples(LINEAR, samples, output);
    32768
}

/// Puts the bytes of samples to the front.
fn put_encoded(samples: &[i32], output: &mut [u8], is_alaw: bool) -> usize
    requires range { All (FitsSigned w16) samples.now }
    requires few { length samples.now ≤ 16384 }
    requires room { length output.old ≡ 32768 }
    ensures { result ≤ 32768 }
{
    let count = samples.len();
    let front = &mut output[..count];
    if is_alaw {
        alaw_encode_all(samples, front);
    } else {
        mulaw_encode_all(samples, front);
    }
    count
}

fn encode_law(input: &[u8], samples: &mut [i32; 16384], output: &mut [u8], is_alaw: bool) -> usize
    requires whole { length input.now ≡ 32768 }
    requires room { length output.old ≡ 32768 }
    ensures { result ≤ 32768 }
{
    read_samples(LINEAR, input, samples);
    put_encoded(samples, output, is_alaw)
}

/// Puts samples as bytes to the front.
fn put_decoded(samples: &[i32], output: &mut [u8]) -> usize
    requires range { All Is16Bit samples.now }
    requires few { length samples.now ≤ 16384 }
    requires room { length output.old ≡ 32768 }
    ensures { result ≤ 32768 }
{
    let size = 2 * samples.len();
    put_samples(LINEAR, samples, &mut output[..size]);
    size
}

fn decode_ima(input: &[u8], samples: &mut ArrayVec<i32, 16384>, output: &mut [u8]) -> usize
    requires whole { length input.now ≡ 1024 }
    requires room { length output.old ≡ 32768 }
    ensures { result ≤ 32768 }
{
    match ImaBlock::decode(input, 1, samples) {
        Ok(()) => put_decoded(samples, output),
        Err(_) => 0,
    }
}

fn decode_ms(input: &[u8], samples: &mut ArrayVec<i32, 16384>, output: &mut [u8]) -> usize
    requires whole { length input.now ≡ 1024 }
    requires room { length output.old ≡ 32768 }
    ensures { result ≤ 32768 }
{
    match MsBlock::decode(input, 1, samples) {
        Ok(()) => put_decoded(samples, output),
        Err(_) => 0,
    }
}

/// Puts a block's bytes to the front.
fn put_block(bytes: &[u8], output: &mut [u8]) -> usize
    requires few { length bytes.now ≤ 8192 }
    requires room { length output.old ≡ 32768 }
    ensures { result ≤ 32768 }
{
    output[..bytes.len()].copy_from_slice(bytes);
    bytes.len()
}

fn encode_ima(
    writer: &mut ImaWriter,
    input: &[u8],
    numbers: &mut [i32; 16384],
    bytes: &mut ArrayVec<u8, 8192>,
    output: &mut [u8],
) -> usize
    requires whole { length input.now ≡ 4082 }
    requires room { length output.old ≡ 32768 }
    ensures { result ≤ 32768 }
{
    let samples = &mut numbers[..2041];
    read_samples(LINEAR, input, samples);
    writer.encode(samples, 1, bytes);
    put_block(bytes, output)
}

fn encode_ms(
    writer: &mut MsWriter,
    input: &[u8],
    numbers: &mut [i32; 16384],
    bytes: &mut ArrayVec<u8, 8192>,
    output: &mut [u8],
) -> usize
    requires whole { length input.now ≡ 4072 }
    requires room { length output.old ≡ 32768 }
    ensures { result ≤ 32768 }
{
    let samples = &mut numbers[..2036];
    read_samples(LINEAR, input, samples);
    writer.encode(samples, 1, bytes);
    put_block(bytes, output)
}
