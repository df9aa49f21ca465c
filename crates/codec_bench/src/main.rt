//! Decodes or encodes raw bytes, for measuring codecs: `codec_bench CODEC decode|encode [TURNS]`.
//!
//! The codec is `mulaw`, `alaw`, `ima` or `ms`; linear samples have 16 bits, the low byte first, and
//! ADPCM has one channel in blocks of 1024 bytes. Standard input is turned into standard output, whole
//! blocks of it; with TURNS the first block is turned so many times, and nothing is written.
#![tactic(auto)]

mod codec;
mod stream;

use codec::Codec;
use snd_files::ReaderSource;
use std::env;
use std::process::ExitCode;

/// What is to be done, by the words.
fn asked(rt: &HostRuntime) -> Option<(Codec, u64)> {
    let mut args = env::args(rt).ok()?;
    let _ = args.next();
    let codec = args.next()?;
    let way = args.next()?;
    let turns = match args.next() {
        Some(turns) => turns.parse::<u64>().ok()?,
        None => 0,
    };
    Some((Codec::of_words(codec.as_str(), way.as_str())?, turns))
}

fn main(rt: HostRuntime) -> ExitCode {
    let Some((mut codec, turns)) = asked(&rt) else {
        return ExitCode::from(2);
    };
    let mut source = ReaderSource::new(rt.stdin());
    let mut writer = rt.stdout();
    if turns == 0 {
        ExitCode::from(stream::turn_all(&mut codec, &mut source, &mut writer))
    } else {
        ExitCode::from(stream::turn_again(&mut codec, &mut source, turns))
    }
}
