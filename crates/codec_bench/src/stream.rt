ghost use Rattle.std.specs.Prelude.{◌≤◌, IfSome, length};

use crate::codec::{Codec, Room};
use snd_disk::Source;
use std::io;

const BLOCK: usize = 32768;

/// How many bytes are read and written at a time, at most.
const GATHERED: usize = 131_072;

/// Fills a slice as far as bytes come, and answers how many did.
fn fill<R: Source>(source: &mut R, into: &mut [u8]) -> Option<usize>
    ensures { IfSome result (λ n. n ≤ length into.old) }
{
    let mut at = 0;
    while at < into.len() {
        let count = source.take(&mut into[at..]).ok()?;
        if count == 0 {
            break;
        }
        at += count;
    }
    Some(at)
}

/// Turns all whole blocks of a source, and answers 0, or 3 at a fault.
pub fn turn_all<R: Source, W: io::Write>(codec: &mut Codec, source: &mut R, writer: &mut W) -> u8 {
    let mut input = [0; GATHERED];
    let mut output = [0; GATHERED];
    let mut room = Room::new();
    let mut at = 0;
    let mut count = 0;
    let mut made = 0;
    for _ in 0..u64::MAX {
        let size = codec.block_size();
        if count - at < size {
            let Some(taken) = fill(source, &mut input[..GATHERED / size * size]) else {
                return 3;
            };
            at = 0;
            count = taken;
        }
        if count - at < size {
            break;
        }
        if made > GATHERED - BLOCK {
            if writer.write_all(&output[..made]).is_err() {
                return 3;
            }
            made = 0;
        }
        made += codec.turn(
            &input[at..at + size],
            &mut room,
            &mut output[made..made + BLOCK],
        );
        at += size;
    }
    if writer.write_all(&output[..made]).is_ok() && writer.flush().is_ok() {
        0
    } else {
        3
    }
}

/// Turns the first block of a source many times.
pub fn turn_again<R: Source>(codec: &mut Codec, source: &mut R, turns: u64) -> u8 {
    let mut input = [0; BLOCK];
    let mut output = [0; BLOCK];
    let mut room = Room::new();
    if fill(source, &mut input).is_none() {
        return 3;
    }
    for _ in 0..turns {
        let size = codec.block_size();
        let _ = codec.turn(&input[..size], &mut room, &mut output);
    }
    0
}
