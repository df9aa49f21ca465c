ghost use Rattle.std.specs.Prelude.{◌≡◌, ◌*◌, ◌<◌, ◌≤◌, ◌^◌, ◌++◌, OnOk, IfOk};
ghost use Rattle.snd_app.specs.Info.{clock, description, duration_line};
ghost use Rattle.snd_app.specs.Text.{refusal as message};

use crate::text::push_padded;
use snd_layout::Layout;
use snd_lines::{Refusal, push_chunks, push_line, push_number, push_number_line, push_texts};
use snd_meta::InfoList;
use std::alloc::{AllocError, Global};

const HOUR: u128 = 3_600_000;

const MINUTE: u128 = 60_000;

const SECOND: u128 = 1000;

/// Appends a length of time in milliseconds, as `HH:MM:SS.mmm`.
fn push_clock(text: &mut Vec<u8>, time: u128) -> Result<(), AllocError>
    requires { time < 2 ^ 75 }
    ensures { OnOk result (text.new.items ≡ text.old.items ++ clock time) }
{
    push_padded(text, (time / HOUR) as u64, 2)?;
    text.push(b':')?;
    push_padded(text, (time / MINUTE % 60) as u64, 2)?;
    text.push(b':')?;
    push_padded(text, (time / SECOND % 60) as u64, 2)?;
    text.push(b'.')?;
    push_padded(text, (time % SECOND) as u64, 3)
}

/// Appends the line on how long so many frames take.
fn push_duration(text: &mut Vec<u8>, frames: u64, rate: u32) -> Result<(), AllocError>
    requires { 1 ≤ rate }
    ensures { OnOk result (text.new.items ≡ text.old.items ++ duration_line frames rate) }
{
    text.extend_from_slice(b"duration ")?;
    push_clock(text, u128::from(frames) * 1000 / u128::from(rate))?;
    text.push(b'\n')?;
    Ok(())
}

/// The lines that describe a file, and its texts.
pub fn describe(
    alloc: Global,
    name: &str,
    layout: &Layout,
    texts: &InfoList,
) -> Result<Vec<u8>, AllocError>
    ensures { IfOk result (λ text. text.items ≡ description name.now layout.now texts.now) }
{
    layout.params.are_good();
    let mut text = Vec::new(alloc);
    push_line(&mut text, b"name", name.as_bytes())?;
    push_line(&mut text, b"kind", layout.kind.name().as_bytes())?;
    push_line(&mut text, b"codec", layout.params.codec.name().as_bytes())?;
    push_number_line(&mut text, b"channels", u64::from(layout.params.channels))?;
    push_number_line(&mut text, b"rate", u64::from(layout.params.rate))?;
    push_number_line(&mut text, b"frames", layout.frames)?;
    push_duration(&mut text, layout.frames, layout.params.rate)?;
    push_chunks(&mut text, b"chunk ", layout.pieces.as_slice())?;
    push_texts(&mut text, b"string ", texts)?;
    Ok(text)
}

/// The message that a file is refused.
pub fn refuse(alloc: Global, name: &str, refusal: Refusal) -> Result<Vec<u8>, AllocError>
    ensures { IfOk result (λ text. text.items ≡ message name.now refusal) }
{
    let mut text = Vec::from_slice(alloc, b"snd: ")?;
    text.extend_from_slice(name.as_bytes())?;
    text.extend_from_slice(b": error ")?;
    push_number(&mut text, u64::from(refusal.number()))?;
    text.push(b' ')?;
    text.extend_from_slice(refusal.name().as_bytes())?;
    text.push(b'\n')?;
    Ok(text)
}
