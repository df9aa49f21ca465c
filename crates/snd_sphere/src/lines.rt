//! The lines of a header.

ghost use Rattle.std.specs.Prelude.{◌≡◌, ◌≤◌, ◌<◌, IfOk, IfSome, length, true};
ghost use Rattle.snd_sphere.specs.Found.{StandsBefore, found};
ghost use Rattle.snd_sphere.specs.Layout.{has_end, has_float};
ghost use Rattle.snd_sphere.specs.Lines.{begins, has_name, named, only};

use crate::line::Line;
use snd_layout::OpenRefusal;

/// The place of the first line that is looked at, behind the kind of the file and the size of the header.
const FIRST_LINE: usize = 16;

/// The line that ends them.
const END: [u8; 8] = *b"end_head";

// Whether a line has a name: the word is the name and a space.
fn has_name(line: &[u8], word: &[u8]) -> bool
    requires { 1 ≤ length word.now }
    ensures { result ≡ has_name word.now line.now }
{
    line.starts_with(word) || line == &word[..word.len() - 1]
}

/// Whether there is a line that ends them.
pub(crate) fn has_end(header: &[u8]) -> bool
    requires { length header.now ≡ 1024 }
    ensures { result ≡ has_end header.now }
{
    let mut start = FIRST_LINE;
    for i in FIRST_LINE..header.len() {
        if header[i] == b'\n' {
            if &header[start..i] == END.as_slice() {
                return true;
            }
            start = i + 1;
        }
    }
    false
}

/// Whether a line before that states the rate as a floating-point number.
pub(crate) fn has_float(header: &[u8]) -> bool
    requires { length header.now ≡ 1024 }
    ensures { result ≡ has_float header.now }
{
    let mut start = FIRST_LINE;
    for i in FIRST_LINE..header.len() {
        if header[i] == b'\n' {
            if &header[start..i] == END.as_slice() {
                return false;
            }
            if header[start..i].starts_with(b"sample_rate -r ") {
                return true;
            }
            start = i + 1;
        }
    }
    false
}

/// The line with a name, of which the word is the name and a space. A second one is refused as BadField.
pub(crate) fn find_line(header: &[u8], word: &[u8]) -> Result<Option<Line>, OpenRefusal>
    requires whole { length header.now ≡ 1024 }
    requires some { 1 ≤ length word.now }
    ensures line { found header.now result ≡ only (named word.now header.now) }
    ensures within { IfOk result (λ l. IfSome l (StandsBefore 1024)) }
{
    let mut line = None;
    let mut start = FIRST_LINE;
    for i in FIRST_LINE..header.len() {
        if header[i] == b'\n' {
            if &header[start..i] == END.as_slice() {
                return Ok(line);
            }
            if has_name(&header[start..i], word) {
                if line.is_some() {
                    return Err(OpenRefusal::BadField);
                }
                line = Some(Line { at: start, end: i });
            }
            start = i + 1;
        }
    }
    Ok(line)
}
