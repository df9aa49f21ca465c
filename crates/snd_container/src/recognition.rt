//! Which kind a file is, by its first bytes.

ghost use Rattle.std.specs.Prelude.{◌≡◌};
ghost use Rattle.snd_container.specs.Recognised.{has_mark, holds_float_rate, is_form, recognised};

use snd_layout::{Kind, OpenRefusal};

/// Wave64's GUID for `riff`.
const RIFF_GUID: [u8; 16] = [
    0x72, 0x69, 0x66, 0x66, 0x2e, 0x91, 0xcf, 0x11, 0xa5, 0xd6, 0x28, 0xdb, 0x04, 0xc1, 0x00, 0x00,
];

/// Wave64's GUID for `wave`.
const WAVE_GUID: [u8; 16] = [
    0x77, 0x61, 0x76, 0x65, 0xf3, 0xac, 0xd3, 0x11, 0x8c, 0xd1, 0x00, 0xc0, 0x4f, 0x8e, 0xdb, 0x8a,
];

// Whether these bytes stand at a place.
fn has_mark(head: &[u8], at: usize, mark: &[u8]) -> bool
    ensures { result ≡ has_mark head.now at mark.now }
{
    match head.get(at..) {
        Some(rest) => rest.starts_with(mark),
        None => [].starts_with(mark),
    }
}

// Whether it is a form of chunks, by its first identifier and the one at 8.
fn is_form(head: &[u8], first: &[u8], form: &[u8]) -> bool
    ensures { result ≡ is_form head.now first.now form.now }
{
    has_mark(head, 0, first) && has_mark(head, 8, form)
}

/// The kind of a file, by its first 40 bytes or all there are. FloatRate comes for AIFF, AIFC and CAF
/// files, which hold the rate as a floating-point number, and NotSound for any others that are of no
/// kind.
#[tactic(auto, unfolding(crate::specs::Recognised::recognised))]
pub fn recognise(head: &[u8]) -> Result<Kind, OpenRefusal>
    ensures { result ≡ recognised head.now }
{
    if is_form(head, b"RIFF", b"WAVE") {
        Ok(Kind::Wave)
    } else if is_form(head, b"RF64", b"WAVE") {
        Ok(Kind::Rf64)
    } else if has_mark(head, 0, &RIFF_GUID) && has_mark(head, 24, &WAVE_GUID) {
        Ok(Kind::W64)
    } else if has_mark(head, 0, b".snd") {
        Ok(Kind::Au)
    } else if has_mark(head, 0, b"dns.") {
        Ok(Kind::Dns)
    } else if has_mark(head, 0, b"Creative Voice File\x1a") {
        Ok(Kind::Voc)
    } else if is_form(head, b"FORM", b"8SVX") {
        Ok(Kind::Svx)
    } else if has_mark(head, 0, b"NIST_1A\n") {
        Ok(Kind::Sphere)
    } else if holds_float_rate(head) {
        Err(OpenRefusal::FloatRate)
    } else {
        Err(OpenRefusal::NotSound)
    }
}

// Whether it is of a kind that holds the rate as a floating-point number.
fn holds_float_rate(head: &[u8]) -> bool
    ensures { result ≡ holds_float_rate head.now }
{
    is_form(head, b"FORM", b"AIFF") || is_form(head, b"FORM", b"AIFC") || has_mark(head, 0, b"caff")
}
