//! Text that is gathered before it is put, in a buffer that takes no memory.

ghost use Rattle.std.specs.Prelude.{◌≡◌, ◌+◌, ◌*◌, ◌≤◌, ◌∷◌, ◌++◌, length, decimal};
ghost use Rattle.std.specs.Fmt.{signed_decimal};
ghost use Rattle.snd_layout.specs.Names.{codec_name, kind_name};
ghost use Rattle.snd_rules.specs.Replies.{described, error_line, frame_line, ok_line, spaced, counts_text};
ghost use Rattle.snd_lines.specs.Refusals.{refusal_name};
ghost use Rattle.snd_meters.specs.Report.{report_line};
ghost use Rattle.snd_taps.specs.Names.{tap_name};

use arrayvec::ArrayVec;
use itoa::Buffer;
use snd_layout::{Codec, Kind, Params};
use snd_lines::Refusal;
use snd_taps::{TapKind, TapState};

/// Appends a text.
#[inline]
pub fn push_text<const N: usize>(page: &mut ArrayVec<u8, N>, text: &[u8])
    requires { length page.old.items + length text.now ≤ N }
    ensures { page.new.items ≡ page.old.items ++ text.now }
{
    page.try_extend_from_slice(text).unwrap();
}

/// Appends a number's decimal digits.
pub fn push_number<const N: usize>(page: &mut ArrayVec<u8, N>, number: u64)
    requires { length page.old.items + 20 ≤ N }
    ensures text { page.new.items ≡ page.old.items ++ decimal number }
    ensures count { length page.new.items ≤ length page.old.items + 20 }
{
    push_text(page, Buffer::new().format(number).as_bytes());
}

/// Appends a sample's decimal digits, behind a sign where it is negative.
#[inline]
fn push_signed<const N: usize>(page: &mut ArrayVec<u8, N>, sample: i32)
    requires { length page.old.items + 11 ≤ N }
    ensures text { page.new.items ≡ page.old.items ++ signed_decimal sample }
    ensures count { length page.new.items ≤ length page.old.items + 11 }
{
    push_text(page, Buffer::new().format(sample).as_bytes());
}

/// Appends a space and a sample.
#[inline]
fn push_spaced<const N: usize>(page: &mut ArrayVec<u8, N>, sample: i32)
    requires { length page.old.items + 12 ≤ N }
    ensures text { page.new.items ≡ page.old.items ++ spaced sample }
    ensures count { length page.new.items ≤ length page.old.items + 12 }
{
    page.push(b' ');
    push_signed(page, sample);
}

/// Appends the line of a frame: its numbers, with a space between them.
pub fn push_frame<const N: usize>(page: &mut ArrayVec<u8, N>, frame: &[i32])
    requires { length page.old.items + 12 * length frame.now + 1 ≤ N }
    ensures { page.new.items ≡ page.old.items ++ frame_line frame.now }
{
    if let Some((first, rest)) = frame.split_first() {
        push_signed(page, *first);
        for number in rest {
            push_spaced(page, *number);
        }
    }
    page.push(b'\n');
}

/// Appends the line of a command that was carried out, with a number.
pub fn push_ok<const N: usize>(page: &mut ArrayVec<u8, N>, number: u64)
    requires { length page.old.items + 24 ≤ N }
    ensures text { page.new.items ≡ page.old.items ++ ok_line number }
    ensures count { length page.new.items ≤ length page.old.items + 24 }
{
    push_text(page, b"ok ");
    push_number(page, number);
    page.push(b'\n');
}

/// The word of a refusal.
#[tactic(auto, using(crate::proofs::Names::short_refusal))]
fn refusal_word(refusal: Refusal) -> &'static [u8]
    ensures word { result.now ≡ refusal_name refusal }
    ensures short { length result.now ≤ 16 }
{
    refusal.name().as_bytes()
}

/// The word of a kind.
#[tactic(auto, using(crate::proofs::Names::short_kind))]
fn kind_word(kind: Kind) -> &'static [u8]
    ensures word { result.now ≡ kind_name kind }
    ensures short { length result.now ≤ 16 }
{
    kind.name().as_bytes()
}

/// The word of a codec.
#[tactic(auto, using(crate::proofs::Names::short_codec))]
fn codec_word(codec: Codec) -> &'static [u8]
    ensures word { result.now ≡ codec_name codec }
    ensures short { length result.now ≤ 16 }
{
    codec.name().as_bytes()
}

/// Appends the line of a refusal.
pub fn push_error<const N: usize>(page: &mut ArrayVec<u8, N>, refusal: Refusal)
    requires { length page.old.items + 64 ≤ N }
    ensures { page.new.items ≡ page.old.items ++ error_line refusal }
{
    push_text(page, b"error ");
    push_number(page, u64::from(refusal.number()));
    page.push(b' ');
    push_text(page, refusal_word(refusal));
    page.push(b'\n');
}

/// Appends the numbers of a file's line, each with a space behind it.
fn push_counts<const N: usize>(page: &mut ArrayVec<u8, N>, frames: u64, params: Params)
    requires { length page.old.items + 63 ≤ N }
    ensures text { page.new.items ≡ page.old.items ++ counts_text frames params }
    ensures count { length page.new.items ≤ length page.old.items + 63 }
{
    push_number(page, frames);
    page.push(b' ');
    push_number(page, u64::from(params.channels));
    page.push(b' ');
    push_number(page, u64::from(params.rate));
    page.push(b' ');
}

/// Appends the line that tells of a file.
pub fn push_file<const N: usize>(
    page: &mut ArrayVec<u8, N>,
    frames: u64,
    params: Params,
    kind: Kind,
)
    requires { length page.old.items + 128 ≤ N }
    ensures { page.new.items ≡ page.old.items ++ described frames params kind }
{
    push_text(page, b"ok ");
    push_counts(page, frames, params);
    push_text(page, kind_word(kind));
    page.push(b' ');
    push_text(page, codec_word(params.codec));
    page.push(b'\n');
}

/// The word of a kind of tap.
#[tactic(auto, using(crate::proofs::Names::short_tap))]
fn tap_word(kind: TapKind) -> &'static [u8]
    ensures word { result.now ≡ tap_name kind }
    ensures short { length result.now ≤ 6 }
{
    kind.name().as_bytes()
}

/// Appends the report of a tap.
pub fn push_report<const N: usize>(page: &mut ArrayVec<u8, N>, kind: TapKind, state: TapState)
    requires { length page.old.items + 72 ≤ N }
    ensures { page.new.items ≡ page.old.items ++ report_line kind state }
{
    push_text(page, b"ok ");
    push_text(page, tap_word(kind));
    page.push(b' ');
    push_number(page, state.frames);
    page.push(b' ');
    push_text(page, Buffer::new().format(state.value).as_bytes());
    page.push(b'\n');
}
