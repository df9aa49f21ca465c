//! What a header says.

ghost use Rattle.std.specs.Prelude.{◌≡◌, ◌+◌, ◌≤◌, ◌<◌, IfOk, IfSome, length};
ghost use Rattle.snd_sphere.specs.Layout.{channels_of, coding_by, coding_text, count_of, fields_of, front_refusal, has_mark, heading_of, order_by, order_text};
ghost use Rattle.snd_sphere.specs.Lines.{named, number_of, only};

use crate::heading::{Coding, Heading};
use crate::line::Line;
use crate::lines::{find_line, has_end, has_float};
use crate::stated::Stated;
use crate::texts::{number_in, text_in};
use snd_fields::Order;
use snd_layout::OpenRefusal;

/// The greatest number of the channels, the rate and the bytes of a sample, as far as their form goes.
const MOST: u64 = u32::MAX as u64;

/// The size of the header, as its second line states it.
const MARK: [u8; 8] = *b"   1024\n";

/// The number of the line with a name, of which the word is the name and a space. The line begins with
/// some bytes and goes on with digits: 1 to 18, and no number above `most`. BadField comes where it has
/// another form, or there are two.
pub(crate) fn find_number(
    header: &[u8],
    word: &[u8],
    front: &[u8],
    most: u64,
) -> Result<Option<Stated>, OpenRefusal>
    requires whole { length header.now ≡ 1024 }
    requires some { 1 ≤ length word.now }
    requires few { length front.now ≤ 64 }
    ensures value { result ≡ number_of front.now most (only (named word.now header.now)) }
    ensures within { IfOk result (λ s. IfSome s (λ n. n.at + n.size ≤ 1024)) }
    ensures digits { IfOk result (λ s. IfSome s (λ n. (1 ≤ n.size) × (n.size ≤ 18))) }
{
    let Some(line) = find_line(header, word)? else {
        return Ok(None);
    };
    let text = &header[line.at..line.end];
    let Some(value) = number_in(text, front, most) else {
        return Err(OpenRefusal::BadField);
    };
    Ok(Some(Stated {
        value,
        at: (line.at + front.len()) as u64,
        size: (text.len() - front.len()) as u8,
    }))
}

/// The count of the samples of a channel.
pub(crate) fn find_count(header: &[u8]) -> Result<Option<Stated>, OpenRefusal>
    requires whole { length header.now ≡ 1024 }
    ensures value { result ≡ count_of header.now }
    ensures within { IfOk result (λ s. IfSome s (λ n. n.at + n.size ≤ 1024)) }
    ensures digits { IfOk result (λ s. IfSome s (λ n. (1 ≤ n.size) × (n.size ≤ 18))) }
{
    find_number(header, b"sample_count ", b"sample_count -i ", (1 << 63) - 1)
}

fn order_by(text: &[u8]) -> Option<Order>
    ensures { result ≡ order_by text.now }
{
    if text == b"01".as_slice() {
        Some(Order::Little)
    } else if text == b"10".as_slice() {
        Some(Order::Big)
    } else {
        None
    }
}

fn coding_by(text: &[u8]) -> Coding
    ensures { result ≡ coding_by text.now }
{
    if text == b"pcm".as_slice() {
        Coding::Pcm
    } else if text == b"ulaw".as_slice() || text == b"mu-law".as_slice() {
        Coding::MuLaw
    } else if text == b"alaw".as_slice() {
        Coding::ALaw
    } else {
        Coding::Other
    }
}

// Which byte of a sample comes first.
fn find_order(header: &[u8]) -> Result<Option<Order>, OpenRefusal>
    requires { length header.now ≡ 1024 }
    ensures { result ≡ order_text header.now }
{
    let Some(line) = find_line(header, b"sample_byte_format ")? else {
        return Ok(None);
    };
    match text_in(&header[line.at..line.end], b"sample_byte_format -s") {
        Some(text) => Ok(order_by(text)),
        None => Err(OpenRefusal::BadField),
    }
}

fn find_coding(header: &[u8]) -> Result<Coding, OpenRefusal>
    requires { length header.now ≡ 1024 }
    ensures { result ≡ coding_text header.now }
{
    let Some(line) = find_line(header, b"sample_coding ")? else {
        return Ok(Coding::Pcm);
    };
    match text_in(&header[line.at..line.end], b"sample_coding -s") {
        Some(text) => Ok(coding_by(text)),
        None => Err(OpenRefusal::BadField),
    }
}

// The lines that are read, but for the count.
fn find_fields(header: &[u8]) -> Result<Heading, OpenRefusal>
    requires { length header.now ≡ 1024 }
    ensures { result ≡ fields_of header.now }
{
    let channels = find_number(header, b"channel_count ", b"channel_count -i ", MOST)?;
    let rate = find_number(header, b"sample_rate ", b"sample_rate -i ", MOST)?;
    let width = find_number(header, b"sample_n_bytes ", b"sample_n_bytes -i ", MOST)?;
    let order = find_order(header)?;
    let coding = find_coding(header)?;
    if coding == Coding::Pcm && order.is_none() {
        return Err(OpenRefusal::BadField);
    }
    Ok(Heading {
        channels,
        rate,
        width,
        order,
        coding,
    })
}

// Why a header is refused before a name is looked for.
fn refused_front(header: &[u8]) -> Option<OpenRefusal>
    requires { length header.now ≡ 1024 }
    ensures { result ≡ front_refusal header.now }
{
    if !has_end(header) {
        return Some(OpenRefusal::BadField);
    }
    if has_float(header) {
        return Some(OpenRefusal::FloatRate);
    }
    if &header[8..16] != MARK.as_slice() {
        return Some(OpenRefusal::BadField);
    }
    None
}

/// What a header says, without its count, or why it is refused.
#[tactic(auto, unfolding(crate::specs::Layout::heading_of))]
pub(crate) fn read_heading(header: &[u8]) -> Result<Heading, OpenRefusal>
    requires { length header.now ≡ 1024 }
    ensures { result ≡ heading_of header.now }
{
    match refused_front(header) {
        Some(refusal) => Err(refusal),
        None => find_fields(header),
    }
}
