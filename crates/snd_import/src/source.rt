//! What a file holds that is imported, by its length and its head.

ghost use Rattle.std.specs.Prelude.{◌≡◌, ◌<◌, ◌≤◌, ◌^◌, IfOk, false};
ghost use Rattle.snd_disk.specs.Device.{AsksAtMost, IfOkTold, OnlyReadsOn};
ghost use Rattle.snd_layout.specs.Blocks.{is_adpcm};
ghost use Rattle.snd_output.specs.Ends.{CountsStop, IsUnchanged};
ghost use Rattle.snd_pvf.specs.Pvf.{pvf_head};
ghost use Rattle.snd_words.specs.Asked.{IsImport};
ghost use Rattle.snd_import.specs.Import.{raw_source, samples_at, source_in, vox_source};
ghost use Rattle.snd_import.specs.Source.{IsHeld};

use snd_disk::{Disk, Failed};
use snd_fields::Order;
use snd_layout::{Codec, OpenRefusal, Params};
use snd_output::Stop;
use snd_pvf::{Head, read_head};
use snd_words::ImportForm;

/// How many bytes of a PVF file may be its head.
const MOST_HEAD: usize = 64;

/// How the bytes of a file hold its numbers.
#[derive(Clone, Copy, Debug, PartialEq, Eq)]
pub(crate) enum Coding {
    /// As samples of the codec, one after the other.
    Samples,
    /// As Dialogic's codes, two a byte.
    Codes,
}

/// What a file holds: whole frames, from a place on.
#[derive(Clone, Copy, Debug, PartialEq, Eq)]
pub(crate) struct Source {
    /// The channels and the rate, and the codec in whose width the numbers are.
    pub(crate) params: Params,
    pub(crate) coding: Coding,
    /// The place of the first data byte.
    pub(crate) start: u64,
    /// How many whole frames there are.
    pub(crate) frames: u64,
}

// The whole frames of samples from a place on, in a file of so many bytes.
fn samples_at(start: u64, size: u64, params: Params) -> Source
    requires fixed { is_adpcm params.codec ≡ false }
    requires within { start ≤ size }
    ensures value { result ≡ samples_at start size params }
    ensures held { IsHeld size result }
{
    params.are_good();
    Source {
        params,
        coding: Coding::Samples,
        start,
        frames: (size - start) / u64::from(params.block_align()),
    }
}

// The samples of a file of so many bytes that has no head.
fn raw_source(codec: Codec, channels: u64, rate: u64, size: u64) -> Result<Source, OpenRefusal>
    requires plain { is_adpcm codec ≡ false }
    ensures value { result ≡ raw_source codec channels rate size }
    ensures held { IfOk result (IsHeld size) }
{
    let params = Params::new(channels, rate, codec)?;
    Ok(samples_at(0, size, params))
}

// The frames of a VOX file of so many bytes.
fn vox_source(rate: u64, size: u64) -> Result<Source, OpenRefusal>
    requires { size < 2 ^ 63 }
    ensures value { result ≡ vox_source rate size }
    ensures held { IfOk result (IsHeld size) }
{
    let params = Params::new(1, rate, Codec::S16(Order::Little))?;
    Ok(Source {
        params,
        coding: Coding::Codes,
        start: 0,
        frames: 2 * size,
    })
}

// What the head of the PVF file on a disk says, or why it says nothing.
fn head_on<D: Disk>(disk: &mut D) -> Result<Result<Head, OpenRefusal>, Stop>
    ensures found { IfOkTold D.state disk.old result (λ b found. found ≡ pvf_head b) }
    ensures within { IfOk result (λ found. IfOk found (λ h. h.start ≤ (D.state disk.old).size)) }
    ensures fixed { IfOk result (λ found. IfOk found (λ h. is_adpcm h.params.codec ≡ false)) }
    ensures faults { CountsStop (D.state disk.old).faults (D.state disk.new).faults result }
    ensures unchanged { IsUnchanged result }
    ensures reads { OnlyReadsOn D.state D.may_leave D.left_between disk.old disk.new }
    ensures asked { AsksAtMost D.state 64 disk.old disk.new }
{
    let mut front = [0u8; MOST_HEAD];
    match disk.read_at(0, &mut front) {
        Ok(count) => Ok(read_head(&front[..count])),
        Err(Failed) => Err(Stop::Fault),
    }
}

// The length of the file on a disk.
fn size_on<D: Disk>(disk: &mut D) -> Result<u64, Stop>
    ensures value { IfOk result (λ n. n ≡ (D.state disk.old).size) }
    ensures faults { CountsStop (D.state disk.old).faults (D.state disk.new).faults result }
    ensures unchanged { IsUnchanged result }
    ensures reads { OnlyReadsOn D.state D.may_leave D.left_between disk.old disk.new }
    ensures unasked { (D.state disk.new).asked ≡ (D.state disk.old).asked }
{
    match disk.len() {
        Ok(size) => Ok(size),
        Err(Failed) => Err(Stop::Fault),
    }
}

/// What the file on a disk holds in a form, or why it is refused. Nothing but the head of a PVF file is read, of
/// which it asks 64 bytes.
///
/// `Fault` where a call of the disk failed.
pub(crate) fn source_on<D: Disk>(
    form: ImportForm,
    disk: &mut D,
) -> Result<Result<Source, OpenRefusal>, Stop>
    requires asked { IsImport form }
    ensures found { IfOkTold D.state disk.old result (λ b found. found ≡ source_in form b) }
    ensures held { IfOk result (λ found. IfOk found (IsHeld (D.state disk.old).size)) }
    ensures faults { CountsStop (D.state disk.old).faults (D.state disk.new).faults result }
    ensures unchanged { IsUnchanged result }
    ensures reads { OnlyReadsOn D.state D.may_leave D.left_between disk.old disk.new }
    ensures asked { AsksAtMost D.state 64 disk.old disk.new }
{
    let size = size_on(disk)?;
    match form {
        ImportForm::Raw {
            codec,
            channels,
            rate,
        } => Ok(raw_source(codec, channels, rate, size)),
        ImportForm::Vox { rate } => Ok(vox_source(rate, size)),
        ImportForm::Pvf => match head_on(disk)? {
            Ok(head) => Ok(Ok(samples_at(head.start, size, head.params))),
            Err(why) => Ok(Err(why)),
        },
    }
}
