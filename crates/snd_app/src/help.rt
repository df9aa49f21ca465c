//! The texts of `--help`, of `COMMAND --help` and of `--version`, in lines of at most 79 characters.

ghost use Rattle.std.specs.Prelude.{◌≡◌};
ghost use Rattle.snd_app.specs.Help.{convert_usage, deinterleave_usage, export_usage, import_usage, metadata_usage, usage, usage_of, version};

use snd_words::Topic;

const INFO: &str = "\
Usage: snd info NAME..
Prints of each file its kind, codec, channels, rate, frames and duration, and
then its metadata chunks and the texts of its INFO list.

Example: snd info take1.wav take2.wav
";

const CONVERT: &str = "\
Usage: snd convert [OPTION..] IN OUT
Makes OUT, or replaces it whole; its suffix names the kind.

  -pcmu8                    linear samples of 8 bits, unsigned
  -pcms8                    linear samples of 8 bits, signed
  -pcm16                    linear samples of 16 bits
  -pcm24                    linear samples of 24 bits
  -pcm32                    linear samples of 32 bits
  -ulaw                     G.711 mu-law
  -alaw                     G.711 A-law
  -ima-adpcm                IMA ADPCM, in WAVE and Wave64
  -ms-adpcm                 Microsoft ADPCM, in WAVE and Wave64
  -endian=little            the lowest byte of a sample first
  -endian=big               the highest byte of a sample first
  -override-sample-rate=N   a rate that OUT states; no sample changes
  -rack=SPEC                change the frames on the way

SPEC is 1 to 8 stages with commas between, which each frame passes in turn:
  gain:A/B                  multiply by A/B (A 0 to 65535, B 1 to 65535)
  invert                    turn the sign of each sample
  map:I.J..                 take the channels I, J .., counted from 0
  fade:N                    rise from silence over N frames

Example: snd convert -pcm24 take1.wav take1.au
";

const CONCAT: &str = "\
Usage: snd concat IN IN.. OUT
OUT takes kind, codec, channels and rate from the first IN, not from its suffix.

Example: snd concat take1.wav take2.wav both.wav
";

const INTERLEAVE: &str = "\
Usage: snd interleave IN IN.. -o OUT
OUT takes kind, codec and rate from the first IN, not from its suffix.

  -o OUT                    the file to make; it stands last

Example: snd interleave left.wav right.wav -o stereo.wav
";

const DEINTERLEAVE: &str = "\
Usage: snd deinterleave IN OUT..
Each OUT is the mono file of one channel of IN, in their order. It takes kind,
codec and rate from IN, not from its suffix.

Example: snd deinterleave stereo.wav left.wav right.wav
";

const SET_METADATA: &str = "\
Usage: snd metadata-set OPTION TEXT.. IN OUT
Each option takes the word after it as its text.

  --str-title               title, at most 1024 bytes, as the five below
  --str-artist              artist
  --str-comment             comment
  --str-copyright           copyright
  --str-date                date
  --str-album               album
  --bext-description        description, at most 256 bytes
  --bext-originator         originator, at most 32 bytes
  --bext-orig-ref           reference of the originator, at most 32 bytes
  --bext-orig-date          date of origin, at most 10 bytes
  --bext-orig-time          time of origin, at most 8 bytes
  --bext-time-ref           place on the time line, as a number of samples
  --bext-coding-hist        coding history, at most 1024 bytes

Example: snd metadata-set --str-title Dawn take1.wav dawn.wav
";

const GENERATE: &str = "\
Usage: snd gen SEED N NAME
The same SEED (0 to 4294967295) and N (1 to 10000000) make the same WAVE file.

Example: snd gen 0 44100 noise.wav
";

const IMPORT: &str = "\
Usage: snd import raw CODEC N N IN OUT
       snd import vox N IN OUT
       snd import pvf IN OUT
Makes OUT, or replaces it whole; its suffix names the kind.

  raw CODEC N N             samples without a head: their codec, channels, rate
  vox N                     Dialogic VOX, one channel of 16 bits: its rate
  pvf                       PVF, whose head says all

CODEC is one of these:
  pcm_u8 pcm_s8 pcm_16_le pcm_16_be pcm_24_le pcm_24_be pcm_32_le pcm_32_be
  ulaw alaw

Example: snd import raw pcm_16_le 2 48000 take1.raw take1.wav
";

const EXPORT: &str = "\
Usage: snd export raw IN OUT
       snd export vox IN OUT
       snd export pvf IN OUT
Makes OUT, or replaces it whole, under any name.

  raw                       samples in the codec of IN; of ADPCM pcm_16_le
  vox                       Dialogic VOX, of one channel
  pvf                       PVF of 8, 16 or 32 bits

Example: snd export raw take1.wav take1.raw
";

const SALVAGE: &str = "\
Usage: snd salvage IN OUT
OUT is a WAVE file of all frames behind the first format and the first data
behind it in IN, whatever the sizes in its head say.

Example: snd salvage broken.wav saved.wav
";

const SCRIPT: &str = "\
Usage: snd script
       snd script --auto NAME
One command stands on each line, and each is answered before the next is read.

  --auto NAME               keep this file open, and up to date after each line

Example: printf 'open r take1.wav\\nread 2\\n' | snd script
";

const USAGE: &str = "\
Usage: snd COMMAND

  snd info NAME..                        describe 1 to 64 sound files
  snd convert [OPTION..] IN OUT          copy into another container or codec
  snd concat IN IN.. OUT                 join 2 to 64 files, one after the other
  snd interleave IN IN.. -o OUT          join 2 to 64 mono files, as channels
  snd deinterleave IN OUT..              split channels into 1 to 64 mono files
  snd metadata-set OPTION TEXT.. IN OUT  copy WAVE or RF64 with other texts
  snd gen SEED N NAME                    make a file of N frames, and edit it
  snd import raw CODEC N N IN OUT        make a file of samples without a head
  snd import vox N IN OUT                make a file of Dialogic VOX
  snd import pvf IN OUT                  make a file of PVF
  snd export raw IN OUT                  write the samples without a head
  snd export vox IN OUT                  write Dialogic VOX
  snd export pvf IN OUT                  write PVF
  snd salvage IN OUT                     rescue the sound of a damaged file
  snd script                             carry out commands on standard input
  snd script --auto NAME                 the same, with a file kept up to date
  snd COMMAND --help                     print what one command takes
  snd --help                             print this text
  snd --version                          print the version

Options of convert: -pcmu8 -pcms8 -pcm16 -pcm24 -pcm32
    -ulaw -alaw -ima-adpcm -ms-adpcm
    -endian=little -endian=big -override-sample-rate=N -rack=SPEC

Options of metadata-set: --str-title --str-artist --str-comment --str-copyright
    --str-date --str-album --bext-description --bext-originator
    --bext-orig-ref --bext-orig-date --bext-orig-time
    --bext-time-ref --bext-coding-hist

Options stand before the names, each of them once at most.
Suffixes of OUT: wav rf64 w64 au snd voc svx 8svx nist sph
Kinds: wave rf64 w64 au dns voc svx sphere
Codecs: pcm_u8 pcm_s8 pcm_16_le pcm_16_be pcm_24_le pcm_24_be pcm_32_le
        pcm_32_be ulaw alaw ima ms
Names: 1 to 255 printable ASCII characters, no space; no leading - here

The manual page tells more: man snd, or man -l docs/snd.1
";

/// What `--help` prints.
pub fn usage() -> &'static str
    ensures { result.now ≡ usage }
{
    USAGE
}

/// What `--version` prints.
pub fn version() -> &'static str
    ensures { result.now ≡ version }
{
    "snd 0.1.0\n"
}

/// What `convert --help` prints.
fn convert_usage() -> &'static str
    ensures { result.now ≡ convert_usage }
{
    CONVERT
}

/// What `deinterleave --help` prints.
fn deinterleave_usage() -> &'static str
    ensures { result.now ≡ deinterleave_usage }
{
    DEINTERLEAVE
}

/// What `metadata-set --help` prints.
fn metadata_usage() -> &'static str
    ensures { result.now ≡ metadata_usage }
{
    SET_METADATA
}

/// What `import --help` prints.
fn import_usage() -> &'static str
    ensures { result.now ≡ import_usage }
{
    IMPORT
}

/// What `export --help` prints.
fn export_usage() -> &'static str
    ensures { result.now ≡ export_usage }
{
    EXPORT
}

/// What `COMMAND --help` prints of a command.
pub fn usage_of(topic: Topic) -> &'static str
    ensures { result.now ≡ usage_of topic }
{
    match topic {
        Topic::Info => INFO,
        Topic::Convert => convert_usage(),
        Topic::Concat => CONCAT,
        Topic::Interleave => INTERLEAVE,
        Topic::SetMetadata => metadata_usage(),
        Topic::Generate => GENERATE,
        Topic::Import => import_usage(),
        Topic::Export => export_usage(),
        Topic::Salvage => SALVAGE,
        Topic::Deinterleave => deinterleave_usage(),
        Topic::Script => SCRIPT,
    }
}
