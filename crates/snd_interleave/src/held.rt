//! What the frames of inputs are held as while they pass.

ghost use Rattle.std.specs.Prelude.{◌≡◌, ℕ, ◌*◌, ◌<◌, ◌≤◌, ℤ, List, OnOk, length, refl, true};
ghost use Rattle.std.proofs.Common.{rules};
ghost use Rattle.snd_disk.specs.Device.{GoesOnFrom};
ghost use Rattle.snd_edits.specs.Bytes.{numbers_in};
ghost use Rattle.snd_file.specs.Handle.{channels_of, codec_of, disk_of, known_of, loan_of};
ghost use Rattle.snd_file.specs.Outcomes.{AsksNothing, TellsOn};
ghost use Rattle.snd_layout.specs.Blocks.{is_adpcm};
ghost use Rattle.snd_layout.specs.declared.codec.Codec.{Codec};
ghost use Rattle.snd_output.specs.Appended.{CountsFile, Gains, HasRoom, IsAtEnd, IsLonger};
ghost use Rattle.snd_output.specs.Ends.{BreaksByFault, CountsStop};
ghost use Rattle.snd_interleave.specs.Asking.{AsksInput, bytes_from};
ghost use Rattle.snd_interleave.specs.Beside.{HasChannel, HaveEach, KeepsChannels};
ghost use Rattle.snd_interleave.specs.Channels.{InputChanged, Reads, faults_of};
ghost use Rattle.snd_interleave.specs.Held.{FitsAnyway, FitsIn, SuitsAll, SuitsPairs, pairs_whole, themselves};
ghost use Rattle.snd_interleave.specs.Reading.{HasChannelOf};

use crate::numbers::{put_numbers, read_numbers};
use crate::pairs::{join_pairs, put_pairs, read_pairs};
use snd_disk::Disk;
use snd_file::File;
use snd_inputs::Input;
use snd_layout::Codec;
use snd_output::{Making, Stop, frames_first};
use std::alloc::Global;

/// What samples are held as: as numbers, or as the bytes that they are where no number has to change.
pub(crate) trait Held: Copy {
    // how many of these are one sample, and the most samples of a channel that are held at once
    ghost PER: { ℕ };

    ghost MOST: { ℕ };

    // the numbers that some are in a codec, which of a file that is made suit it, and of an input, and what each number is
    ghost numbers: { Codec → List Self → List ℤ };

    ghost suits: { Codec → Codec → Type 0 };

    ghost fits: { Codec → ℤ → Type 0 };

    const PER: usize;

    const MOST: usize;

    const ZERO: Self;

    /// Reads so many samples of an input from a frame on, with zeros behind its end, as those of a codec.
    fn read<D: Disk>(
        alloc: Global,
        input: &mut Input<D>,
        place: u64,
        count: usize,
        codec: Codec,
        into: &mut [Self],
    ) -> Result<(), Stop>
        requires mono { input.old.layout.params.channels ≡ 1 }
        requires served { suits codec input.old.layout.params.codec }
        requires size { length into.old ≡ PER * count }
        ensures read { OnOk result (HasChannelOf D.state input.old codec place count (numbers codec into.new)) }
        ensures in_range { OnOk result (HaveEach (fits codec) count (numbers codec into.new)) }
        ensures faults { CountsStop (faults_of D.state input.old) (faults_of D.state input.new) result }
        ensures changed { InputChanged D.state input.old result }
        ensures reads { Reads D.Disk input.old input.new }
        ensures asked { AsksInput D.state (bytes_from place count) input.old input.new };

    /// Puts so many samples into a block of as many frames, as one of their channels.
    fn put(from: &[Self], count: usize, channels: usize, which: usize, block: &mut [Self])
        requires within { which < channels }
        requires size { length from.now ≡ PER * count }
        requires room { length block.old ≡ PER * (count * channels) }
        ensures put { (codec : Codec) → suits codec codec →
            HasChannel channels which count (numbers codec from.now) (numbers codec block.new) }
        ensures others { (codec : Codec) → suits codec codec →
            KeepsChannels channels which count (numbers codec block.old) (numbers codec block.new) };

    /// Puts so many samples of two channels into a block of frames of both.
    fn join(left: &[Self], right: &[Self], count: usize, block: &mut [Self])
        requires size { length left.now ≡ PER * count }
        requires alike { length right.now ≡ PER * count }
        requires room { length block.old ≡ PER * (count * 2) }
        ensures left { (codec : Codec) → suits codec codec →
            HasChannel 2 0 count (numbers codec left.now) (numbers codec block.new) }
        ensures right { (codec : Codec) → suits codec codec →
            HasChannel 2 1 count (numbers codec right.now) (numbers codec block.new) };

    /// How many samples a block of so many frames has.
    fn are_counted(block: &[Self], count: usize, channels: usize)
        requires { length block.now ≡ PER * (count * channels) }
        ensures { (codec : Codec) → suits codec codec → length (numbers codec block.now) ≡ count * channels };

    /// How many frames are best put first behind those of a file, of the most.
    fn count_first<E: Disk, M: Making>(to: &File<'_, E, M>) -> usize
        requires { suits (codec_of to.now) (codec_of to.now) }
        ensures some { 1 ≤ result }
        ensures few { result ≤ MOST }
        ensures whole { (own : Codec) → suits (codec_of to.now) own → is_adpcm own ≡ true → result ≡ 16384 };

    /// Gives a file that is made so many frames. `Fault` where a call of its disk failed.
    fn give<E: Disk, M: Making>(
        to: &mut File<'_, E, M>,
        count: usize,
        block: &[Self],
    ) -> Result<(), Stop>
        requires served { suits (codec_of to.old) (codec_of to.old) }
        requires size { length block.now ≡ PER * (count * channels_of to.old) }
        requires at_end { IsAtEnd (known_of to.old) }
        requires room { HasRoom count (known_of to.old) }
        requires in_range { HaveEach (fits (codec_of to.old)) (count * channels_of to.old)
            (numbers (codec_of to.old) block.now) }
        ensures loan { loan_of to.new ≡ loan_of to.old }
        ensures left { OnOk result (IsLonger count (known_of to.old) (known_of to.new)) }
        ensures works { BreaksByFault (known_of to.new) result }
        ensures gains { OnOk result (Gains E.state (numbers (codec_of to.old) block.now) to.old to.new) }
        ensures faults { CountsFile E.state to.old to.new result }
        ensures tells { TellsOn E.state to.old to.new }
        ensures time { GoesOnFrom E.state E.left_between (disk_of to.old) (disk_of to.new) }
        ensures asked { AsksNothing E.state to.old to.new };

    ghost whole: { (codec own : Codec) → suits codec own → is_adpcm own ≡ true → MOST ≡ 16384 };

    ghost some: { 1 ≤ MOST };

    ghost few: { MOST ≤ 16384 };

    ghost small: { PER ≤ 2 };
}

impl Held for i32 {
    ghost PER = { 1 };

    ghost MOST = { 16384 };

    ghost numbers = { themselves };

    ghost suits = { SuitsAll };

    ghost fits = { FitsIn };

    const PER: usize = 1;

    const MOST: usize = 16384;

    const ZERO: i32 = 0;

    fn read<D: Disk>(
        alloc: Global,
        input: &mut Input<D>,
        place: u64,
        _count: usize,
        codec: Codec,
        into: &mut [i32],
    ) -> Result<(), Stop> {
        read_numbers(alloc, input, place, codec, into)
    }

    fn put(from: &[i32], _count: usize, channels: usize, which: usize, block: &mut [i32]) {
        put_numbers(from, channels, which, block);
    }

    fn join(left: &[i32], right: &[i32], _count: usize, block: &mut [i32]) {
        put_numbers(left, 2, 0, block);
        put_numbers(right, 2, 1, block);
    }

    fn are_counted(_block: &[i32], _count: usize, _channels: usize) {}

    fn count_first<E: Disk, M: Making>(_to: &File<'_, E, M>) -> usize {
        Self::MOST
    }

    fn give<E: Disk, M: Making>(
        to: &mut File<'_, E, M>,
        _count: usize,
        block: &[i32],
    ) -> Result<(), Stop> {
        to.params().are_good();
        M::give(to, block)
    }

    ghost whole = { λ codec own suits blocks. refl };

    ghost some = { Prim.search rules };

    ghost few = { Prim.search rules };

    ghost small = { Prim.search rules };
}

impl Held for u8 {
    ghost PER = { 2 };

    ghost MOST = { 8192 };

    ghost numbers = { numbers_in };

    ghost suits = { SuitsPairs };

    ghost fits = { FitsAnyway };

    const PER: usize = 2;

    const MOST: usize = 8192;

    const ZERO: u8 = 0;

    fn read<D: Disk>(
        _alloc: Global,
        input: &mut Input<D>,
        place: u64,
        _count: usize,
        _codec: Codec,
        into: &mut [u8],
    ) -> Result<(), Stop> {
        read_pairs(input, place, into)
    }

    fn put(from: &[u8], _count: usize, channels: usize, which: usize, block: &mut [u8]) {
        put_pairs(from, channels, which, block);
    }

    fn join(left: &[u8], right: &[u8], _count: usize, block: &mut [u8]) {
        join_pairs(left, right, block);
    }

    fn are_counted(_block: &[u8], _count: usize, _channels: usize) {}

    fn count_first<E: Disk, M: Making>(to: &File<'_, E, M>) -> usize {
        frames_first(to, Self::MOST)
    }

    fn give<E: Disk, M: Making>(
        to: &mut File<'_, E, M>,
        _count: usize,
        block: &[u8],
    ) -> Result<(), Stop> {
        to.params().are_good();
        M::give_bytes(to, block)
    }

    ghost whole = { pairs_whole };

    ghost some = { Prim.search rules };

    ghost few = { Prim.search rules };

    ghost small = { Prim.search rules };
}
