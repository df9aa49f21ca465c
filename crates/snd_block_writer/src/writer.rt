//! A writer of blocks.

ghost use Rattle.std.specs.Prelude.{◌≡◌, ◌+◌, ◌<◌, ◌≤◌, ◌^◌, All, OnOk, [], length, true};
ghost use Rattle.snd_ima_adpcm.specs.Frames.{Is16Bit};
ghost use Rattle.snd_disk.specs.Device.{CountsOn, WritesAtMost};
ghost use Rattle.snd_layout.specs.Blocks.{is_adpcm};
ghost use Rattle.snd_blocks.specs.Calls.{AreBlocks};
ghost use Rattle.snd_block_writer.specs.Calls.{FillsUp, HoldsAll, HoldsMore, PutsBlocks, TakesMore, WritesBlocks, WritesForFrames};
ghost use Rattle.snd_block_writer.specs.Coded.{block_numbers};
ghost use Rattle.snd_block_writer.specs.Writing.{IsOneOrFour, IsPart, KeepsRule, StandsFor, block_end, block_size, given_more, next_place, padding, place_after};

use crate::block::{encode_blocks, fill_up, put_block, write_bytes};
use arrayvec::ArrayVec;
use snd_blocks::is_fourfold;
use snd_disk::{Disk, Step};
use snd_ima_adpcm::ImaWriter;
use snd_layout::Params;
use std::marker::Model;

/// What holds of the blocks of good parameters of one or two channels.
#[tactic(auto, using(crate::proofs::Parameters::are_blocks))]
pub fn are_blocks(params: &Params)
    requires few { params.now.channels ≤ 2 }
    requires blocks { is_adpcm params.now.codec ≡ true }
    ensures { AreBlocks params.now }
{
    params.are_good();
}

/// A writer of the frames of an ADPCM file, from front to back. Blocks reach the disk whole: the numbers of
/// the last one wait until it is, or until `finish` fills it with zeros.
///
/// A contract sees it as a `Writing`, and speaks of all numbers that it was given by `StandsFor`. Once a
/// call of the disk has failed it stands for none.
#[derive(Drop)]
pub struct BlockWriter {
    params: Params,
    // how many blocks are written
    blocks: u64,
    // carries IMA's indices from block to block; Microsoft's codec leaves it as it is
    ima: ImaWriter,
    // the numbers of the block that is not whole yet
    waiting: ArrayVec<i32, 16384>,
    // where the bytes of a block are made
    bytes: ArrayVec<u8, 8192>,
}

impl Model for BlockWriter {
    ghost use Rattle.snd_block_writer.specs.Writing.{KeepsRule, Writing};

    ghost Value = { Writing };

    ghost view = { λ w. record { params = w.params; blocks = w.blocks; indices = w.ima; waiting = w.waiting.items } };

    ghost invariant = { λ w. KeepsRule (record { params = w.params; blocks = w.blocks; indices = w.ima; waiting = w.waiting.items }) };
}

impl BlockWriter {
    /// A writer that was given nothing.
    pub fn new(params: Params) -> BlockWriter
        requires { AreBlocks params }
        ensures { StandsFor result params [] }
    {
        BlockWriter {
            params,
            blocks: 0,
            ima: ImaWriter::new(),
            waiting: ArrayVec::new(),
            bytes: ArrayVec::new(),
        }
    }

    /// What holds of every writer.
    pub fn keeps_rule(&self)
        ensures { KeepsRule self.now }
    {
        let _ = &self.params;
    }

    /// How many blocks are written.
    pub fn blocks(&self) -> u64
        ensures { result ≡ self.now.blocks }
    {
        self.blocks
    }

    /// How many numbers wait for their block to become whole.
    pub fn waiting(&self) -> usize
        ensures value { result ≡ length self.now.waiting }
        ensures few { result < block_numbers self.now.params }
    {
        self.waiting.len()
    }

    // The numbers of a block.
    fn block_numbers(&self) -> usize
        ensures value { result ≡ block_numbers self.now.params }
        ensures most { result ≤ 16384 }
    {
        usize::from(self.params.channels) * usize::from(self.params.block_frames())
    }

    // How many numbers the block that is not whole yet still takes.
    fn room(&self) -> usize
        ensures room { result + length self.now.waiting ≡ block_numbers self.now.params }
        ensures some { 1 ≤ result }
    {
        self.block_numbers() - self.waiting.len()
    }

    /// The place of the next block, in a file whose data begin at a place.
    pub fn next_place(&self, start: u64) -> u64
        requires { next_place start self.now < 2 ^ 63 }
        ensures { result ≡ next_place start self.now }
    {
        start + self.blocks * u64::from(self.params.block_align())
    }

    // How many of so many numbers are taken at once: those of four blocks, where these are made together and none
    // wait; else as many as the block that is not whole yet still takes.
    fn next_part(&self, left: usize) -> usize
        requires { 1 ≤ left }
        ensures some { 1 ≤ result }
        ensures most { result ≤ left }
        ensures part { IsPart self.now result }
    {
        let four = 4 * self.block_numbers();
        if self.waiting.is_empty() && four <= left && is_fourfold(&self.params) {
            return four;
        }
        self.room().min(left)
    }

    // Takes the numbers of one whole block, or of four, where none wait, and writes these.
    fn take_blocks<D: Disk>(&mut self, disk: &mut D, start: u64, part: &[i32]) -> Result<(), Step>
        requires none { self.old.waiting ≡ [] }
        requires whole { IsOneOrFour self.old.params (length part.now) }
        requires range { All Is16Bit part.now }
        requires there { next_place start self.old ≤ (D.state disk.old).size }
        requires fits { place_after start self.old (length part.now) < 2 ^ 63 }
        ensures takes { OnOk result (self.new ≡ given_more self.old part.now) }
        ensures params { self.new.params ≡ self.old.params }
        ensures there { next_place start self.new ≤ (D.state disk.new).size }
        ensures done { OnOk result (WritesBlocks D.state start part.now self.old disk.old disk.new) }
        ensures puts { PutsBlocks D.Disk start part.now self.old disk.old disk.new }
        ensures faults { CountsOn D.state disk.old disk.new result }
    {
        let at = self.next_place(start);
        let count = encode_blocks(self.params, &mut self.ima, part, &mut self.bytes);
        write_bytes(disk, at, self.bytes.as_slice())?;
        self.blocks += count;
        Ok(())
    }

    // Takes numbers, as many as `next_part` says or fewer, and writes the blocks that are whole then.
    fn take_part<D: Disk>(&mut self, disk: &mut D, start: u64, part: &[i32]) -> Result<(), Step>
        requires part { IsPart self.old (length part.now) }
        requires range { All Is16Bit part.now }
        requires there { next_place start self.old ≤ (D.state disk.old).size }
        requires fits { place_after start self.old (length part.now) < 2 ^ 63 }
        ensures takes { OnOk result (self.new ≡ given_more self.old part.now) }
        ensures params { self.new.params ≡ self.old.params }
        ensures there { next_place start self.new ≤ (D.state disk.new).size }
        ensures done { OnOk result (WritesBlocks D.state start part.now self.old disk.old disk.new) }
        ensures puts { PutsBlocks D.Disk start part.now self.old disk.old disk.new }
        ensures faults { CountsOn D.state disk.old disk.new result }
    {
        let numbers = self.block_numbers();
        if part.len() >= numbers {
            return self.take_blocks(disk, start, part);
        }
        let at = self.next_place(start);
        self.waiting.try_extend_from_slice(part).unwrap();
        if self.waiting.len() < numbers {
            return Ok(());
        }
        put_block(
            disk,
            at,
            self.params,
            &mut self.ima,
            &mut self.waiting,
            &mut self.bytes,
        )?;
        self.blocks += 1;
        Ok(())
    }

    /// Takes numbers of 16 bits, frame by frame, and writes each block that becomes whole, in a file whose
    /// data begin at a place. Where a call of the disk fails, what stands beside these blocks is as it was.
    pub fn write<D: Disk>(&mut self, disk: &mut D, start: u64, from: &[i32]) -> Result<(), Step>
        requires range { All Is16Bit from.now }
        requires there { next_place start self.old ≤ (D.state disk.old).size }
        requires fits { place_after start self.old (length from.now) < 2 ^ 63 }
        ensures takes { OnOk result (self.new ≡ given_more self.old from.now) }
        ensures stands { OnOk result (TakesMore from.now self.old self.new) }
        ensures holds { OnOk result (HoldsMore D.state start from.now self.old disk.old disk.new) }
        ensures params { self.new.params ≡ self.old.params }
        ensures there { next_place start self.new ≤ (D.state disk.new).size }
        ensures done { OnOk result (WritesBlocks D.state start from.now self.old disk.old disk.new) }
        ensures puts { PutsBlocks D.Disk start from.now self.old disk.old disk.new }
        ensures written { WritesForFrames D.state (length from.now) self.old disk.old disk.new }
        ensures faults { CountsOn D.state disk.old disk.new result }
    {
        self.keeps_rule();
        let mut done = 0;
        while done < from.len() {
            let next = done + self.next_part(from.len() - done);
            self.take_part(disk, start, &from[done..next])?;
            done = next;
        }
        Ok(())
    }

    /// Writes the numbers that wait as one more block, which zeros fill; where none wait the disk is not
    /// called.
    pub fn finish<D: Disk>(&mut self, disk: &mut D, start: u64) -> Result<(), Step>
        requires there { next_place start self.old ≤ (D.state disk.old).size }
        requires fits { block_end start self.old < 2 ^ 63 }
        ensures takes { OnOk result (self.new ≡ given_more self.old (padding self.old)) }
        ensures stands { OnOk result (FillsUp self.old self.new) }
        ensures holds { OnOk result (HoldsAll D.state start self.old disk.old disk.new) }
        ensures params { self.new.params ≡ self.old.params }
        ensures there { next_place start self.new ≤ (D.state disk.new).size }
        ensures done { OnOk result (WritesBlocks D.state start (padding self.old) self.old disk.old disk.new) }
        ensures puts { PutsBlocks D.Disk start (padding self.old) self.old disk.old disk.new }
        ensures written { WritesAtMost D.state (block_size self.old) disk.old disk.new }
        ensures faults { CountsOn D.state disk.old disk.new result }
    {
        self.keeps_rule();
        if self.waiting.is_empty() {
            return Ok(());
        }
        let numbers = self.block_numbers();
        let at = self.next_place(start);
        fill_up(&mut self.waiting, numbers);
        put_block(
            disk,
            at,
            self.params,
            &mut self.ima,
            &mut self.waiting,
            &mut self.bytes,
        )?;
        self.blocks += 1;
        Ok(())
    }
}
