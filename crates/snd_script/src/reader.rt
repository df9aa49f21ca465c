//! The lines of a script, as they come from a source.

ghost use Rattle.std.specs.Prelude.{◌≡◌, ◌+◌, ◌-◌, ◌<◌, ◌≤◌, ◌==◌, ◌↔◌, ◌++◌, ◌∷◌, List, ℕ, [], true, false, Some, IfOk, OnOk, OnErr, length, take, drop, IsTrue};
ghost use Rattle.std.specs.List.{position};
ghost use Rattle.snd_command.specs.Line.{command_of, answer_of};
ghost use Rattle.snd_disk.specs.State.{Counts};
ghost use Rattle.snd_script.specs.Lines.{Reading, Moves, most_kept, to_take, GivesBytes, IsAtEnd, ReadsOn, TakesUp, IsPrompt, StopsShort};
ghost use Rattle.snd_rules.specs.Script.{is_feed};

use arrayvec::ArrayVec;
use snd_command::{Command, NumberRoom, ScriptRefusal, parse_line};
use snd_disk::{Failed, Source};
use std::marker::Model;

const BLOCK_BYTES: usize = 16384;

const SCRIPT_BYTES: usize = 16777216;

const KEPT_BYTES: usize = 4097;

/// A line without its line feed, with room for the numbers of its command. Of a line of more than 4096
/// bytes it keeps the first 4097. It is made once and used again from line to line.
#[derive(Drop)]
pub struct Line {
    bytes: ArrayVec<u8, KEPT_BYTES>,
    numbers: NumberRoom,
}

impl Model for Line {
    ghost Value = { List ℕ };

    ghost view = { λ l. l.bytes.items };
}

impl Line {
    /// An empty line.
    pub fn new() -> Line
        ensures { result ≡ [] }
    {
        Line {
            bytes: ArrayVec::new(),
            numbers: NumberRoom::new(),
        }
    }

    // Drops every byte.
    fn clear(&mut self)
        ensures { self.new ≡ [] }
    {
        self.bytes.clear();
    }

    // Whether there is no byte.
    fn is_empty(&self) -> bool
        ensures { result ≡ (length self.now == 0) }
    {
        self.bytes.is_empty()
    }

    // Appends as many of the bytes as are kept of a line.
    fn keep(&mut self, bytes: &[u8])
        ensures { self.new ≡ take most_kept (self.old ++ bytes.now) }
    {
        let count = bytes.len().min(self.bytes.remaining_capacity());
        let _ = self.bytes.try_extend_from_slice(&bytes[..count]);
    }

    /// What it says.
    pub fn says(&mut self) -> Result<Option<Command<'_>>, ScriptRefusal>
        ensures { answer_of result ≡ command_of self.old }
    {
        parse_line(&self.bytes, &mut self.numbers)
    }
}

/// What comes next of a script.
#[derive(Clone, Copy, Debug, PartialEq, Eq)]
pub enum NextLine {
    /// A line.
    Line,
    /// The script is at its end.
    End,
    /// No further line ends within the first 16777216 bytes, and there are more.
    TooLong,
}

/// A reader of a script's lines. It takes a block of at most 16384 bytes at a time, and only when
/// all that it has is served. It takes at most 16777217 bytes of a script and serves the lines among the
/// first 16777216.
#[derive(Drop)]
pub struct ScriptLines {
    block: [u8; BLOCK_BYTES],
    start: usize,
    end: usize,
    room: usize,
}

impl Model for ScriptLines {
    ghost Value = { Reading };

    ghost view = { λ l. record { rest = take (l.end - l.start) (drop l.start l.block); room = l.room } };

    ghost invariant = { λ l. (l.start ≤ l.end) × (l.end ≤ length l.block) × (l.end - l.start ≤ l.room + 1) × (l.room ≤ 16777216) };
}

// Where the first line feed stands.
fn feed_in(bytes: &[u8]) -> Option<usize>
    ensures { result ≡ position is_feed bytes.now }
{
    bytes.iter().position(|byte| *byte == b'\n')
}

// Takes the next bytes into the front of a block, at most so many.
fn fill<R: Source>(script: &mut R, block: &mut [u8], most: usize) -> Result<usize, Failed>
    requires some { 0 < most }
    requires fits { most ≤ length block.old }
    ensures few { IfOk result (λ n. n ≤ most) }
    ensures told { IfOk result (λ n. GivesBytes R.left (take n block.new) script.old script.new) }
    ensures ended { IfOk result (λ n. n ≡ 0 → IsAtEnd R.left script.old) }
    ensures given { IfOk result (λ n. R.given script.new ≤ R.given script.old + n) }
    ensures kept { OnErr result (R.left script.new ≡ R.left script.old) }
    ensures not_given { OnErr result (R.given script.new ≡ R.given script.old) }
    ensures faults { Counts (R.faults script.old) (R.faults script.new) result }
{
    let count = script.take(&mut block[..most])?;
    Ok(count)
}

impl ScriptLines {
    /// A reader at the start of a script.
    pub fn new() -> ScriptLines
        ensures { result ≡ record { rest = []; room = 16777216 } }
    {
        ScriptLines {
            block: [0; BLOCK_BYTES],
            start: 0,
            end: 0,
            room: SCRIPT_BYTES,
        }
    }

    // Whether all bytes in hand are served.
    fn is_used_up(&self) -> bool
        ensures { IsTrue result ↔ (length self.now.rest ≡ 0) }
    {
        self.start == self.end
    }

    // Moves bytes in hand to the line, up to a line feed. The answer is whether one came.
    fn move_part(&mut self, line: &mut Line) -> bool
        ensures moved { (p : List ℕ) × Moves self.old self.new line.old line.new result p }
        ensures to_take { to_take self.new ≡ to_take self.old }
    {
        let end = self.start + (self.end - self.start).min(self.room);
        let bytes = &self.block[self.start..end];
        match feed_in(bytes) {
            Some(count) => {
                line.keep(&bytes[..count]);
                self.start += count + 1;
                self.room -= count + 1;
                true
            }
            None => {
                line.keep(bytes);
                self.room -= bytes.len();
                self.start = end;
                false
            }
        }
    }

    // Takes the next block. The answer is whether any bytes came.
    fn refill<R: Source>(&mut self, script: &mut R) -> Result<bool, Failed>
        requires { self.old.rest ≡ [] }
        ensures some { IfOk result (λ more. more ≡ true → 0 < length self.new.rest) }
        ensures none { IfOk result (λ more. more ≡ false → self.new.rest ≡ []) }
        ensures told { OnOk result (GivesBytes R.left self.new.rest script.old script.new) }
        ensures kept { OnErr result (R.left script.new ≡ R.left script.old) }
        ensures ended { IfOk result (λ more. more ≡ false → IsAtEnd R.left script.old) }
        ensures room { self.new.room ≡ self.old.room }
        ensures given { TakesUp R.given self.old script.old self.new script.new }
        ensures faults { Counts (R.faults script.old) (R.faults script.new) result }
    {
        let most = BLOCK_BYTES.min(self.room + 1);
        let count = fill(script, &mut self.block, most)?;
        self.start = 0;
        self.end = count;
        Ok(count > 0)
    }

    /// Reads on to the next line. A line is served as soon as it has come: the source is asked for
    /// more only where all bytes in hand are served. After a fault the reader is done with.
    pub fn next_line<R: Source>(
        &mut self,
        script: &mut R,
        line: &mut Line,
    ) -> Result<NextLine, Failed>
        ensures next { IfOk result (ReadsOn R.left line.new self.old script.old self.new script.new) }
        ensures short { OnErr result (StopsShort R.left self.old script.old script.new) }
        ensures prompt { IsPrompt self.old script.old script.new }
        ensures fewer { IfOk result (λ next. next ≡ NextLine.Line → self.new.room < self.old.room) }
        ensures given { TakesUp R.given self.old script.old self.new script.new }
        ensures faults { Counts (R.faults script.old) (R.faults script.new) result }
    {
        line.clear();
        loop {
            if self.move_part(line) {
                return Ok(NextLine::Line);
            }
            if !self.is_used_up() {
                return Ok(NextLine::TooLong);
            }
            if !self.refill(script)? {
                break;
            }
        }
        if line.is_empty() {
            return Ok(NextLine::End);
        }
        Ok(NextLine::Line)
    }
}
