ghost use Rattle.std.specs.Prelude.{◌≡◌, ◌≤◌, ◌++◌, List, ℕ, length, take, drop, [], Some, IfSome, vec_len};

use snd_disk::{Failed, Sink, Source};
use std::alloc::Global;

/// A source in memory, which gives its bytes in pieces of at most a given size. Some calls can be
/// told to fail.
#[derive(Drop)]
pub struct MemorySource {
    bytes: Vec<u8>,
    at: usize,
    piece: usize,
    failing: Vec<u64>,
    calls: u64,
    faults: u64,
    given: u64,
    ghost within: { at ≤ vec_len bytes },
    ghost gives: { 1 ≤ piece },
}

impl MemorySource {
    ghost use Rattle.snd_memory.specs.MemoryStreams.{bytes_left};

    /// A source of these bytes. Calls with the numbers in `failing`, counted from 1, fail.
    pub fn new(bytes: Vec<u8>, piece: usize, failing: Vec<u64>) -> MemorySource
        requires { 1 ≤ piece }
        ensures left { bytes_left result ≡ Some bytes.items }
        ensures fresh { (result.faults ≡ 0) × (result.given ≡ 0) }
    {
        MemorySource {
            bytes,
            at: 0,
            piece,
            failing,
            calls: 0,
            faults: 0,
            given: 0,
        }
    }
}

/// Copies the front of some bytes into the front of a slice.
fn copy_front(into: &mut [u8], from: &[u8], count: usize)
    requires in_into { count ≤ length into.old }
    requires in_from { count ≤ length from.now }
    ensures front { take count into.new ≡ take count from.now }
    ensures rest { drop count into.new ≡ drop count into.old }
{
    into[..count].copy_from_slice(&from[..count]);
}

impl Source for MemorySource {
    ghost use Rattle.snd_memory.specs.MemoryStreams.{bytes_left};

    ghost left = { bytes_left };

    ghost faults = { λ s. s.faults };

    ghost given = { λ s. s.given };

    fn take(&mut self, into: &mut [u8]) -> Result<usize, Failed> {
        self.calls = self.calls.saturating_add(1);
        if self.failing.contains(&self.calls) {
            self.faults = self.faults.saturating_add(1);
            return Err(Failed);
        }
        let count = (self.bytes.len() - self.at).min(self.piece).min(into.len());
        copy_front(into, &self.bytes[self.at..], count);
        self.at += count;
        self.given = self.given.saturating_add(count as u64);
        Ok(count)
    }
}

/// A call of a sink that is to fail.
#[derive(Clone, Copy, Debug, PartialEq, Eq)]
pub struct FailingPut {
    /// Which call of the sink, counted from 1.
    pub number: u64,
    /// How many of the bytes, from the first on, are appended all the same.
    pub bytes: u64,
}

/// A sink in memory. Some calls can be told to fail.
#[derive(Drop)]
pub struct MemorySink {
    bytes: Vec<u8>,
    failing: Vec<FailingPut>,
    calls: u64,
    faults: u64,
}

impl MemorySink {
    ghost use Rattle.snd_memory.specs.MemoryStreams.{bytes_told};

    /// A sink to which nothing was appended yet, whose calls with these numbers fail.
    pub fn new(alloc: Global, failing: Vec<FailingPut>) -> MemorySink
        ensures told { bytes_told result ≡ Some [] }
        ensures fresh { result.faults ≡ 0 }
    {
        MemorySink {
            bytes: Vec::new(alloc),
            failing,
            calls: 0,
            faults: 0,
        }
    }

    /// What was appended so far.
    pub fn bytes(&self) -> &[u8]
        ensures { bytes_told self.now ≡ Some result.now }
    {
        &self.bytes
    }

    /// How many of a slice's bytes are appended though the call fails, where it is to fail.
    fn failure(&mut self, size: usize) -> Option<usize>
        ensures state { self.new ≡ record self.old { calls = self.new.calls } }
        ensures few { IfSome result (λ n. n ≤ size) }
    {
        self.calls = self.calls.saturating_add(1);
        let number = self.calls;
        let call = self.failing.iter().find(|call| call.number == number)?;
        Some((call.bytes.min(size as u64)) as usize)
    }
}

impl Sink for MemorySink {
    ghost use Rattle.snd_memory.specs.MemoryStreams.{bytes_told};

    ghost told = { bytes_told };

    ghost faults = { λ s. s.faults };

    fn put(&mut self, from: &[u8]) -> Result<(), Failed> {
        let failure = self.failure(from.len());
        let count = failure.unwrap_or(from.len());
        let appended = self.bytes.extend_from_slice(&from[..count]);
        if failure.is_none() && appended.is_ok() {
            return Ok(());
        }
        self.faults = self.faults.saturating_add(1);
        Err(Failed)
    }
}
