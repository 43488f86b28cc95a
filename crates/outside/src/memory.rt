//! A source and a sink in memory, which tell their bytes and fail where they are told to.

ghost use Rattle.std.specs.Prelude.{◌≡◌, ◌+◌, ◌<◌, ◌≤◌, ◌^◌, ◌↔◌, ◌⊎◌, ℕ, [], Some, IfOk, IsErr, IsTrue, OnErr, Contains, drop, length, min, take};
ghost use Rattle.std.specs.Io.{ReadsAtMost, WritesAtMost};
ghost use Rattle.std.specs.Io.KnownBytes.{ReadConsumes, WriteAppends};
ghost use Rattle.outside.specs.Faults.{Rose};

use crate::NoMemory;
use crate::sink::Sink;
use crate::source::{Failed, Source};
use std::alloc::Global;

/// A source that tells its bytes. It fails at the calls whose numbers are listed, counted from 1.
#[derive(Drop)]
pub struct MemorySource {
    bytes: Vec<u8>,
    at: usize,
    fails: Vec<u32>,
    calls: u64,
    faults: u64,
    ghost in_range: { at ≤ length bytes.items },
}

impl MemorySource {
    ghost use Rattle.outside.specs.Memory.{left_of, source_fails, source_calls, source_faults};

    /// A source of these bytes, with no call made.
    pub fn new(alloc: Global, bytes: &[u8], fails: &[u32]) -> Result<MemorySource, NoMemory>
        ensures tells { IfOk result (λ s. left_of s ≡ bytes.now) }
        ensures listed { IfOk result (λ s. source_fails s ≡ fails.now) }
        ensures unused { IfOk result (λ s. source_calls s ≡ 0) }
        ensures sound { IfOk result (λ s. source_faults s ≡ 0) }
    {
        let Ok(bytes) = Vec::from_slice(alloc, bytes) else {
            return Err(NoMemory);
        };
        let Ok(fails) = Vec::from_slice(alloc, fails) else {
            return Err(NoMemory);
        };
        Ok(MemorySource {
            bytes,
            at: 0,
            fails,
            calls: 0,
            faults: 0,
        })
    }
}

impl Source for MemorySource {
    ghost use Rattle.outside.specs.Memory.{left_of, source_fails, source_calls, source_faults, one_more};

    ghost left = { λ s. Some (left_of s) };

    ghost faults = { λ s. source_faults s };

    /// Gives as many bytes as there are and fit. It fails exactly at a listed call.
    fn read(&mut self, into: &mut [u8]) -> Result<usize, Failed>
        ensures count { source_faults self.old ≤ source_faults self.new }
        ensures cause { OnErr result (Rose (source_faults self.old) (source_faults self.new)) }
        ensures bound { ReadsAtMost result into.new }
        ensures bytes { ReadConsumes (Some (left_of self.old)) (Some (left_of self.new)) result into.new }
        ensures whole { IfOk result (λ n. n ≡ min (length (left_of self.old)) (length into.old)) }
        ensures called { source_calls self.new ≡ one_more (source_calls self.old) }
        ensures listed { source_fails self.new ≡ source_fails self.old }
        ensures failed { IsErr result ↔ Contains (source_fails self.old) (source_calls self.new) }
    {
        self.calls = self.calls.saturating_add(1);
        if is_listed(self.fails.as_slice(), self.calls) {
            self.faults = self.faults.saturating_add(1);
            return Err(Failed);
        }
        let n = copy_front(&self.bytes[self.at..], into);
        self.at += n;
        Ok(n)
    }
}

/// Copies a front of the bytes, as long as both allow.
fn copy_front(from: &[u8], into: &mut [u8]) -> usize
    ensures count { result ≡ min (length from.now) (length into.old) }
    ensures copied { take result into.new ≡ take result from.now }
{
    let n = from.len().min(into.len());
    into[..n].copy_from_slice(&from[..n]);
    n
}

fn is_listed(fails: &[u32], call: u64) -> bool
    ensures { IsTrue result ↔ Contains fails.now call }
{
    match u32::try_from(call) {
        Ok(call) => fails.contains(&call),
        Err(_) => false,
    }
}

/// A sink that tells its bytes. It fails at the calls whose numbers are listed, counted from 1, and
/// where there is no memory. A call with an empty piece isn't counted.
#[derive(Drop)]
pub struct MemorySink {
    bytes: Vec<u8>,
    fails: Vec<u32>,
    calls: u64,
    faults: u64,
}

impl MemorySink {
    ghost use Rattle.outside.specs.Memory.{written_of, sink_fails, sink_calls, sink_faults};

    /// A sink that holds nothing, with no call made.
    pub fn new(alloc: Global, fails: &[u32]) -> Result<MemorySink, NoMemory>
        ensures empty { IfOk result (λ s. written_of s ≡ []) }
        ensures listed { IfOk result (λ s. sink_fails s ≡ fails.now) }
        ensures unused { IfOk result (λ s. sink_calls s ≡ 0) }
        ensures sound { IfOk result (λ s. sink_faults s ≡ 0) }
    {
        let Ok(fails) = Vec::from_slice(alloc, fails) else {
            return Err(NoMemory);
        };
        Ok(MemorySink {
            bytes: Vec::new(alloc),
            fails,
            calls: 0,
            faults: 0,
        })
    }

    /// What was written.
    pub fn bytes(&self) -> &[u8]
        ensures { result.now ≡ written_of self.now }
    {
        self.bytes.as_slice()
    }
}

impl Sink for MemorySink {
    ghost use Rattle.outside.specs.Memory.{written_of, room_of, sink_fails, sink_calls, sink_faults, one_more};

    ghost written = { λ s. Some (written_of s) };

    ghost faults = { λ s. sink_faults s };

    /// Takes the whole piece. It fails at a listed call, and where the bytes don't fit in what it
    /// holds and no memory is given, which counts as a fault of its own.
    fn write(&mut self, from: &[u8]) -> Result<usize, Failed>
        ensures count { sink_faults self.old ≤ sink_faults self.new }
        ensures cause { OnErr result (Rose (sink_faults self.old) (sink_faults self.new)) }
        ensures bound { WritesAtMost result from.now }
        ensures some { IfOk result (λ n. 0 < length from.now → 0 < n) }
        ensures empty { OnErr result (0 < length from.now) }
        ensures bytes { WriteAppends (Some (written_of self.old)) (Some (written_of self.new)) result from.now }
        ensures whole { IfOk result (λ n. n ≡ length from.now) }
        ensures called { 0 < length from.now → sink_calls self.new ≡ one_more (sink_calls self.old) }
        ensures unused { length from.now ≡ 0 → sink_calls self.new ≡ sink_calls self.old }
        ensures listed { sink_fails self.new ≡ sink_fails self.old }
        ensures fails { 0 < length from.now → Contains (sink_fails self.old) (sink_calls self.new) → IsErr result }
        ensures failed { OnErr result (Contains (sink_fails self.old) (sink_calls self.new) ⊎ (room_of self.old < length (written_of self.old) + length from.now)) }
    {
        if from.is_empty() {
            return Ok(0);
        }
        self.calls = self.calls.saturating_add(1);
        if is_listed(self.fails.as_slice(), self.calls) {
            self.faults = self.faults.saturating_add(1);
            return Err(Failed);
        }
        if self.bytes.extend_from_slice(from).is_err() {
            self.faults = self.faults.saturating_add(1);
            return Err(Failed);
        }
        Ok(from.len())
    }
}
