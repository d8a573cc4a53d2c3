// A source and a sink over bytes in memory, which can be told to fail.

ghost use Rattle.std.specs.Prelude.{◌≡◌, ℕ, ◌<◌, ◌≤◌, [], drop, take, Some, length};

use crate::outside::{Pulled, Pushed, Sink, Source};
use std::alloc::{AllocError, Global};
use std::marker::Model;

/// A source over bytes in memory.
#[derive(Debug, Drop)]
pub struct MemSource {
    bytes: Vec<u8>,
    at: usize,
    most: usize,
    calls: u64,
    faults: u64,
    failing: Vec<u64>,
}

impl Model for MemSource {
    ghost use Rattle.std.specs.Prelude.{ℕ, List, ◌≤◌, ◌<◌, length, drop};
    ghost use Rattle.apex_io.specs.Memory.{SourceState};

    ghost Value = { SourceState };

    ghost view = { λ s. record { left = drop s.at s.bytes.items; most = s.most; calls = s.calls; faults = s.faults; failing = s.failing.items } };

    ghost invariant = { λ s. (s.at ≤ length s.bytes.items) × (0 < s.most) };
}

impl MemSource {
    /// A source of these bytes that gives at most `most` of them in a call and fails at the calls whose
    /// numbers, from 0, are listed.
    pub fn new(bytes: Vec<u8>, most: usize, failing: Vec<u64>) -> MemSource
        requires { 0 < most }
        ensures left { result.left ≡ bytes.items }
        ensures most { result.most ≡ most }
        ensures calls { result.calls ≡ 0 }
        ensures faults { result.faults ≡ 0 }
        ensures failing { result.failing ≡ failing.items }
    {
        MemSource {
            bytes,
            at: 0,
            most,
            calls: 0,
            faults: 0,
            failing,
        }
    }

    /// How often it was asked, or 2^64 - 1 where that is more.
    pub fn calls(&self) -> u64
        ensures { result ≡ self.now.calls }
    {
        self.calls
    }

    /// How often it failed, or 2^64 - 1 where that is more.
    pub fn faults(&self) -> u64
        ensures { result ≡ self.now.faults }
    {
        self.faults
    }
}

impl Source for MemSource {
    ghost left = { λ s. Some s.left };

    ghost faults = { λ s. s.faults };

    ghost calls = { λ s. s.calls };

    fn pull(&mut self, into: &mut [u8]) -> Pulled {
        let call = self.calls;
        self.calls = call.saturating_add(1);
        if self.failing.contains(&call) {
            self.faults = self.faults.saturating_add(1);
            return Pulled::Failed;
        }
        let left = self.bytes.split_at(self.at).1;
        if left.is_empty() {
            return Pulled::End;
        }
        let n = copy_front(left, self.most, into);
        self.at += n;
        Pulled::Bytes(n)
    }
}

// Copies the front of `from`, at most `most` bytes of it and no more than there is room for.
fn copy_front(from: &[u8], most: usize, into: &mut [u8]) -> usize
    requires { 0 < most }
    ensures room { result ≤ length into.new }
    ensures within { result ≤ length from.now }
    ensures copied { take result into.new ≡ take result from.now }
    ensures some { result ≡ 0 → 0 < length into.new → from.now ≡ [] }
{
    let n = from.len().min(most).min(into.len());
    into[..n].copy_from_slice(&from[..n]);
    n
}

/// A sink into memory.
#[derive(Debug, Drop)]
pub struct MemSink {
    bytes: Vec<u8>,
    most: usize,
    calls: u64,
    faults: u64,
    failing: Vec<u64>,
}

impl Model for MemSink {
    ghost use Rattle.std.specs.Prelude.{ℕ, List, ◌<◌};
    ghost use Rattle.apex_io.specs.Memory.{SinkState};

    ghost Value = { SinkState };

    ghost view = { λ s. record { held = s.bytes.items; most = s.most; calls = s.calls; faults = s.faults; failing = s.failing.items } };

    ghost invariant = { λ s. 0 < s.most };
}

impl MemSink {
    /// An empty sink that takes at most `most` bytes in a call and fails at the calls whose numbers, from 0,
    /// are listed.
    pub fn new(alloc: Global, most: usize, failing: Vec<u64>) -> MemSink
        requires { 0 < most }
        ensures held { result.held ≡ [] }
        ensures most { result.most ≡ most }
        ensures calls { result.calls ≡ 0 }
        ensures faults { result.faults ≡ 0 }
        ensures failing { result.failing ≡ failing.items }
    {
        MemSink {
            bytes: Vec::new(alloc),
            most,
            calls: 0,
            faults: 0,
            failing,
        }
    }

    /// The bytes that it holds.
    pub fn bytes(&self) -> &[u8]
        ensures { result.now ≡ self.now.held }
    {
        self.bytes.as_slice()
    }

    /// How often it was asked, or 2^64 - 1 where that is more.
    pub fn calls(&self) -> u64
        ensures { result ≡ self.now.calls }
    {
        self.calls
    }

    /// How often it failed, or 2^64 - 1 where that is more.
    pub fn faults(&self) -> u64
        ensures { result ≡ self.now.faults }
    {
        self.faults
    }
}

impl Sink for MemSink {
    ghost held = { λ s. Some s.held };

    ghost faults = { λ s. s.faults };

    fn push(&mut self, piece: &[u8]) -> Pushed {
        let call = self.calls;
        self.calls = call.saturating_add(1);
        let n = piece.len().min(self.most);
        let fails = self.failing.contains(&call);
        // Memory that is refused is a fault of the sink.
        if fails || self.bytes.extend_from_slice(&piece[..n]).is_err() {
            self.faults = self.faults.saturating_add(1);
            return Pushed::Failed;
        }
        Pushed::Took(n)
    }
}
