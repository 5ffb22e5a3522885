use crate::bytes::{copy_front, is_listed};
use crate::{Failed, Source};
use std::marker::Model;

/// Bytes in memory as a source, which fails where it is told to.
///
/// Contracts see the bytes that are left, the most bytes of a call, the numbers of the calls that fail,
/// and how many calls and how many faults there were. Reading takes no memory.
#[derive(Drop)]
pub struct MemSource {
    bytes: Vec<u8>,
    // how many bytes were read
    at: usize,
    piece: usize,
    failing: Vec<u64>,
    calls: u64,
    faults: u64,
}

impl Model for MemSource {
    ghost use Rattle.std.specs.Prelude.{◌<◌, ◌≤◌, length, drop};
    ghost use Rattle.cl_outside.specs.Memory.{Input};

    ghost Value = { Input };

    ghost view = { λ s. record { left = drop s.at s.bytes.items; piece = s.piece; failing = s.failing.items; calls = s.calls; faults = s.faults } };

    ghost invariant = { λ s. (s.at ≤ length s.bytes.items) × (0 < s.piece) };
}

impl MemSource {
    ghost use Rattle.std.specs.Prelude.{◌≡◌, ◌<◌};
    ghost use Rattle.cl_outside.specs.Memory.{Input};

    /// A source of these bytes, which takes no memory. A call gives at most `piece` of them, and the calls
    /// with the listed numbers, counted from 1, fail. The last number of 64 bits stands for all calls from
    /// that one on.
    pub fn new(bytes: Vec<u8>, piece: usize, failing: Vec<u64>) -> MemSource
        requires { 0 < piece }
        ensures left { result.left ≡ bytes.items }
        ensures piece { result.piece ≡ piece }
        ensures failing { result.failing ≡ failing.items }
        ensures calls { result.calls ≡ 0 }
        ensures faults { result.faults ≡ 0 }
    {
        MemSource {
            bytes,
            at: 0,
            piece,
            failing,
            calls: 0,
            faults: 0,
        }
    }

    /// The bytes that are left.
    pub fn left(&self) -> &[u8]
        ensures { result.now ≡ self.now.left }
    {
        &self.bytes[self.at..]
    }

    /// How often a read has failed.
    pub fn faults(&self) -> u64
        ensures { result ≡ self.now.faults }
    {
        self.faults
    }
}

impl Source for MemSource {
    ghost use Rattle.std.specs.Prelude.{◌≡◌, ◌<◌, ◌≤◌, ◌↔◌, ◌++◌, length, take, drop, min, IsErr, IfOk, OnErr, Some};
    ghost use Rattle.cl_outside.specs.Faults.{HasCause, raised};
    ghost use Rattle.cl_outside.specs.Streams.{Takes, EndsAt};
    ghost use Rattle.cl_outside.specs.Memory.{Input, ReadFails};

    ghost left = { λ s. Some s.left };

    ghost faults = { λ s. s.faults };

    /// Reads as many bytes as a call may give, the buffer holds and are left. It fails exactly where its
    /// number is listed, and then the buffer stays. It takes no memory.
    fn read(&mut self, into: &mut [u8]) -> Result<usize, Failed>
        requires { 0 < length into.old }

        ensures within { IfOk result (λ n. n ≤ length into.old) }
        ensures bytes { IfOk result (λ n. Takes n into.new (Some self.old.left) (Some self.new.left)) }
        ensures end { IfOk result (λ n. EndsAt n (Some self.old.left)) }
        ensures lost { OnErr result (Some self.new.left ≡ Some self.old.left) }
        ensures cause { HasCause self.old.faults self.new.faults result }

        ensures fails { IsErr result ↔ ReadFails self.old }
        ensures count { IfOk result (λ n. n ≡ min (min self.old.piece (length into.old)) (length self.old.left)) }
        ensures buffer { IfOk result (λ n. into.new ≡ take n self.old.left ++ drop n into.old) }
        ensures unread { OnErr result (into.new ≡ into.old) }
        ensures piece { self.new.piece ≡ self.old.piece }
        ensures failing { self.new.failing ≡ self.old.failing }
        ensures calls { self.new.calls ≡ raised self.old.calls }
        ensures fault { OnErr result (self.new.faults ≡ raised self.old.faults) }
    {
        self.calls = self.calls.saturating_add(1);
        if is_listed(&self.failing, self.calls) {
            self.faults = self.faults.saturating_add(1);
            return Err(Failed);
        }
        let rest = &self.bytes[self.at..];
        let count = self.piece.min(into.len()).min(rest.len());
        copy_front(into, &rest[..count]);
        self.at += count;
        Ok(count)
    }
}
