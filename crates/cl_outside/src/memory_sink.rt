use crate::bytes::is_listed;
use crate::{Failed, Sink};
use cl_ground::{Items, NoMemory};
use std::alloc::Global;
use std::marker::Model;

/// A sink in memory, which fails where it is told to and where its room is full.
///
/// Contracts see the bytes that were written, for how many more there is room, the most bytes of a call,
/// the numbers of the calls that fail, and how many calls and how many faults there were. Writing takes no
/// memory.
#[derive(Drop)]
pub struct MemSink {
    bytes: Items<u8>,
    // for how many more bytes there is room
    room: usize,
    piece: usize,
    failing: Vec<u64>,
    calls: u64,
    faults: u64,
}

impl Model for MemSink {
    ghost use Rattle.std.specs.Prelude.{◌<◌, ◌≤◌};
    ghost use Rattle.cl_ground.specs.Room.{Room};
    ghost use Rattle.cl_outside.specs.Memory.{Output};

    ghost Value = { Output };

    ghost view = { λ s. record { written = s.bytes.items; room = s.room; piece = s.piece; failing = s.failing.items; calls = s.calls; faults = s.faults } };

    ghost invariant = { λ s. (s.room ≤ s.bytes.spare) × (0 < s.piece) };
}

impl MemSink {
    ghost use Rattle.std.specs.Prelude.{◌≡◌, ◌<◌, [], IfOk};
    ghost use Rattle.cl_outside.specs.Memory.{Output};

    /// A sink with room for `room` bytes. A call takes at most `piece` bytes, and the calls with the listed
    /// numbers, counted from 1, fail, and so do those that find no room. The last number of 64 bits stands
    /// for all calls from that one on.
    ///
    /// `NoMemory` comes where the allocator refused that room.
    pub fn new(
        alloc: Global,
        room: usize,
        piece: usize,
        failing: Vec<u64>,
    ) -> Result<MemSink, NoMemory>
        requires { 0 < piece }
        ensures written { IfOk result (λ s. s.written ≡ []) }
        ensures room { IfOk result (λ s. s.room ≡ room) }
        ensures piece { IfOk result (λ s. s.piece ≡ piece) }
        ensures failing { IfOk result (λ s. s.failing ≡ failing.items) }
        ensures calls { IfOk result (λ s. s.calls ≡ 0) }
        ensures faults { IfOk result (λ s. s.faults ≡ 0) }
    {
        let mut bytes = Items::new(alloc);
        bytes.reserve(room)?;
        Ok(MemSink {
            bytes,
            room,
            piece,
            failing,
            calls: 0,
            faults: 0,
        })
    }

    /// The bytes that were written, in order.
    pub fn written(&self) -> &[u8]
        ensures { result.now ≡ self.now.written }
    {
        self.bytes.as_slice()
    }

    /// How often a write has failed.
    pub fn faults(&self) -> u64
        ensures { result ≡ self.now.faults }
    {
        self.faults
    }
}

impl Sink for MemSink {
    ghost use Rattle.std.specs.Prelude.{◌≡◌, ◌+◌, ◌<◌, ◌≤◌, ◌↔◌, length, take, min, IsErr, IfOk, OnErr, Some};
    ghost use Rattle.cl_outside.specs.Faults.{HasCause, raised};
    ghost use Rattle.cl_outside.specs.Streams.{Appends};
    ghost use Rattle.cl_outside.specs.Memory.{Output, WriteFails};

    ghost written = { λ s. Some s.written };

    ghost faults = { λ s. s.faults };

    /// Writes as many bytes as a call may take and the room holds. It fails exactly where its number is
    /// listed or the room is full. It takes no memory.
    fn write(&mut self, bytes: &[u8]) -> Result<usize, Failed>
        requires { 0 < length bytes.now }

        ensures some { IfOk result (λ n. 0 < n) }
        ensures within { IfOk result (λ n. n ≤ length bytes.now) }
        ensures bytes { IfOk result (λ n. Appends (Some self.old.written) (take n bytes.now) (Some self.new.written)) }
        ensures lost { OnErr result (Some self.new.written ≡ Some self.old.written) }
        ensures cause { HasCause self.old.faults self.new.faults result }

        ensures fails { IsErr result ↔ WriteFails self.old }
        ensures count { IfOk result (λ n. n ≡ min (min self.old.piece (length bytes.now)) self.old.room) }
        ensures room { IfOk result (λ n. self.new.room + n ≡ self.old.room) }
        ensures full { OnErr result (self.new.room ≡ self.old.room) }
        ensures piece { self.new.piece ≡ self.old.piece }
        ensures failing { self.new.failing ≡ self.old.failing }
        ensures calls { self.new.calls ≡ raised self.old.calls }
        ensures fault { OnErr result (self.new.faults ≡ raised self.old.faults) }
    {
        self.calls = self.calls.saturating_add(1);
        if self.room == 0 || is_listed(&self.failing, self.calls) {
            self.faults = self.faults.saturating_add(1);
            return Err(Failed);
        }
        let count = self.piece.min(bytes.len()).min(self.room);
        self.bytes.push_all(&bytes[..count]);
        self.room -= count;
        Ok(count)
    }
}
