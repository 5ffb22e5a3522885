use cl_ground::{Items, NoMemory};
use cl_outside::{Failed, Sink};
use std::alloc::Global;
use std::marker::Model;

/// A sink in memory that grows. A write fails where the allocator refused its room.
///
/// Contracts see the bytes that were written and how often a write has failed.
#[derive(Drop)]
pub struct Growing {
    bytes: Items<u8>,
    faults: u64,
}

impl Model for Growing {
    ghost use Rattle.cl_text.specs.Stages.{Grown};

    ghost Value = { Grown };

    ghost view = { λ s. record { bytes = s.bytes.items; faults = s.faults } };
}

impl Growing {
    ghost use Rattle.std.specs.Prelude.{◌≡◌};
    ghost use Rattle.cl_text.specs.Stages.{Grown};

    /// A sink that was given these bytes. It takes no memory.
    pub fn of(bytes: Items<u8>) -> Growing
        ensures bytes { result.bytes ≡ bytes.items }
        ensures faults { result.faults ≡ 0 }
    {
        Growing { bytes, faults: 0 }
    }

    /// The bytes that it was given.
    pub fn into_bytes(self) -> Items<u8>
        ensures { result.items ≡ self.bytes }
    {
        let Growing { bytes, faults: _ } = self;
        bytes
    }
}

impl Sink for Growing {
    ghost use Rattle.std.specs.Prelude.{◌≡◌, ◌<◌, ◌≤◌, length, take, IfOk, OnErr, Some};
    ghost use Rattle.cl_outside.specs.Faults.{HasCause};
    ghost use Rattle.cl_outside.specs.Streams.{Appends};
    ghost use Rattle.cl_text.specs.Stages.{Grown};

    ghost written = { λ s. Some s.bytes };

    ghost faults = { λ s. s.faults };

    /// Takes all bytes.
    fn write(&mut self, bytes: &[u8]) -> Result<usize, Failed> {
        match self.bytes.reserve(bytes.len()) {
            Ok(()) => {
                self.bytes.push_all(bytes);
                Ok(bytes.len())
            }
            Err(NoMemory) => {
                self.faults = self.faults.saturating_add(1);
                Err(Failed)
            }
        }
    }
}
