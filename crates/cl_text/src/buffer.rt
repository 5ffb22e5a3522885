use cl_ground::{Items, NoMemory};
use cl_outside::{Failed, Sink, WriteEnd, write_all};
use std::alloc::Global;
use std::marker::Model;

/// What of a text isn't written to its sink yet.
///
/// Bytes are held back while its room lasts, and what is longer than the room goes to the sink at once. After a
/// write that failed nothing is written any more, and `finish` tells so: what puts a text together asks once, at its
/// end. Contracts see what is held back and whether a write has failed.
#[derive(Drop)]
pub struct OutputBuffer {
    bytes: Items<u8>,
    most: usize,
    failed: bool,
}

impl Model for OutputBuffer {
    ghost use Rattle.std.specs.Prelude.{◌+◌, ◌≤◌, length};
    ghost use Rattle.cl_text.specs.Stages.{Buffered};

    ghost Value = { Buffered };

    ghost view = { λ b. record { pending = b.bytes.items; failed = b.failed } };

    ghost invariant = { λ b. (length b.bytes.items ≤ b.most) × (b.most ≤ length b.bytes.items + b.bytes.spare) };
}

impl OutputBuffer {
    ghost use Rattle.std.specs.Prelude.{◌≡◌, [], false, IfOk, OnOk, is_err};
    ghost use Rattle.cl_text.specs.Stages.{Buffered, stage, Puts};

    /// A buffer that holds nothing back. It takes no memory.
    pub fn without_room(alloc: Global) -> OutputBuffer
        ensures pending { result.pending ≡ [] }
        ensures failed { result.failed ≡ false }
    {
        OutputBuffer {
            bytes: Items::new(alloc),
            most: 0,
            failed: false,
        }
    }

    /// A buffer that holds back up to so many bytes. `NoMemory` comes where the allocator refused their room.
    pub fn with_room(alloc: Global, most: usize) -> Result<OutputBuffer, NoMemory>
        ensures pending { IfOk result (λ b. b.pending ≡ []) }
        ensures failed { IfOk result (λ b. b.failed ≡ false) }
    {
        let mut bytes = Items::new(alloc);
        bytes.reserve(most)?;
        Ok(OutputBuffer {
            bytes,
            most,
            failed: false,
        })
    }

    /// Whether a write has failed.
    pub fn has_failed(&self) -> bool
        ensures { result ≡ self.now.failed }
    {
        self.failed
    }

    // Writes what is held back.
    fn flush<O: Sink>(&mut self, out: &mut O)
        ensures puts { Puts [] (stage (O.written out.old) (O.faults out.old) self.old) (stage (O.written out.new) (O.faults out.new) self.new) }
        ensures empty { self.new.failed ≡ false → self.new.pending ≡ [] }
    {
        if self.failed {
            return;
        }
        match write_all(out, self.bytes.as_slice()) {
            Ok(()) => self.bytes.clear(),
            Err(WriteEnd::Fault { .. }) => self.failed = true,
        }
    }

    // Puts bytes behind nothing.
    fn begin<O: Sink>(&mut self, out: &mut O, bytes: &[u8])
        requires { self.old.failed ≡ false → self.old.pending ≡ [] }
        ensures { Puts bytes.now (stage (O.written out.old) (O.faults out.old) self.old) (stage (O.written out.new) (O.faults out.new) self.new) }
    {
        if self.failed {
            return;
        }
        if bytes.len() <= self.most {
            self.bytes.push_all(bytes);
            return;
        }
        if let Err(WriteEnd::Fault { .. }) = write_all(out, bytes) {
            self.failed = true;
        }
    }

    /// Puts bytes at the end. It takes no memory.
    pub fn put<O: Sink>(&mut self, out: &mut O, bytes: &[u8])
        ensures { Puts bytes.now (stage (O.written out.old) (O.faults out.old) self.old) (stage (O.written out.new) (O.faults out.new) self.new) }
    {
        if bytes.len() <= self.most - self.bytes.len() && !self.failed {
            self.bytes.push_all(bytes);
            return;
        }
        self.flush(out);
        self.begin(out, bytes);
    }

    /// Writes what is held back, and says whether each write went well. It takes no memory.
    pub fn finish<O: Sink>(&mut self, out: &mut O) -> Result<(), Failed>
        ensures puts { Puts [] (stage (O.written out.old) (O.faults out.old) self.old) (stage (O.written out.new) (O.faults out.new) self.new) }
        ensures empty { OnOk result (self.new.pending ≡ []) }
        ensures failed { self.new.failed ≡ is_err result }
    {
        self.flush(out);
        if self.failed {
            return Err(Failed);
        }
        Ok(())
    }
}
