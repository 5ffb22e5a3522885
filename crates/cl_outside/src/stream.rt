/// A read or a write failed.
#[derive(Clone, Copy, Debug, PartialEq, Eq, Drop)]
pub struct Failed;

/// Where bytes come from, some at a time. (This project.)
pub trait Source {
    ghost use Rattle.std.specs.Prelude.{◌≡◌, ◌<◌, ◌≤◌, ℕ, List, Option, length, IfOk, OnErr};
    ghost use Rattle.cl_outside.specs.Faults.{HasCause};
    ghost use Rattle.cl_outside.specs.Streams.{Takes, EndsAt};

    /// The bytes that are left to read, where they are known.
    ghost left: { Self → Option (List ℕ) };

    /// How often a read has failed. It stands still at the last number of 64 bits.
    ghost faults: { Self → ℕ };

    /// Reads some bytes to the front of the buffer, and says how many: 0 exactly at the end.
    ///
    /// `Failed` comes only where the count of faults rose, and then no byte is lost. The same call may be
    /// made again. Nothing is said of the rest of the buffer, nor of the whole of it at `Failed`: a reader
    /// of the library may leave anything there.
    fn read(&mut self, into: &mut [u8]) -> Result<usize, Failed>
        requires { 0 < length into.old }
        ensures within { IfOk result (λ n. n ≤ length into.old) }
        ensures bytes { IfOk result (λ n. Takes n into.new (left self.old) (left self.new)) }
        ensures end { IfOk result (λ n. EndsAt n (left self.old)) }
        ensures lost { OnErr result (left self.new ≡ left self.old) }
        ensures cause { HasCause (faults self.old) (faults self.new) result };
}

/// Where bytes go, some at a time. (This project.)
pub trait Sink {
    ghost use Rattle.std.specs.Prelude.{◌≡◌, ◌<◌, ◌≤◌, ℕ, List, Option, length, take, IfOk, OnErr};
    ghost use Rattle.cl_outside.specs.Faults.{HasCause};
    ghost use Rattle.cl_outside.specs.Streams.{Appends};

    /// The bytes that were written, where they are known.
    ghost written: { Self → Option (List ℕ) };

    /// How often a write has failed. It stands still at the last number of 64 bits.
    ghost faults: { Self → ℕ };

    /// Writes some bytes from the front, and says how many: at least one.
    ///
    /// `Failed` comes only where the count of faults rose, and then nothing was written. The same call may
    /// be made again.
    fn write(&mut self, bytes: &[u8]) -> Result<usize, Failed>
        requires { 0 < length bytes.now }
        ensures some { IfOk result (λ n. 0 < n) }
        ensures within { IfOk result (λ n. n ≤ length bytes.now) }
        ensures bytes { IfOk result (λ n. Appends (written self.old) (take n bytes.now) (written self.new)) }
        ensures lost { OnErr result (written self.new ≡ written self.old) }
        ensures cause { HasCause (faults self.old) (faults self.new) result };
}
