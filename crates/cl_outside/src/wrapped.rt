use crate::{Failed, Sink, Source};
use std::io::{Read, Write};
use std::marker::Model;

/// A reader of the library as a source. Each error that it gives, also at an interrupted call, raises the
/// count of faults.
///
/// Contracts see the reader and the count. As a source it tells nothing of its bytes.
#[derive(Drop)]
pub struct ReaderSource<R> {
    reader: R,
    faults: u64,
}

impl<R> Model for ReaderSource<R> {
    ghost use Rattle.cl_outside.specs.Wrapped.{Wrapped, wrapped_code};

    ghost Value = { Wrapped R };

    ghost coded = { wrapped_code R.code };

    ghost view = { λ s. record { inner = s.reader; faults = s.faults } };
}

impl<R> ReaderSource<R> {
    ghost use Rattle.std.specs.Prelude.{◌≡◌};
    ghost use Rattle.cl_outside.specs.Wrapped.{Wrapped};

    /// A source of what the reader gives.
    pub fn new(reader: R) -> ReaderSource<R>
        ensures reader { result.inner ≡ reader }
        ensures faults { result.faults ≡ 0 }
    {
        ReaderSource { reader, faults: 0 }
    }

    /// The reader again.
    pub fn into_inner(self) -> R
        ensures { result ≡ self.inner }
    {
        let ReaderSource { reader, faults: _ } = self;
        reader
    }
}

impl<R: Read + Drop> Source for ReaderSource<R> {
    ghost use Rattle.std.specs.Prelude.{◌≡◌, ◌<◌, ◌≤◌, length, IfOk, OnErr, None};
    ghost use Rattle.std.specs.Io.KnownBytes.{ReadConsumes};
    ghost use Rattle.cl_outside.specs.Faults.{HasCause, raised};
    ghost use Rattle.cl_outside.specs.Wrapped.{Wrapped};

    ghost left = { λ _. None };

    ghost faults = { λ s. s.faults };

    /// One read of the reader. `given` is what the library says of the bytes of a reader that tells them.
    fn read(&mut self, into: &mut [u8]) -> Result<usize, Failed>
        requires { 0 < length into.old }

        ensures within { IfOk result (λ n. n ≤ length into.old) }
        ensures cause { HasCause self.old.faults self.new.faults result }

        ensures given { ReadConsumes (R.remaining self.old.inner) (R.remaining self.new.inner) result into.new }
        ensures fault { OnErr result (self.new.faults ≡ raised self.old.faults) }
    {
        match self.reader.read(into) {
            Ok(count) => Ok(count),
            Err(_) => {
                self.faults = self.faults.saturating_add(1);
                Err(Failed)
            }
        }
    }
}

/// A writer of the library as a sink. Each error that it gives, also at an interrupted call, raises the
/// count of faults, and so does a write that takes nothing.
///
/// It never flushes: the writer should keep no bytes back, as the standard output keeps none. Contracts see
/// the writer and the count. As a sink it tells nothing of its bytes.
#[derive(Drop)]
pub struct WriterSink<W> {
    writer: W,
    faults: u64,
}

impl<W> Model for WriterSink<W> {
    ghost use Rattle.cl_outside.specs.Wrapped.{Wrapped, wrapped_code};

    ghost Value = { Wrapped W };

    ghost coded = { wrapped_code W.code };

    ghost view = { λ s. record { inner = s.writer; faults = s.faults } };
}

impl<W> WriterSink<W> {
    ghost use Rattle.std.specs.Prelude.{◌≡◌};
    ghost use Rattle.cl_outside.specs.Wrapped.{Wrapped};

    /// A sink that gives the writer what it is given.
    pub fn new(writer: W) -> WriterSink<W>
        ensures writer { result.inner ≡ writer }
        ensures faults { result.faults ≡ 0 }
    {
        WriterSink { writer, faults: 0 }
    }

    /// The writer again.
    pub fn into_inner(self) -> W
        ensures { result ≡ self.inner }
    {
        let WriterSink { writer, faults: _ } = self;
        writer
    }
}

impl<W: Write + Drop> Sink for WriterSink<W> {
    ghost use Rattle.std.specs.Prelude.{◌≡◌, ◌<◌, ◌≤◌, length, IfOk, OnErr, None};
    ghost use Rattle.std.specs.Io.KnownBytes.{WriteAppends};
    ghost use Rattle.cl_outside.specs.Faults.{HasCause, raised};
    ghost use Rattle.cl_outside.specs.Wrapped.{Wrapped};

    ghost written = { λ _. None };

    ghost faults = { λ s. s.faults };

    /// One write of the writer. `given` is what the library says of the bytes of a writer that tells them.
    fn write(&mut self, bytes: &[u8]) -> Result<usize, Failed>
        requires { 0 < length bytes.now }

        ensures some { IfOk result (λ n. 0 < n) }
        ensures within { IfOk result (λ n. n ≤ length bytes.now) }
        ensures cause { HasCause self.old.faults self.new.faults result }

        ensures given { WriteAppends (W.contents self.old.inner) (W.contents self.new.inner) result bytes.now }
        ensures fault { OnErr result (self.new.faults ≡ raised self.old.faults) }
    {
        match self.writer.write(bytes) {
            Ok(count) if count > 0 => Ok(count),
            _ => {
                self.faults = self.faults.saturating_add(1);
                Err(Failed)
            }
        }
    }
}
