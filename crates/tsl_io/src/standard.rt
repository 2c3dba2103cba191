//! Readers and writers of the standard library as a source and as sinks.
ghost use Rattle.std.specs.Prelude.{◌≡◌, ℕ, ◌<◌, ◌≤◌, length, List, Option, None, ⊤, IfOk, OnOk, OnErr};
ghost use Rattle.std.specs.Io.KnownBytes.{Keeps, ReadConsumes, WriteAppends};
ghost use Rattle.tsl_io.specs.Faults.{next_count, Faulted};

use crate::{Failed, Sink, Source, count_fault};
use std::io::{Read, Write};
use std::marker::Model;

/// A reader as a source, as standard input by `StdSource::new(rt.reader())`. It tells nothing of its
/// bytes, and counts each read that is an `Err`. A read into a large buffer is one read of the reader.
#[derive(Drop)]
pub struct StdSource<R> {
    reader: R,
    faults: u64,
}

impl<R> Model for StdSource<R> {
    ghost use Rattle.tsl_io.specs.Standard.{Adapted};

    ghost Value = { Adapted R };

    ghost view = { λ s. record { inner = s.reader; faults = s.faults } };
}

impl<R: Read> StdSource<R> {
    /// A source that reads from this reader. No read has failed.
    pub fn new(reader: R) -> StdSource<R>
        ensures { result ≡ record { inner = reader; faults = 0 } }
    {
        StdSource { reader, faults: 0 }
    }
}

impl<R: Read> Source for StdSource<R> {
    ghost left = { λ _. None };

    ghost faults = { λ source. source.faults };

    fn read(&mut self, buf: &mut [u8]) -> Result<usize, Failed>
        // What the reader did is what the source did.
        ensures consumes { ReadConsumes (R.remaining self.old.inner) (R.remaining self.new.inner)
            result buf.new }
        ensures fits { IfOk result (λ count. count ≤ length buf.old) }
        ensures ok_count { OnOk result (self.new.faults ≡ self.old.faults) }
        ensures err_count { OnErr result (self.new.faults ≡ next_count self.old.faults) }
        ensures cause { OnErr result (Faulted self.old.faults self.new.faults) }
    {
        match self.reader.read(buf) {
            Ok(count) => Ok(count),
            Err(_) => Err(count_fault(&mut self.faults)),
        }
    }
}

/// A writer as a sink, as standard output by `StdSink::new(rt.stdout())` and standard error by
/// `StdSink::new(rt.stderr())`. It tells nothing of its bytes. It counts each write and flush that is
/// an `Err`, and each write of some bytes that takes none.
#[derive(Drop)]
pub struct StdSink<W> {
    writer: W,
    faults: u64,
}

impl<W> Model for StdSink<W> {
    ghost use Rattle.tsl_io.specs.Standard.{Adapted};

    ghost Value = { Adapted W };

    ghost view = { λ s. record { inner = s.writer; faults = s.faults } };
}

impl<W: Write> StdSink<W> {
    /// A sink that writes to this writer. No write or flush has failed.
    pub fn new(writer: W) -> StdSink<W>
        ensures { result ≡ record { inner = writer; faults = 0 } }
    {
        StdSink { writer, faults: 0 }
    }
}

impl<W: Write> Sink for StdSink<W> {
    ghost written = { λ _. None };

    ghost flushed = { λ _. ⊤ };

    ghost faults = { λ sink. sink.faults };

    fn write(&mut self, piece: &[u8]) -> Result<usize, Failed>
        // What the writer did is what the sink did.
        ensures appends { WriteAppends (W.contents self.old.inner) (W.contents self.new.inner)
            result piece.now }
        ensures fits { IfOk result (λ count. count ≤ length piece.now) }
        ensures progress { IfOk result (λ count. 0 < length piece.now → 0 < count) }
        ensures ok_count { OnOk result (self.new.faults ≡ self.old.faults) }
        ensures err_count { OnErr result (self.new.faults ≡ next_count self.old.faults) }
        ensures cause { OnErr result (Faulted self.old.faults self.new.faults) }
    {
        match self.writer.write(piece) {
            Ok(count) if count > 0 || piece.is_empty() => Ok(count),
            _ => Err(count_fault(&mut self.faults)),
        }
    }

    fn flush(&mut self) -> Result<(), Failed>
        ensures keeps { Keeps (W.contents self.old.inner) (W.contents self.new.inner) }
        ensures ok_count { OnOk result (self.new.faults ≡ self.old.faults) }
        ensures err_count { OnErr result (self.new.faults ≡ next_count self.old.faults) }
        ensures cause { OnErr result (Faulted self.old.faults self.new.faults) }
    {
        match self.writer.flush() {
            Ok(()) => Ok(()),
            Err(_) => Err(count_fault(&mut self.faults)),
        }
    }
}

#[cfg(test)]
mod tests {
    use super::*;
    use crate::{ReadError, read_all, write_all_of};
    use std::io;
    use std::test::Fail;

    /// Fails once, and then gives its bytes.
    #[derive(Drop)]
    struct Flaky {
        bytes: &'static [u8],
        fails: bool,
    }

    impl Read for Flaky {
        fn read(&mut self, buf: &mut [u8]) -> io::Result<usize> {
            if self.fails {
                self.fails = false;
                return Err(io::Error::other("broken"));
            }
            self.bytes.read(buf)
        }
    }

    #[derive(Clone, Copy)]
    enum Trouble {
        Nowhere,
        AtWrite,
        TakesNothing,
        AtFlush,
    }

    /// Takes two bytes a call, and counts its flushes.
    #[derive(Drop)]
    struct Recorder {
        bytes: Vec<u8>,
        flushes: u8,
        trouble: Trouble,
    }

    impl Write for Recorder {
        fn write(&mut self, buf: &[u8]) -> io::Result<usize> {
            match self.trouble {
                Trouble::AtWrite => return Err(io::Error::other("broken")),
                Trouble::TakesNothing => return Ok(0),
                Trouble::Nowhere | Trouble::AtFlush => {}
            }
            let count = buf.len().min(2);
            self.bytes.extend_from_slice(&buf[..count])?;
            Ok(count)
        }

        fn flush(&mut self) -> io::Result<()> {
            self.flushes = self.flushes.saturating_add(1);
            match self.trouble {
                Trouble::AtFlush => Err(io::Error::other("broken")),
                _ => Ok(()),
            }
        }
    }

    #[test]
    fn a_reader_that_fails_is_counted_and_reads_on(rt: HostRuntime) -> Result<(), Fail> {
        let mut source = StdSource::new(Flaky {
            bytes: b"hello",
            fails: true,
        });
        let fault = read_all(rt.alloc(), &mut source, 9);
        assert_eq!(rt; fault.err(), Some(ReadError::Fault));
        assert_eq!(rt; source.faults, 1);
        let text = read_all(rt.alloc(), &mut source, 9)?;
        assert_eq!(rt; text.as_slice(), b"hello".as_slice());
        assert_eq!(rt; source.faults, 1);
        Ok(())
    }

    #[test]
    fn writes_and_flushes_reach_the_writer_and_its_failures_are_counted(
        rt: HostRuntime,
    ) -> Result<(), Fail> {
        let table: [(Trouble, Result<(), Failed>, &[u8], u8, u64); 4] = [
            (Trouble::Nowhere, Ok(()), b"hello", 1, 0),
            (Trouble::AtWrite, Err(Failed), b"", 0, 1),
            (Trouble::TakesNothing, Err(Failed), b"", 0, 1),
            (Trouble::AtFlush, Err(Failed), b"hello", 1, 1),
        ];
        for (trouble, answer, bytes, flushes, faults) in table {
            let mut sink = StdSink::new(Recorder {
                bytes: Vec::new(rt.alloc()),
                flushes: 0,
                trouble,
            });
            assert_eq!(rt; write_all_of(&mut sink, b"hello"), answer);
            assert_eq!(rt; sink.faults, faults);
            let StdSink { writer, faults: _ } = sink;
            assert_eq!(rt; writer.bytes.as_slice(), bytes);
            assert_eq!(rt; writer.flushes, flushes);
        }
        Ok(())
    }

    #[test]
    fn the_streams_of_the_process_read_write_and_flush(rt: HostRuntime) -> Result<(), Fail> {
        // A test's standard input is at its end.
        let mut source = StdSource::new(rt.reader());
        assert_eq!(rt; read_all(rt.alloc(), &mut source, 0)?.len(), 0);
        let mut out = StdSink::new(rt.stdout());
        assert_eq!(rt; write_all_of(&mut out, b"to standard output\n"), Ok(()));
        assert_eq!(rt; out.flush(), Ok(()));
        let mut err = StdSink::new(rt.stderr());
        assert_eq!(rt; write_all_of(&mut err, b"to standard error\n"), Ok(()));
        assert_eq!(rt; err.flush(), Ok(()));
        Ok(())
    }
}
