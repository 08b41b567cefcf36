//! A source or a sink made of a reader or a writer of the standard library.
ghost use Rattle.std.specs.Prelude.{◌≡◌, ◌<◌, ◌↔◌, length, take, IsTrue, IfOk, OnErr};
ghost use Rattle.std.specs.Io.{ReadsAtMost, WritesAtMost};
ghost use Rattle.std.specs.Io.KnownBytes.{Appends, Consumes, IsAtEnd, Keeps};
ghost use Rattle.std.specs.IoError.{error_kind};

use crate::fault::Fault;
use crate::sink::Sink;
use crate::source::Source;
use std::io::{self, ErrorKind, Read, Write};

/// A source or a sink made of any reader or writer of the standard library. A call that a signal interrupted is made
/// again, and is no failure.
#[derive(Debug, Drop)]
pub struct Device<T> {
    inner: T,
    failures: u64,
}

impl<T> Device<T> {
    ghost use Rattle.byte_streams.specs.Device.{inner_of, failures_of};

    /// What reads or writes through this; nothing failed yet.
    pub fn new(inner: T) -> Device<T>
        ensures inner { inner_of result ≡ inner }
        ensures failures { failures_of result ≡ 0 }
    {
        Device { inner, failures: 0 }
    }
}

impl<T: Read> Source for Device<T> {
    ghost use Rattle.byte_streams.specs.Device.{inner_of, failures_of};
    ghost use Rattle.byte_streams.specs.Source.{MayGive, gives_something as gives_known};

    ghost gives = { λ device. MayGive (T.remaining (inner_of device)) };

    ghost failures = { failures_of };

    ghost gives_something = { λ device. gives_known (T.remaining (inner_of device)) };

    fn read(&mut self, to: &mut [u8]) -> Result<usize, Fault> {
        match read_through(&mut self.inner, to) {
            Ok(count) => Ok(count),
            Err(_) => {
                self.failures = self.failures.saturating_add(1);
                Err(Fault::Read)
            }
        }
    }
}

impl<T: Write> Sink for Device<T> {
    ghost use Rattle.byte_streams.specs.Device.{inner_of, failures_of};

    ghost taken = { λ device. T.contents (inner_of device) };

    // Of what a flush of the standard library does nothing is known.
    ghost is_flushed = { λ _. Unit {0} };

    ghost failures = { failures_of };

    fn write(&mut self, from: &[u8]) -> Result<usize, Fault> {
        match write_through(&mut self.inner, from) {
            Ok(count) => {
                if count == 0 && !from.is_empty() {
                    self.failures = self.failures.saturating_add(1);
                }
                Ok(count)
            }
            Err(_) => {
                self.failures = self.failures.saturating_add(1);
                Err(Fault::Write)
            }
        }
    }

    fn flush(&mut self) -> Result<(), Fault> {
        match flush_through(&mut self.inner) {
            Ok(()) => Ok(()),
            Err(_) => {
                self.failures = self.failures.saturating_add(1);
                Err(Fault::Write)
            }
        }
    }
}

/// One read, made again where a signal interrupted it.
fn read_through<R: Read>(reader: &mut R, to: &mut [u8]) -> io::Result<usize>
    ensures bound { ReadsAtMost result to.new }
    ensures ok { IfOk result (λ count. Consumes (R.remaining reader.old) (R.remaining reader.new) (take count to.new)) }
    ensures end { IfOk result (λ count. count ≡ 0 → 0 < length to.old → IsAtEnd (R.remaining reader.new)) }
    ensures err { OnErr result (Keeps (R.remaining reader.old) (R.remaining reader.new)) }
{
    'tries: for _ in 0..u64::MAX {
        match reader.read(to) {
            Err(error) if is_interrupted(&error) => {}
            answer => return answer,
        }
    }
    Err(io::Error::from(ErrorKind::Interrupted))
}

/// One write, made again where a signal interrupted it.
fn write_through<W: Write>(writer: &mut W, from: &[u8]) -> io::Result<usize>
    ensures bound { WritesAtMost result from.now }
    ensures ok { IfOk result (λ count. Appends (W.contents writer.old) (W.contents writer.new) (take count from.now)) }
    ensures err { OnErr result (Keeps (W.contents writer.old) (W.contents writer.new)) }
{
    'tries: for _ in 0..u64::MAX {
        match writer.write(from) {
            Err(error) if is_interrupted(&error) => {}
            answer => return answer,
        }
    }
    Err(io::Error::from(ErrorKind::Interrupted))
}

/// One flush, made again where a signal interrupted it.
fn flush_through<W: Write>(writer: &mut W) -> io::Result<()>
    ensures { Keeps (W.contents writer.old) (W.contents writer.new) }
{
    'tries: for _ in 0..u64::MAX {
        match writer.flush() {
            Err(error) if is_interrupted(&error) => {}
            answer => return answer,
        }
    }
    Err(io::Error::from(ErrorKind::Interrupted))
}

/// Whether a signal came before the call did anything.
fn is_interrupted(error: &io::Error) -> bool
    ensures { IsTrue result ↔ (error_kind error.now ≡ ErrorKind.Interrupted) }
{
    error.kind() == ErrorKind::Interrupted
}
