//! A line as a sink.
ghost use Rattle.std.specs.Prelude.{◌≡◌, ◌≤◌, Some, length, IfErr, IfOk, OnOk};
ghost use Rattle.std.specs.Io.KnownBytes.{Keeps, WriteAppends};
ghost use Rattle.byte_streams.specs.Failures.{after_call, after_write};

use byte_streams::{Fault, Line, Sink};

/// A line to whose end is put what is written. A write fails where memory is out.
#[derive(Drop)]
pub(super) struct LineSink {
    line: Line,
    failures: u64,
}

impl LineSink {
    pub(super) fn new(line: Line) -> LineSink
        ensures { result.line ≡ line }
    {
        LineSink { line, failures: 0 }
    }

    pub(super) fn into_line(self) -> Line
        ensures { result ≡ self.line }
    {
        self.line
    }
}

impl Sink for LineSink {
    ghost taken = { λ sink. Some sink.line };

    ghost is_flushed = { λ _. Unit {0} };

    ghost failures = { λ sink. sink.failures };

    fn write(&mut self, from: &[u8]) -> Result<usize, Fault> {
        match self.line.append(from) {
            Ok(()) => Ok(from.len()),
            Err(_) => {
                self.failures = self.failures.saturating_add(1);
                Err(Fault::Write)
            }
        }
    }

    fn flush(&mut self) -> Result<(), Fault> {
        Ok(())
    }
}
