//! Devices over readers and writers that fail, or are interrupted by a signal.
use byte_streams::{Device, Fault, Sink, Source};
use std::alloc::Global;
use std::io::{self, ErrorKind, Read, Write};

#[derive(Drop)]
struct Broken;

impl Read for Broken {
    fn read(&mut self, _to: &mut [u8]) -> io::Result<usize> {
        Err(io::Error::from(ErrorKind::Other))
    }
}

impl Write for Broken {
    fn write(&mut self, _from: &[u8]) -> io::Result<usize> {
        Err(io::Error::from(ErrorKind::Other))
    }

    fn flush(&mut self) -> io::Result<()> {
        Err(io::Error::from(ErrorKind::Other))
    }
}

/// What a read of the device answers, a write of some bytes, and a flush.
type Answers = (
    Result<usize, Fault>,
    Result<usize, Fault>,
    Result<(), Fault>,
);

const ALL_FAIL: Answers = (Err(Fault::Read), Err(Fault::Write), Err(Fault::Write));

const ALL_SUCCEED: Answers = (Ok(0), Ok(3), Ok(()));

#[test]
fn a_device_over_what_fails_fails_each_time(rt: HostRuntime) {
    let mut device = Device::new(Broken);
    let answers = (
        device.read(&mut [0; 2]),
        device.write(b"abc"),
        device.flush(),
    );
    assert!(rt; answers == ALL_FAIL);
}

/// Its first call fails, and the others succeed.
#[derive(Drop)]
struct FailsOnce {
    called: bool,
}

impl FailsOnce {
    fn call(&mut self) -> io::Result<()> {
        if self.called {
            return Ok(());
        }
        self.called = true;
        Err(io::Error::from(ErrorKind::Other))
    }
}

impl Read for FailsOnce {
    fn read(&mut self, _to: &mut [u8]) -> io::Result<usize> {
        self.call()?;
        Ok(0)
    }
}

impl Write for FailsOnce {
    fn write(&mut self, from: &[u8]) -> io::Result<usize> {
        self.call()?;
        Ok(from.len())
    }

    fn flush(&mut self) -> io::Result<()> {
        self.call()
    }
}

fn read_twice() -> (Result<usize, Fault>, Result<usize, Fault>) {
    let mut device = Device::new(FailsOnce { called: false });
    (device.read(&mut [0; 2]), device.read(&mut [0; 2]))
}

fn written_twice() -> (Result<usize, Fault>, Result<usize, Fault>) {
    let mut device = Device::new(FailsOnce { called: false });
    (device.write(b"abc"), device.write(b"abc"))
}

fn flushed_twice() -> (Result<(), Fault>, Result<(), Fault>) {
    let mut device = Device::new(FailsOnce { called: false });
    (device.flush(), device.flush())
}

#[test]
fn a_device_tries_each_call_once(rt: HostRuntime) {
    assert!(rt; read_twice() == (Err(Fault::Read), Ok(0)));
    assert!(rt; written_twice() == (Err(Fault::Write), Ok(3)));
    assert!(rt; flushed_twice() == (Err(Fault::Write), Ok(())));
}

/// Ways to fail that one might take for something else: for an end, for a call to be made again, for success.
const KINDS: [ErrorKind; 8] = [
    ErrorKind::BrokenPipe,
    ErrorKind::ConnectionReset,
    ErrorKind::Other,
    ErrorKind::OutOfMemory,
    ErrorKind::TimedOut,
    ErrorKind::UnexpectedEof,
    ErrorKind::WouldBlock,
    ErrorKind::WriteZero,
];

/// Its first call fails in this way, and the others succeed.
#[derive(Drop)]
struct FailsOnceAs {
    kind: ErrorKind,
    called: bool,
}

impl FailsOnceAs {
    fn call(&mut self) -> io::Result<()> {
        if self.called {
            return Ok(());
        }
        self.called = true;
        Err(io::Error::from(self.kind))
    }
}

impl Read for FailsOnceAs {
    fn read(&mut self, _to: &mut [u8]) -> io::Result<usize> {
        self.call()?;
        Ok(0)
    }
}

impl Write for FailsOnceAs {
    fn write(&mut self, from: &[u8]) -> io::Result<usize> {
        self.call()?;
        Ok(from.len())
    }

    fn flush(&mut self) -> io::Result<()> {
        self.call()
    }
}

/// What the first call of a device of its own answers, and what the second.
fn answers_twice(kind: ErrorKind) -> (Answers, Answers) {
    let called = false;
    let mut reader = Device::new(FailsOnceAs { kind, called });
    let mut writer = Device::new(FailsOnceAs { kind, called });
    let mut flushed = Device::new(FailsOnceAs { kind, called });
    let first = (
        reader.read(&mut [0; 2]),
        writer.write(b"abc"),
        flushed.flush(),
    );
    let second = (
        reader.read(&mut [0; 2]),
        writer.write(b"abc"),
        flushed.flush(),
    );
    (first, second)
}

#[test]
fn a_device_tells_each_kind_of_failure_at_once(rt: HostRuntime) {
    for kind in KINDS {
        assert!(rt; answers_twice(kind) == (ALL_FAIL, ALL_SUCCEED));
    }
}

/// Each call takes or gives one byte, the number of the call, but for the second, which fails.
#[derive(Drop)]
struct OneByOne {
    calls: u8,
}

impl OneByOne {
    fn call(&mut self) -> io::Result<u8> {
        self.calls = self.calls.saturating_add(1);
        if self.calls == 2 {
            return Err(io::Error::from(ErrorKind::Other));
        }
        Ok(self.calls)
    }
}

impl Read for OneByOne {
    fn read(&mut self, to: &mut [u8]) -> io::Result<usize> {
        let number = self.call()?;
        match to {
            [first, ..] => {
                *first = number;
                Ok(1)
            }
            [] => Ok(0),
        }
    }
}

impl Write for OneByOne {
    fn write(&mut self, from: &[u8]) -> io::Result<usize> {
        let _number = self.call()?;
        Ok(from.len().min(1))
    }

    fn flush(&mut self) -> io::Result<()> {
        Ok(())
    }
}

#[test]
fn a_device_does_not_go_on_after_a_short_call(rt: HostRuntime) {
    let mut reader = Device::new(OneByOne { calls: 0 });
    assert!(rt; read_into(&mut reader, *b"..") == (Ok(1), [1, b'.']));
    assert!(rt; read_into(&mut reader, *b"..") == (Err(Fault::Read), *b".."));
    assert!(rt; read_into(&mut reader, *b"..") == (Ok(1), [3, b'.']));
    let mut writer = Device::new(OneByOne { calls: 0 });
    let answers = (writer.write(b"abc"), writer.write(b"bc"));
    assert!(rt; answers == (Ok(1), Err(Fault::Write)));
    assert!(rt; writer.write(b"bc") == Ok(1));
}

/// Its first calls, this many, are interrupted by a signal, and the others succeed.
#[derive(Drop)]
struct IsInterrupted {
    times: usize,
}

impl IsInterrupted {
    fn call(&mut self) -> io::Result<()> {
        if self.times == 0 {
            return Ok(());
        }
        self.times -= 1;
        Err(io::Error::from(ErrorKind::Interrupted))
    }
}

impl Read for IsInterrupted {
    fn read(&mut self, _to: &mut [u8]) -> io::Result<usize> {
        self.call()?;
        Ok(0)
    }
}

impl Write for IsInterrupted {
    fn write(&mut self, from: &[u8]) -> io::Result<usize> {
        self.call()?;
        Ok(from.len())
    }

    fn flush(&mut self) -> io::Result<()> {
        self.call()
    }
}

/// What each call of a device of its own answers.
fn answers_after(times: usize) -> Answers {
    let mut reader = Device::new(IsInterrupted { times });
    let mut writer = Device::new(IsInterrupted { times });
    let mut flushed = Device::new(IsInterrupted { times });
    (
        reader.read(&mut [0; 2]),
        writer.write(b"abc"),
        flushed.flush(),
    )
}

#[test]
fn a_device_makes_an_interrupted_call_again(rt: HostRuntime) {
    for times in [1, 3, 1000].iter() {
        assert!(rt; answers_after(*times) == ALL_SUCCEED);
    }
}

/// What a read answers, and the room for two bytes after it.
fn read_into<R: Source>(device: &mut R, room: [u8; 2]) -> (Result<usize, Fault>, [u8; 2]) {
    let mut to = room;
    (device.read(&mut to), to)
}

#[test]
fn a_device_over_a_slice_gives_its_bytes(rt: HostRuntime) {
    let mut device = Device::new(b"abc".as_slice());
    assert!(rt; read_into(&mut device, *b"..") == (Ok(2), *b"ab"));
    assert!(rt; read_into(&mut device, *b"ab") == (Ok(1), *b"cb"));
    assert!(rt; read_into(&mut device, *b"cb") == (Ok(0), *b"cb"));
}

fn vector_takes_all(alloc: Global) -> bool {
    let mut bytes = Vec::new(alloc);
    let mut device = Device::new(&mut bytes);
    let answers = (device.write(b"abc"), device.write(b"de"), device.flush());
    answers == (Ok(3), Ok(2), Ok(())) && bytes.as_slice() == b"abcde".as_slice()
}

#[test]
fn a_device_over_a_vector_takes_all_bytes(rt: HostRuntime) {
    assert!(rt; vector_takes_all(rt.alloc()));
}

#[test]
fn a_device_over_a_full_slice_takes_nothing(rt: HostRuntime) {
    let mut room = [b'.'; 2];
    let mut device = Device::new(room.as_mut_slice());
    let answers = (device.write(b"abc"), device.write(b"c"));
    assert!(rt; answers == (Ok(2), Ok(0)) && &room == b"ab");
}
