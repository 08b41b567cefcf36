//! A tile is written and passed on while it is read, and little of it is held.
ghost use Rattle.std.specs.Prelude.{◌≤◌, length};

use crate::texts::{FEATURE_A, HEADER, choice_of, is_told, stream_of};
use byte_streams::Device;
use city_feature::Choice;
use std::alloc::{AllocError, Global};
use std::io::{self, ErrorKind, Read, Write};
use std::sync::atomic::AtomicU64;
use std::sync::atomic::Ordering::SeqCst;
use tile_stream::filter_stream;

/// Gives so many lines, one a read: the header and then features. A read fails where it comes before the
/// first `owed` bytes of what was given were passed on.
#[derive(Drop)]
struct LineTeller<'a> {
    lines: u64,
    given: &'a AtomicU64,
    passed_on: &'a AtomicU64,
    owed: u64,
}

impl<'a> Read for LineTeller<'a> {
    fn read(&mut self, to: &mut [u8]) -> io::Result<usize> {
        let given = self.given.load(SeqCst);
        if self.passed_on.load(SeqCst) < given.min(self.owed) {
            return Err(io::Error::from(ErrorKind::Other));
        }
        if self.lines == 0 {
            return Ok(0);
        }
        self.lines -= 1;
        let count = put_line(if given == 0 { HEADER } else { FEATURE_A }, to);
        self.given.fetch_add(count as u64, SeqCst);
        Ok(count)
    }
}

/// Puts a line at the start of `to`, where there is room for it, and answers its length.
fn put_line(text: &str, to: &mut [u8]) -> usize
    ensures { result ≤ length to.new }
{
    let bytes = text.as_bytes();
    if to.len() <= bytes.len() {
        return 0;
    }
    to[..bytes.len()].copy_from_slice(bytes);
    to[bytes.len()] = b'\n';
    bytes.len() + 1
}

/// Gives as many bytes as are asked for and left.
#[derive(Drop)]
struct PieceTeller<'a> {
    left: &'a [u8],
    given: &'a AtomicU64,
}

impl<'a> Read for PieceTeller<'a> {
    fn read(&mut self, to: &mut [u8]) -> io::Result<usize> {
        let count = to.len().min(self.left.len());
        to[..count].copy_from_slice(&self.left[..count]);
        self.left = &self.left[count..];
        self.given.fetch_add(count as u64, SeqCst);
        Ok(count)
    }
}

/// It says how many bytes it has passed on. A write fails where more bytes were given than written, by
/// more than so many.
#[derive(Drop)]
struct Follower<'a> {
    written: u64,
    given: &'a AtomicU64,
    passed_on: &'a AtomicU64,
    most: u64,
}

impl<'a> Write for Follower<'a> {
    fn write(&mut self, from: &[u8]) -> io::Result<usize> {
        if self.given.load(SeqCst) > self.written.saturating_add(self.most) {
            return Err(io::Error::from(ErrorKind::Other));
        }
        self.written = self.written.saturating_add(from.len() as u64);
        Ok(from.len())
    }

    fn flush(&mut self) -> io::Result<()> {
        self.passed_on.store(self.written, SeqCst);
        Ok(())
    }
}

/// How much of a stream of a hundred features is passed on where each line is owed before the next is asked for, or the
/// header alone.
fn passed_on(alloc: Global, choice: &Choice, owed: u64, answer: &str) -> Option<u64> {
    let given = AtomicU64::new(0);
    let passed_on = AtomicU64::new(0);
    let reader = Device::new(LineTeller {
        lines: 101,
        given: &given,
        passed_on: &passed_on,
        owed,
    });
    let mut output = Device::new(Follower {
        written: 0,
        given: &given,
        passed_on: &passed_on,
        most: 129,
    });
    let found = filter_stream(alloc, reader, choice, &mut output);
    is_told(alloc, found, answer).then_some(passed_on.load(SeqCst))
}

fn types_flow(alloc: Global, names: &str, owed: u64, answer: &str) -> Option<u64> {
    match choice_of(alloc, names, "", false) {
        Ok(choice) => passed_on(alloc, &choice, owed, answer),
        Err(_) => None,
    }
}

/// Each line is passed on before the next is asked for; of features that are not chosen, the header.
#[test]
fn flow(rt: HostRuntime) {
    let features = (FEATURE_A.len() as u64 + 1) * 100;
    let header = HEADER.len() as u64 + 1;
    assert!(rt; types_flow(rt.alloc(), "", u64::MAX, "100") == Some(header + features));
    assert!(rt; types_flow(rt.alloc(), "Road", header, "0") == Some(header));
}

/// A stream of ten thousand features.
fn long_stream(alloc: Global) -> Result<String, AllocError> {
    let mut stream = stream_of(alloc, "HEADER")?;
    stream.push_str(&stream_of(alloc, "A")?.repeat(alloc, 10_000)?)?;
    Ok(stream)
}

/// How much of it is passed on, where no more is given than one read of 64 KiB beside the line that is written.
fn passed_on_of_bytes(alloc: Global, stream: &[u8]) -> Option<u64> {
    let given = AtomicU64::new(0);
    let passed_on = AtomicU64::new(0);
    let reader = Device::new(PieceTeller {
        left: stream,
        given: &given,
    });
    let mut output = Device::new(Follower {
        written: 0,
        given: &given,
        passed_on: &passed_on,
        most: 65_537 + FEATURE_A.len() as u64,
    });
    let choice = Choice::new(None, None, false);
    let found = filter_stream(alloc, reader, &choice, &mut output);
    is_told(alloc, found, "10000").then_some(passed_on.load(SeqCst))
}

fn all_is_passed_on(alloc: Global) -> Result<bool, AllocError> {
    let stream = long_stream(alloc)?;
    Ok(passed_on_of_bytes(alloc, stream.as_bytes()) == Some(stream.len() as u64))
}

#[test]
fn bound(rt: HostRuntime) {
    assert!(rt; all_is_passed_on(rt.alloc()) == Ok(true));
}
