//! How far a tile is read ahead of what was written.
use crate::devices::LineReader;
use crate::merging::{PLAIN, merges_in_turn};
use byte_streams::Device;
use std::alloc::{AllocError, Global};
use std::io::{self, ErrorKind, Write};
use std::sync::atomic::AtomicU64;
use std::sync::atomic::Ordering::SeqCst;

/// It fails where at a write the tile has given more features than lines were written, by more than
/// two. The first read of the tile gives its header.
#[derive(Drop)]
struct Follower<'a> {
    reads: &'a AtomicU64,
    lines: u64,
}

impl<'a> Write for Follower<'a> {
    fn write(&mut self, from: &[u8]) -> io::Result<usize> {
        let features = self.reads.load(SeqCst).saturating_sub(1);
        if features > self.lines.saturating_add(2) {
            return Err(io::Error::from(ErrorKind::Other));
        }
        for byte in from {
            if *byte == b'\n' {
                self.lines = self.lines.saturating_add(1);
            }
        }
        Ok(from.len())
    }

    fn flush(&mut self) -> io::Result<()> {
        Ok(())
    }
}

/// How often a tile of a hundred features is read.
fn reads(alloc: Global) -> Result<Option<u64>, AllocError> {
    let reads = AtomicU64::new(0);
    let mut tiles = Vec::new(alloc);
    tiles.push(Device::new(LineReader {
        feature: "A1",
        lines: 101,
        reads: &reads,
        failing: None,
    }))?;
    let mut output = Device::new(Follower {
        reads: &reads,
        lines: 0,
    });
    let is_told = merges_in_turn(alloc, tiles, (&PLAIN, 1), &mut output, "[100]");
    Ok(is_told.then_some(reads.load(SeqCst)))
}

#[test]
fn a_tile_is_not_read_ahead_of_what_is_held(rt: HostRuntime) {
    assert!(rt; reads(rt.alloc()) == Ok(Some(102)));
}
