//! The files of tiles, opened by their paths.

use byte_streams::{Device, Fault, Source};
use command_line::paths_of;
use command_runs::{SystemFiles, open_tiles};
use std::fs::File;

/// Whether a reader gives so many of four bytes.
fn gives(reader: Option<Device<File>>, count: usize) -> bool {
    match reader {
        Some(mut reader) => reader.read(&mut [1; 4]) == Ok(count),
        None => false,
    }
}

/// Whether the first of two readers gives bytes, and the other one none.
fn are_read(mut readers: Vec<Device<File>>) -> bool {
    gives(readers.pop(), 0) && gives(readers.pop(), 4) && readers.is_empty()
}

#[test]
fn files_are_opened_in_order_and_nothing_is_read_yet(rt: HostRuntime) -> Result<(), Fault> {
    let paths = paths_of(rt.alloc(), &["/dev/zero", "/dev/null"])?;
    let are_right = match open_tiles(rt.alloc(), &SystemFiles::new(rt), &paths) {
        Ok(readers) => are_read(readers),
        Err(_) => false,
    };
    assert!(rt; are_right);
    Ok(())
}
