//! Documents of many features, and outputs that fail.

use crate::devices::NOT_WRITTEN;
use crate::interleaving::written_with_threads;
use crate::merging::{PLAIN, Way, stream_of, with_room, writes_in_turn};
use crate::texts::text;
use byte_streams::Fault;
use std::alloc::{AllocError, AllocGlobal, Global};
use std::process::Abort;
use std::sync::Wait;
use std::thread::Threads;

/// How many features a large document has.
const COUNT: u32 = 200;

fn put_object(
    objects: &mut String,
    alloc: Global,
    name: &str,
    number: u32,
) -> Result<(), AllocError> {
    if number > 0 {
        objects.push(',')?;
    }
    objects.push_str(&format!(in alloc; "\"{name}{number}\":{{\"type\":\"Building\"}}")?)
}

/// A document after `HEADER` of so many city objects, each a feature, whose names begin so.
fn document_of(alloc: Global, name: &str) -> Result<String, AllocError> {
    let mut objects = String::from_str(alloc, "\"CityObjects\":{")?;
    for number in 0..COUNT {
        put_object(&mut objects, alloc, name, number)?;
    }
    text("HEADER").replace(alloc, "\"CityObjects\":{", &objects)
}

const FEATURE: &str =
    r#"{"type":"CityJSONFeature","id":"NAME","CityObjects":{"NAME":{"type":"Building"}},"vertices":[]}"#;

/// Adds one of the features that it is cut into.
fn put_feature(
    stream: &mut String,
    alloc: Global,
    name: &str,
    number: u32,
) -> Result<(), AllocError> {
    let name = format!(in alloc; "{name}{number}")?;
    stream.push_str(&FEATURE.replace(alloc, "NAME", &name)?)?;
    stream.push('\n')
}

/// The stream of two such documents in turn, each with a line after it.
fn turns_of(alloc: Global) -> Result<String, AllocError> {
    let mut stream = stream_of(alloc, "HEADER")?;
    for number in 0..COUNT {
        put_feature(&mut stream, alloc, "m", number)?;
        put_feature(&mut stream, alloc, "n", number)?;
    }
    stream.push_str(&stream_of(alloc, "A1 B1")?)?;
    Ok(stream)
}

/// Two such documents, each with a line after it.
fn two_tiles(alloc: Global) -> Result<String, AllocError> {
    let document = document_of(alloc, "m")?;
    let other = document_of(alloc, "n")?;
    format!(in alloc; "{document} A1 | {other} B1")
}

/// A document may have more features than are held.
fn large_take_turns(alloc: Global) -> Result<bool, AllocError> {
    let tiles = two_tiles(alloc)?;
    let written = turns_of(alloc)?;
    let bytes = written.as_bytes();
    let mut agree = true;
    for capacity in [1u32, 3, 64, 1024] {
        let way = with_room(capacity, 10_000, true);
        agree = agree
            && writes_in_turn(alloc, (&PLAIN, &way), &tiles, bytes, "[201, 201]") == Ok(true);
    }
    Ok(agree)
}

fn has_length<H>(rt: &H, way: &Way, tiles: &str, answer: &str, length: usize) -> bool
where
    H: Abort + AllocGlobal + Threads + Wait + Copy + Send + 'static,
{
    match written_with_threads(rt, (&PLAIN, way), tiles, answer) {
        Ok(Some(output)) => output.bytes().len() == length,
        _ => false,
    }
}

fn large_run_beside<H>(rt: &H) -> Result<bool, AllocError>
where
    H: Abort + AllocGlobal + Threads + Wait + Copy + Send + 'static,
{
    let tiles = two_tiles(rt.alloc())?;
    let length = turns_of(rt.alloc())?.len();
    Ok(
        has_length(rt, &with_room(1, 500, true), &tiles, "[201, 201]", length)
            && has_length(rt, &with_room(64, 500, true), &tiles, "[201, 201]", length),
    )
}

#[test]
fn large_documents_take_turns(rt: HostRuntime) {
    assert!(rt; large_take_turns(rt.alloc()) == Ok(true));
    assert!(rt; large_run_beside(&rt) == Ok(true));
}

fn front_is_written(alloc: Global, room: usize) -> Result<bool, Fault> {
    let stream = stream_of(alloc, "HEADER X BUILDING Y B1 Z A1")?;
    let way = Way {
        room,
        write: 4096,
        ..with_room(1, 500, true)
    };
    let bytes = stream.as_bytes();
    let front = &bytes[..room.min(bytes.len())];
    writes_in_turn(
        alloc,
        (&PLAIN, &way),
        "POINTS A1 | DOCUMENT B1",
        front,
        NOT_WRITTEN,
    )
}

const ROOMS: [usize; 11] = [0, 1, 128, 129, 130, 300, 305, 500, 700, 900, 1100];

#[test]
fn a_failed_write_leaves_the_front_of_a_stream_of_documents(rt: HostRuntime) {
    for room in ROOMS.iter() {
        assert!(rt; front_is_written(rt.alloc(), *room) == Ok(true), "{room}");
    }
}

/// Three tiles that begin with a document, of which the last is faulty.
fn three_tiles(alloc: Global) -> Result<String, AllocError> {
    let document = document_of(alloc, "m")?;
    format!(in alloc; "{document} A1 | {document} | {document} {{")
}

fn are_drained<H>(rt: &H, capacity: u32) -> Result<bool, AllocError>
where
    H: Abort + AllocGlobal + Threads + Wait + Copy + Send + 'static,
{
    let tiles = three_tiles(rt.alloc())?;
    let way = Way {
        room: 200,
        write: 200,
        ..with_room(capacity, 500, true)
    };
    Ok(has_length(rt, &way, &tiles, NOT_WRITTEN, 200))
}

#[test]
fn documents_are_drained_after_a_failed_write(rt: HostRuntime) {
    assert!(rt; are_drained(&rt, 1) == Ok(true));
    assert!(rt; are_drained(&rt, 64) == Ok(true));
}
