//! Faults, readers and writers, JSON values and texts.

use byte_streams::{
    Bin, Device, Fault, Line, LineFault, MergeFault, Sequence, Sink, Source, Tape, write_all,
};
use city_json::{Json, NumText, Str, Workspace, compact_object, print, read, same};
use growth_support::{give, take};
use std::alloc::Global;

/// A number of the table, its fault and what is said of it.
const FAULTS: [(u8, Fault, &str); 3] = [
    (1, Fault::NoHeader, "the stream has no header line"),
    (26, Fault::Memory, "there is not enough memory"),
    (32, Fault::BoundaryIndex, "a boundary index is wrong"),
];

fn is_fault(fault: Fault, number: u8, text: &str) -> bool {
    fault.number() == number && Fault::of(number) == Some(fault) && fault.text() == text
}

#[test]
fn faults_are_numbered(rt: HostRuntime) {
    let gone = take(rt.alloc());
    for (number, fault, text) in FAULTS.iter() {
        assert!(rt; is_fault(*fault, *number, text), "{text}");
    }
    assert!(rt; Fault::of(0).is_none() && Fault::of(33).is_none());
    assert!(rt; give(rt.alloc(), gone));
}

fn is_placed(placed: MergeFault, tile: u32, line: u64) -> bool {
    (placed.tile, placed.line, placed.fault) == (tile, line, Fault::Read)
}

#[test]
fn faults_are_placed(rt: HostRuntime) {
    let gone = take(rt.alloc());
    let at = LineFault {
        line: 2,
        fault: Fault::Read,
    };
    assert!(rt; is_placed(at.of_tile(3), 3, 2));
    assert!(rt; is_placed(MergeFault::of_line(2, Fault::Read), 1, 2));
    assert!(rt; is_placed(MergeFault::of_no_line(Fault::Read), 0, 0));
    assert!(rt; give(rt.alloc(), gone));
}

fn tape_gives(tape: &mut Tape) -> bool {
    let mut piece = [0u8; 4];
    let first = tape.read(&mut piece) == Ok(3) && piece == [b'a', b'b', b'c', 0];
    let second = tape.read(&mut piece[..1]) == Ok(1) && piece[0] == b'd';
    let third = tape.read(&mut piece) == Ok(1) && piece[0] == b'e';
    first && second && third && tape.read(&mut piece) == Err(Fault::Read)
}

fn tape_is_read(alloc: Global) -> Result<bool, Fault> {
    let mut tape = Tape::new(Line::from_vec(b"abcde".to_vec(alloc)?), 3, true);
    let gone = take(alloc);
    let gives = tape_gives(&mut tape);
    Ok(give(alloc, gone) && gives)
}

fn bin_takes(bin: &mut Bin) -> bool {
    let first = bin.write(b"abcde") == Ok(4);
    let second = write_all(bin, b"efg") == Err(Fault::Write);
    let third = bin.flush() == Err(Fault::Write);
    first && second && third && bin.bytes() == b"abcdef".as_slice()
}

fn bin_is_written_to(alloc: Global) -> Result<bool, Fault> {
    let mut bin = Bin::new(alloc, 6, 4, true)?;
    let gone = take(alloc);
    let takes = bin_takes(&mut bin);
    Ok(give(alloc, gone) && takes)
}

fn device_gives(bytes: &[u8]) -> bool {
    let mut reader = Device::new(bytes);
    let mut piece = [0u8; 4];
    let first = reader.read(&mut piece) == Ok(2) && piece == [b'a', b'b', 0, 0];
    first && reader.read(&mut piece) == Ok(0)
}

fn device_takes(room: Vec<u8>) -> bool {
    let mut writer = Device::new(room);
    writer.write(b"abc") == Ok(3) && writer.flush() == Ok(())
}

fn devices_read_and_write(alloc: Global) -> Result<bool, Fault> {
    let mut room: Vec<u8> = Vec::with_capacity(alloc, 8)?;
    room.push(b'x')?;
    let gone = take(alloc);
    let takes = device_takes(room);
    let gives = device_gives(b"ab");
    Ok(give(alloc, gone) && takes && gives)
}

#[test]
fn bytes_are_read_and_written(rt: HostRuntime) -> Result<(), Fault> {
    assert!(rt; tape_is_read(rt.alloc())?);
    assert!(rt; bin_is_written_to(rt.alloc())?);
    assert!(rt; devices_read_and_write(rt.alloc())?);
    Ok(())
}

/// Whether a line keeps its bytes, is cut to two of them and has room for the third.
fn is_line(bytes: Vec<u8>) -> bool {
    let mut line = Line::from_vec(bytes);
    let is_whole = line.items() == b"abc".as_slice();
    line.truncate(2);
    let is_cut = line.items() == b"ab".as_slice();
    let has_room = line.append(b"c").is_ok();
    let bytes = line.into_vec();
    is_whole && is_cut && has_room && bytes.as_slice() == b"abc".as_slice()
}

fn is_list(numbers: Vec<u64>) -> bool {
    let list = Sequence::from_vec(numbers);
    let is_whole = list.items() == [3u64, 1, 2].as_slice();
    let numbers = list.into_vec();
    is_whole && numbers.as_slice() == [3u64, 1, 2].as_slice()
}

fn are_empty(alloc: Global) -> bool {
    let none: Sequence<u64> = Sequence::new(alloc);
    none.items().is_empty() && Line::new(alloc).items().is_empty()
}

fn lists_are_made_of_vectors(alloc: Global) -> Result<bool, Fault> {
    let bytes = b"abc".to_vec(alloc)?;
    let numbers = vec![in alloc; 3u64, 1, 2]?;
    let gone = take(alloc);
    let (is_line, is_list) = (is_line(bytes), is_list(numbers));
    let are_empty = are_empty(alloc);
    Ok(give(alloc, gone) && is_line && is_list && are_empty)
}

#[test]
fn lines_and_lists_are_made_of_vectors(rt: HostRuntime) -> Result<(), Fault> {
    assert!(rt; lists_are_made_of_vectors(rt.alloc())?);
    Ok(())
}

/// Whether a text is refused with this fault before memory is asked for.
fn is_refused(alloc: Global, text: &[u8], fault: Fault) -> bool {
    let gone = take(alloc);
    let is_so = match read(alloc, text) {
        Ok(_) => false,
        Err(other) => other == fault,
    };
    give(alloc, gone) && is_so
}

/// So many brackets that open, and then so many that close.
fn nest_is_refused(alloc: Global, opened: usize, closed: usize) -> Result<bool, Fault> {
    let mut text = "[".repeat(alloc, opened)?;
    text.push_str(&"]".repeat(alloc, closed)?)?;
    Ok(is_refused(alloc, text.as_bytes(), Fault::TooDeep))
}

#[test]
fn texts_are_refused_before_they_are_read(rt: HostRuntime) -> Result<(), Fault> {
    let alloc = rt.alloc();
    assert!(rt; nest_is_refused(alloc, 129, 0)?);
    assert!(rt; nest_is_refused(alloc, 129, 129)?);
    assert!(rt; nest_is_refused(alloc, 1_048_576, 0)?);
    for text in [b"\xff".as_slice(), b"[\"\xc3\"]", b"[[[[\xed\xa0\x80"].iter() {
        assert!(rt; is_refused(alloc, text, Fault::NotUtf8));
    }
    Ok(())
}

/// Whether a value is the list of the number 1.0 and a text of two lines.
fn is_pair(value: Option<&Json>) -> bool {
    let Some(Json::List(items)) = value else {
        return false;
    };
    match items.as_slice() {
        [Json::Num(number), Json::Text(text)] => {
            number.as_bytes() == b"1.0".as_slice() && text.as_str() == "x\ny"
        }
        _ => false,
    }
}

fn members_are_found(value: &Json) -> bool {
    matches!(value.get(""), Some(Json::Null))
        && value.get("c").is_none()
        && is_pair(value.get("a"))
        && Json::Null.get("a").is_none()
}

const VALUE: &[u8] = br#"{"a":[1.0,"x\ny"],"b":{},"":null}"#;

fn has_members(alloc: Global) -> Result<bool, Fault> {
    let value = read(alloc, VALUE)?;
    let gone = take(alloc);
    let are_found = members_are_found(&value);
    Ok(give(alloc, gone) && are_found)
}

/// Whether a text is that of the value, or of another.
fn is_compared(alloc: Global, text: &[u8], is_equal: bool) -> Result<bool, Fault> {
    let value = read(alloc, VALUE)?;
    let other = read(alloc, text)?;
    let gone = take(alloc);
    let is_same = same(&value, &other);
    Ok(give(alloc, gone) && is_same == is_equal)
}

#[test]
fn members_are_found_and_values_compared(rt: HostRuntime) -> Result<(), Fault> {
    let equal = br#" {"\u0061": [1.0, "x\u000ay"], "b": { }, "": null} "#;
    let other = br#"{"a":[1.00,"x\ny"],"b":{},"":null}"#;
    assert!(rt; has_members(rt.alloc())?);
    assert!(rt; is_compared(rt.alloc(), equal, true)?);
    assert!(rt; is_compared(rt.alloc(), other, false)?);
    Ok(())
}

fn is_lent(number: &NumText) -> bool {
    let parts = number.parts();
    number.as_bytes() == b"-0.0010000000474974513e+12".as_slice()
        && parts.whole == b"0".as_slice()
        && parts.fraction == b"0010000000474974513".as_slice()
}

fn number_is_lent(alloc: Global) -> Result<bool, Fault> {
    let number = NumText::read(alloc, b"-0.0010000000474974513e+12")?;
    let gone = take(alloc);
    let is_lent = is_lent(&number);
    Ok(give(alloc, gone) && is_lent)
}

fn text_is_lent(alloc: Global) -> Result<bool, Fault> {
    let long = "https://www.opengis.net/def/crs/EPSG/0/7415";
    let text = Str::read(alloc, long)?;
    let gone = take(alloc);
    let is_lent = text.as_str() == long;
    Ok(give(alloc, gone) && is_lent)
}

/// Texts that are no numbers.
const NO_NUMBERS: [&str; 6] = [
    "",
    "1.",
    "+1",
    "01",
    "1e",
    "12345678901234567890123456789012345678901234567890.",
];

fn is_no_number(alloc: Global, text: &str) -> bool {
    let gone = take(alloc);
    let is_none = match NumText::read(alloc, text.as_bytes()) {
        Ok(_) => false,
        Err(fault) => fault == Fault::Syntax,
    };
    give(alloc, gone) && is_none
}

#[test]
fn numbers_and_texts_are_lent(rt: HostRuntime) -> Result<(), Fault> {
    assert!(rt; number_is_lent(rt.alloc())?);
    assert!(rt; text_is_lent(rt.alloc())?);
    for text in NO_NUMBERS.iter() {
        assert!(rt; is_no_number(rt.alloc(), text), "{text}");
    }
    Ok(())
}

/// Texts of values that are no objects, in which there is no name and no string with an escape, and their faults.
const WITHOUT_NAMES: [(&str, Option<Fault>); 6] = [
    (r#"[[1,-2.5e3,[true]],"café",null,{}]"#, None),
    (r#""a text""#, None),
    ("12345678901234567890", None),
    ("[1,2,]", Some(Fault::Syntax)),
    (r#""a text"#, Some(Fault::Syntax)),
    (r#"[[1],[2]],"#, Some(Fault::Syntax)),
];

/// Whether a text that spells no object is refused with this fault, or is said to spell another value, with no memory but
/// what an object with no members left.
fn is_told(alloc: Global, text: &str, fault: Option<Fault>) -> bool {
    let mut workspace = Workspace::new(alloc, Line::new(alloc));
    if let Ok(Some(object)) = compact_object(alloc, b"{}", &mut workspace) {
        workspace.take_back(object.parts);
    }
    let gone = take(alloc);
    let is_so = match compact_object(alloc, text.as_bytes(), &mut workspace) {
        Ok(found) => fault.is_none() && found.is_none(),
        Err(other) => Some(other) == fault,
    };
    give(alloc, gone) && is_so
}

#[test]
fn texts_without_names_are_told(rt: HostRuntime) {
    for (text, fault) in WITHOUT_NAMES.iter() {
        assert!(rt; is_told(rt.alloc(), text, *fault), "{text}");
    }
}

/// Objects, most of which are not spelled in their compact texts.
const SPELLED: [&str; 14] = [
    r#"{"type":"CityJSONFeature","b":{"a":[[0,1],[2]],"c":"text"}}"#,
    " \t{ \"a\" : [ 1 , 2 ] , \"b\" : { } } \r",
    r#"{ }"#,
    r#"{"a": [-0, 1.50e+3, 0.0010, 1E-24, 12345678901234567890]}"#,
    r#"{"vertices": [[1, 2, 3], [-4, 5, 6], [7, 8, 9]], "b": [[1, 2], [], [3]]}"#,
    r#"{"b": [[[[0, 1, 2, 3]], [[4, 5, 6]]], [[[7, 8, 9]]]], "c": [[null, [true]], "x"]}"#,
    r#"{"a": "caf\u00e9 \/ \ud83d\ude00", "b": "\u000a\u001F\u007f\"\\"}"#,
    r#"{"\u0061b": 1, "b": {"\u0061b": [{"\u0061": 2, "\/": 3}]}}"#,
    r#"{"a": {"a": {"a": {"a": {"a": [{"a": {}}, {"a": []}]}}}}}"#,
    r#"{"\u0030": 0,"1":1,"2":2,"3":3,"4":4,"5":5,"6":6,"7":7,"8":8,"9":9,"10":0,"11":1,"12":2,"13":3,"14":4,"15":5,"16":6,"17":7,"18":8,"19":9}"#,
    r#"{"0": {"a":0,"b":1,"c":2},"1": {"a":0,"b":1,"c":2},"2": {"a":0,"b":1,"c":2},"3": {"a":0,"b":1,"c":2}}"#,
    r#"{"attribute 00 attribute": 0,"attribute 01 attribute":1,"attribute 02 attribute":2,"attribute 03 attribute":3,"attribute 04 attribute":4,"attribute 05 attribute":5,"attribute 06 attribute":6,"attribute 07 attribute":7,"attribute 08 attribute":8}"#,
    r#"{ "type": "CityJSONFeature", "id": "a", "CityObjects": { "a": { "type": "Road" } }, "vertices": [ [ 1, 2, 3 ] ] }"#,
    r#"{"a":[0.5, 1, "b", false, null, {"c": "d"}, [ ] ]}"#,
];

/// Whether the text of an object is told with no memory but that in which it was told before.
fn is_told_again(alloc: Global, text: &str) -> Result<bool, Fault> {
    let mut workspace = Workspace::new(alloc, Line::new(alloc));
    if let Some(object) = compact_object(alloc, text.as_bytes(), &mut workspace)? {
        workspace.take_back(object.parts);
    }
    let mut wanted = Line::new(alloc);
    print(&read(alloc, text.as_bytes())?, &mut wanted)?;
    let gone = take(alloc);
    let is_so = match compact_object(alloc, text.as_bytes(), &mut workspace) {
        Ok(Some(object)) => {
            object.place.bytes(text.as_bytes(), &workspace.line) == wanted.items()
        }
        Ok(None) | Err(_) => false,
    };
    Ok(give(alloc, gone) && is_so)
}

/// So it is told with no value of it, which would want memory.
#[test]
fn objects_are_told_with_no_value(rt: HostRuntime) -> Result<(), Fault> {
    for text in SPELLED.iter() {
        assert!(rt; is_told_again(rt.alloc(), text)?, "{text}");
    }
    Ok(())
}
