//! Bytes that are gathered, JSON values and texts.

use byte_streams::{Bin, Fault, Line, Sequence, Stop, Tape, read_all, write_all};
use city_json::{Json, MemberPlace, NumText, Str, Workspace, compact_object, print, read};
use growth_support::{Call, expect, is_fault, refused, wanted};
use std::alloc::{AllocError, Global};
use std::io::Eprint;

/// A line is as before where it cannot grow, and then grows all the same.
fn appends(
    rt: &(impl AllocGlobal + Eprint),
    line: &mut Line,
    text: &str,
) -> Result<bool, AllocError> {
    let before = line.items().len();
    if line.append(text.as_bytes()).is_ok() {
        return Ok(true);
    }
    wanted(rt, Call("Line::append"));
    let is_as_before = line.items().len() == before;
    line.append(text.as_bytes())?;
    Ok(is_as_before)
}

fn appends_all(rt: &(impl AllocGlobal + Eprint), line: &mut Line) -> Result<bool, Fault> {
    for text in ["1234567", "89012345", "67890123456789012345678901234567890"].iter() {
        if !appends(rt, line, text)? {
            return Ok(false);
        }
    }
    Ok(line.items() == b"12345678901234567890123456789012345678901234567890".as_slice())
}

fn line_grows(rt: &(impl AllocGlobal + Eprint)) -> Result<bool, Fault> {
    appends_all(rt, &mut Line::new(rt.alloc()))
}

/// A list is as before where it cannot grow, and then grows all the same.
fn pushes(
    rt: &(impl AllocGlobal + Eprint),
    list: &mut Sequence<u64>,
    number: u64,
) -> Result<bool, AllocError> {
    let before = list.items().len();
    if list.push(number).is_ok() {
        return Ok(true);
    }
    wanted(rt, Call("Sequence::push"));
    let is_as_before = list.items().len() == before;
    list.push(number)?;
    Ok(is_as_before)
}

fn pushes_all(rt: &(impl AllocGlobal + Eprint), list: &mut Sequence<u64>) -> Result<bool, Fault> {
    for number in 0..9u64 {
        if !pushes(rt, list, number)? {
            return Ok(false);
        }
    }
    Ok(list.items() == [0u64, 1, 2, 3, 4, 5, 6, 7, 8].as_slice())
}

fn list_grows(rt: &(impl AllocGlobal + Eprint)) -> Result<bool, Fault> {
    pushes_all(rt, &mut Sequence::new(rt.alloc()))
}

/// Whether a reader gives these bytes, and no more.
fn is_left(alloc: Global, source: &mut Tape, bytes: Option<&[u8]>) -> bool {
    bytes == Some(read_all(alloc, source, 1_000_000).bytes.as_slice())
}

/// All that a reader gives, or its first bytes where memory ran out; what is left is still to be read then.
fn gives_all(
    rt: &(impl AllocGlobal + Eprint),
    source: &mut Tape,
    text: &[u8],
) -> Result<bool, Fault> {
    let first = read_all(rt.alloc(), source, 1_000_000);
    if first.stop != Stop::Memory {
        return Ok(first.stop == Stop::End && first.bytes.as_slice() == text);
    }
    wanted(rt, Call("read_all"));
    if is_left(
        rt.alloc(),
        source,
        text.strip_prefix(first.bytes.as_slice()),
    ) {
        return Err(Fault::Memory);
    }
    Ok(false)
}

fn reader_gives_all(rt: &(impl AllocGlobal + Eprint)) -> Result<bool, Fault> {
    let text = "0123456789".repeat(rt.alloc(), 20_000)?;
    let given = Line::from_vec(text.as_bytes().to_vec(rt.alloc())?);
    gives_all(rt, &mut Tape::new(given, 30_000, false), text.as_bytes())
}

/// Whether this is the compact text of a value.
pub(crate) fn is_printed(alloc: Global, value: &Json, text: &[u8]) -> Result<bool, Fault> {
    let mut line = Line::new(alloc);
    print(value, &mut line)?;
    Ok(line.items() == text)
}

/// Whether a text is read, and is this when it is compact.
fn is_read(rt: &(impl AllocGlobal + Eprint), text: &[u8], compact: &[u8]) -> Result<bool, Fault> {
    match read(rt.alloc(), text) {
        Ok(value) => is_printed(rt.alloc(), &value, compact),
        Err(fault) => refused(rt, Call("read"), fault),
    }
}

/// Texts and their compact texts: the first has an escape for an e with an accent, for a slash and for a smiling face.
const TEXTS: [(&str, &str); 4] = [
    (
        r#"{"k":"caf\u00e9 \/ \ud83d\ude00","n":1.50e+3}"#,
        "{\"k\":\"caf\u{e9} / \u{1f600}\",\"n\":1.50e+3}",
    ),
    (
        "[0,1,2,3,4,5,6,7,8,9,10,11,12,13,14,15,16,17,18,19,20,21,22,23,24,25,26,27,28,29,30,31,32]",
        "[0,1,2,3,4,5,6,7,8,9,10,11,12,13,14,15,16,17,18,19,20,21,22,23,24,25,26,27,28,29,30,31,32]",
    ),
    (
        r#"{"a":1,"b":2,"c":3,"d":4,"e":5,"f":6,"g":7,"h":8,"i":9,"j":0,"k":1,"l":2,"m":3,"n":4,"o":5,"p":6,"q":7}"#,
        r#"{"a":1,"b":2,"c":3,"d":4,"e":5,"f":6,"g":7,"h":8,"i":9,"j":0,"k":1,"l":2,"m":3,"n":4,"o":5,"p":6,"q":7}"#,
    ),
    (
        r#"[[[[[[[[[[[[[[[[[["\n"]]]]]]]]]]]]]]]]]]"#,
        r#"[[[[[[[[[[[[[[[[[["\n"]]]]]]]]]]]]]]]]]]"#,
    ),
];

fn texts_are_read(rt: &(impl AllocGlobal + Eprint)) -> Result<bool, Fault> {
    for (text, compact) in TEXTS.iter() {
        if !is_read(rt, text.as_bytes(), compact.as_bytes())? {
            return Ok(false);
        }
    }
    Ok(true)
}

/// Other texts, and why they are refused.
const NO_TEXTS: [(&str, Fault); 3] = [
    (r#""\ud800""#, Fault::Syntax),
    (r#"{"a":1,"a":2"#, Fault::Syntax),
    (r#"{"a":1,"\u0061":2}"#, Fault::DuplicateName),
];

fn no_texts_are_read(rt: &(impl AllocGlobal + Eprint)) -> Result<bool, Fault> {
    for (text, fault) in NO_TEXTS.iter() {
        if !is_fault(is_read(rt, text.as_bytes(), b""), *fault)? {
            return Ok(false);
        }
    }
    Ok(true)
}

/// Whether a text spells an object, of this text when it is compact, or a value of another kind, and this text is its own.
fn is_told(rt: &(impl AllocGlobal + Eprint), text: &str, compact: &str) -> Result<bool, Fault> {
    let mut workspace = Workspace::new(rt.alloc(), Line::new(rt.alloc()));
    match compact_object(rt.alloc(), text.as_bytes(), &mut workspace) {
        Ok(Some(found)) => {
            Ok(found.place.bytes(text.as_bytes(), &workspace.line) == compact.as_bytes())
        }
        Ok(None) => Ok(text == compact && !text.starts_with('{')),
        Err(fault) => refused(rt, Call("compact_object"), fault),
    }
}

fn texts_are_told(rt: &(impl AllocGlobal + Eprint)) -> Result<bool, Fault> {
    for (text, compact) in TEXTS.iter() {
        if !is_told(rt, text, compact)? {
            return Ok(false);
        }
    }
    Ok(true)
}

fn no_texts_are_told(rt: &(impl AllocGlobal + Eprint)) -> Result<bool, Fault> {
    for (text, fault) in NO_TEXTS.iter() {
        if !is_fault(is_told(rt, text, ""), *fault)? {
            return Ok(false);
        }
    }
    Ok(true)
}

/// So many brackets that open, and then so many that close.
fn nested(alloc: Global, opened: usize, closed: usize) -> Result<String, AllocError> {
    let mut text = "[".repeat(alloc, opened)?;
    text.push_str(&"]".repeat(alloc, closed)?)?;
    Ok(text)
}

fn deepest_is_read(rt: &(impl AllocGlobal + Eprint)) -> Result<bool, Fault> {
    let text = nested(rt.alloc(), 128, 128)?;
    is_read(rt, text.as_bytes(), text.as_bytes())
}

fn deepest_is_refused(rt: &(impl AllocGlobal + Eprint)) -> Result<bool, Fault> {
    let text = nested(rt.alloc(), 128, 0)?;
    is_fault(is_read(rt, text.as_bytes(), b""), Fault::Syntax)
}

/// Whether a text is this, after what stands in front of it.
pub(crate) fn is_after(front: &[u8], text: &[u8], whole: &[u8]) -> bool {
    whole.strip_prefix(front) == Some(text)
}

const TEXT: &[u8] =
    b" { \"type\" : \"CityJSONFeature\", \"\\u0061\\n\": [1.50e+3, -0, null, true, {}], \"b\": {\"a\": [[0, 1], [2]]}} ";

const COMPACT: &[u8] =
    b"{\"type\":\"CityJSONFeature\",\"a\\n\":[1.50e+3,-0,null,true,{}],\"b\":{\"a\":[[0,1],[2]]}}";

/// A compact text without escapes.
const PLAIN: &[u8] = b"{\"type\":\"CityJSONFeature\",\"b\":{\"a\":[[0,1],[2]],\"c\":\"text\"}}";

/// A value is printed after other bytes, which alone stand there where memory is wanted.
fn prints(rt: &(impl AllocGlobal + Eprint), value: &Json, line: &mut Line) -> Result<bool, Fault> {
    if let Err(fault) = print(value, line) {
        wanted(rt, Call("print"));
        if fault != Fault::Memory || line.items() != b"7 ".as_slice() {
            return Ok(false);
        }
        print(value, line)?;
    }
    Ok(is_after(b"7 ", COMPACT, line.items()))
}

fn value_is_printed(rt: &(impl AllocGlobal + Eprint)) -> Result<bool, Fault> {
    let value = read(rt.alloc(), TEXT)?;
    let mut line = Line::from_vec(b"7 ".to_vec(rt.alloc())?);
    prints(rt, &value, &mut line)
}

fn is_copied(rt: &(impl AllocGlobal + Eprint), value: &Json) -> Result<bool, Fault> {
    match value.copy(rt.alloc()) {
        Ok(copy) => is_printed(rt.alloc(), &copy, COMPACT),
        Err(fault) => refused(rt, Call("Json::copy"), fault),
    }
}

fn value_is_copied(rt: &(impl AllocGlobal + Eprint)) -> Result<bool, Fault> {
    is_copied(rt, &read(rt.alloc(), TEXT)?)
}

fn is_number(rt: &(impl AllocGlobal + Eprint), text: &str) -> Result<bool, Fault> {
    match NumText::read(rt.alloc(), text.as_bytes()) {
        Ok(number) => Ok(number.as_bytes() == text.as_bytes()),
        Err(fault) => refused(rt, Call("NumText::read"), fault),
    }
}

const NUMBERS: [&str; 3] = [
    "-1.50e+3",
    "0.0010000000474974513",
    "123456789012345678901234567890.123456789012345678901234567890",
];

const NO_NUMBERS: [&str; 3] = ["1.", "+1", "1234567890123456789012345678901234567890e"];

fn numbers_are_read(rt: &(impl AllocGlobal + Eprint)) -> Result<bool, Fault> {
    for text in NUMBERS.iter() {
        if !is_number(rt, text)? {
            return Ok(false);
        }
    }
    for text in NO_NUMBERS.iter() {
        if !is_fault(is_number(rt, text), Fault::Syntax)? {
            return Ok(false);
        }
    }
    Ok(true)
}

fn is_name(rt: &(impl AllocGlobal + Eprint), name: &str) -> Result<bool, Fault> {
    match Str::read(rt.alloc(), name) {
        Ok(text) => Ok(text.as_str() == name),
        Err(fault) => refused(rt, Call("Str::read"), fault),
    }
}

fn names_are_read(rt: &(impl AllocGlobal + Eprint)) -> Result<bool, Fault> {
    for name in ["", "type", "https://www.opengis.net/def/crs/EPSG/0/7415"].iter() {
        if !is_name(rt, name)? {
            return Ok(false);
        }
    }
    Ok(true)
}

/// A writer takes its first bytes and then fails.
fn bin_is_filled(rt: &(impl AllocGlobal + Eprint)) -> Result<bool, Fault> {
    match Bin::new(rt.alloc(), 9, 4, false) {
        Ok(mut bin) => {
            let all = write_all(&mut bin, b"all of it and more");
            Ok(all == Err(Fault::Write) && bin.bytes() == b"all of it".as_slice())
        }
        Err(fault) => refused(rt, Call("Bin::new"), fault),
    }
}

/// Two names and sixteen that begin and end alike, some with escapes, in the text alone and in the compact text, too; one
/// with an escape after as many without as there is room for at first; and seventeen of one print, without and with one.
const ESCAPED_NAMES: [(&str, &str); 5] = [
    (
        r#"{"oneprint one pr":0,"bBoIXfIOr4wAR7 ":1,"ruVVmC0Y8nJQfyy":2,"rM9JBGSD8w5avfX":3,"bh2YlyUP2PuLRS ":4,"bzi5CeMZraM7khq":5,"Wrt7ojSdWPQxLja":6,"Uv3jNHb2lhws2kJ":7,"mVzpsEL EQIQKDJ":8,"rekmL5_K8xX5C3s":9,"EXADgun2FlLPtsf":0,"J7oRNKoQ91l5xHW":1,"WJ_gVlJqWYU _ps":2,"5bS_Bs8782UTIww":3,"EHF 33z2FvT4ERp":4,"JqnNY1PYyYj 9Lt":5,"BPxtfzFDNeUz9XE":6}"#,
        r#"{"oneprint one pr":0,"bBoIXfIOr4wAR7 ":1,"ruVVmC0Y8nJQfyy":2,"rM9JBGSD8w5avfX":3,"bh2YlyUP2PuLRS ":4,"bzi5CeMZraM7khq":5,"Wrt7ojSdWPQxLja":6,"Uv3jNHb2lhws2kJ":7,"mVzpsEL EQIQKDJ":8,"rekmL5_K8xX5C3s":9,"EXADgun2FlLPtsf":0,"J7oRNKoQ91l5xHW":1,"WJ_gVlJqWYU _ps":2,"5bS_Bs8782UTIww":3,"EHF 33z2FvT4ERp":4,"JqnNY1PYyYj 9Lt":5,"BPxtfzFDNeUz9XE":6}"#,
    ),
    (
        r#"{"\u006fneprint one pr":0,"bBoIXfIOr4wAR7 ":1,"ruVVmC0Y8nJQfyy":2,"rM9JBGSD8w5avfX":3,"bh2YlyUP2PuLRS ":4,"bzi5CeMZraM7khq":5,"Wrt7ojSdWPQxLja":6,"Uv3jNHb2lhws2kJ":7,"mVzpsEL EQIQKDJ":8,"rekmL5_K8xX5C3s":9,"EXADgun2FlLPtsf":0,"J7oRNKoQ91l5xHW":1,"WJ_gVlJqWYU _ps":2,"5bS_Bs8782UTIww":3,"EHF 33z2FvT4ERp":4,"JqnNY1PYyYj 9Lt":5,"BPxtfzFDNeUz9XE":6}"#,
        r#"{"oneprint one pr":0,"bBoIXfIOr4wAR7 ":1,"ruVVmC0Y8nJQfyy":2,"rM9JBGSD8w5avfX":3,"bh2YlyUP2PuLRS ":4,"bzi5CeMZraM7khq":5,"Wrt7ojSdWPQxLja":6,"Uv3jNHb2lhws2kJ":7,"mVzpsEL EQIQKDJ":8,"rekmL5_K8xX5C3s":9,"EXADgun2FlLPtsf":0,"J7oRNKoQ91l5xHW":1,"WJ_gVlJqWYU _ps":2,"5bS_Bs8782UTIww":3,"EHF 33z2FvT4ERp":4,"JqnNY1PYyYj 9Lt":5,"BPxtfzFDNeUz9XE":6}"#,
    ),
    (
        r#"{"\u0061ttribute 00 attribute":0,"attribute 01 attribute":1}"#,
        r#"{"attribute 00 attribute":0,"attribute 01 attribute":1}"#,
    ),
    (
        r#"{"attribute 00 attribute":0,"attribute 01 attribute":1,"attribute 02 attribute":2,"attribute 03 attribute":3,"attribute 04 attribute":4,"attribute 05 attribute":5,"attribute 06 attribute":6,"attribute 07 attribute":7,"attribute 08 attribute":8,"attribute 09 attribute":9,"attribute 10 attribute":0,"attribute 11 attribute":1,"attribute 12 attribute":2,"attribut\u0065\n13 attribute":3,"attribute 14 attribute":4,"attribute 15 attribut\u0065":5}"#,
        r#"{"attribute 00 attribute":0,"attribute 01 attribute":1,"attribute 02 attribute":2,"attribute 03 attribute":3,"attribute 04 attribute":4,"attribute 05 attribute":5,"attribute 06 attribute":6,"attribute 07 attribute":7,"attribute 08 attribute":8,"attribute 09 attribute":9,"attribute 10 attribute":0,"attribute 11 attribute":1,"attribute 12 attribute":2,"attribute\n13 attribute":3,"attribute 14 attribute":4,"attribute 15 attribute":5}"#,
    ),
    (
        r#"{"00":0,"01":1,"02":2,"03":3,"04":4,"05":5,"06":6,"07":7,"08":8,"09":9,"10":0,"11":1,"12":2,"13":3,"14":4,"15":5,"16":6,"17":7,"18":8,"19":9,"20":0,"21":1,"22":2,"23":3,"24":4,"25":5,"26":6,"27":7,"28":8,"29":9,"30":0,"31":1,"32":2,"33":3,"34":4,"35":5,"36":6,"37":7,"38":8,"39":9,"4\u0030":0}"#,
        r#"{"00":0,"01":1,"02":2,"03":3,"04":4,"05":5,"06":6,"07":7,"08":8,"09":9,"10":0,"11":1,"12":2,"13":3,"14":4,"15":5,"16":6,"17":7,"18":8,"19":9,"20":0,"21":1,"22":2,"23":3,"24":4,"25":5,"26":6,"27":7,"28":8,"29":9,"30":0,"31":1,"32":2,"33":3,"34":4,"35":5,"36":6,"37":7,"38":8,"39":9,"40":0}"#,
    ),
];

/// Whether these parts stand beside one another between the braces of a text of this length.
fn are_parts(parts: &[MemberPlace], length: usize) -> bool {
    let mut at = 1;
    for part in parts.iter() {
        if part.at != at {
            return false;
        }
        at = part.end.saturating_add(1);
    }
    at == length
}

/// The text is that of the object, between whose braces its parts stand, or memory is wanted. It is copied only where it is
/// not compact, or to be held.
fn text_stands_compact(
    rt: &(impl AllocGlobal + Eprint),
    text: &[u8],
    compact: &[u8],
) -> Result<bool, Fault> {
    let mut workspace = Workspace::new(rt.alloc(), Line::new(rt.alloc()));
    let found = match compact_object(rt.alloc(), text, &mut workspace) {
        Ok(Some(found)) => found,
        Ok(None) => return Ok(false),
        Err(fault) => return refused(rt, Call("compact_object"), fault),
    };
    let Workspace { mut line, .. } = workspace;
    if found.place.bytes(text, &line) != compact || !are_parts(&found.parts, compact.len()) {
        return Ok(false);
    }
    match found.place.copy_to_buffer(text, &mut line) {
        Ok(()) => Ok(line.items() == compact),
        Err(_) => refused(rt, Call("TextPlace::copy_to_buffer"), Fault::Memory),
    }
}

fn texts_stand_compact(rt: &(impl AllocGlobal + Eprint)) -> Result<bool, Fault> {
    for (text, compact) in ESCAPED_NAMES.iter() {
        if !text_stands_compact(rt, text.as_bytes(), compact.as_bytes())? {
            return Ok(false);
        }
    }
    Ok(text_stands_compact(rt, TEXT, COMPACT)? && text_stands_compact(rt, PLAIN, PLAIN)?)
}

/// The same of texts in turn, in memory that goes from one to the next.
fn texts_stand_in_turn(rt: &(impl AllocGlobal + Eprint)) -> Result<bool, Fault> {
    let mut workspace = Workspace::new(rt.alloc(), Line::new(rt.alloc()));
    for (text, compact) in [(TEXT, COMPACT), (PLAIN, PLAIN), (TEXT, COMPACT)].iter() {
        let found = match compact_object(rt.alloc(), text, &mut workspace) {
            Ok(Some(found)) => found,
            Ok(None) => return Ok(false),
            Err(fault) => return refused(rt, Call("compact_object"), fault),
        };
        let is_so = found.place.bytes(text, &workspace.line) == *compact
            && are_parts(&found.parts, compact.len());
        workspace.take_back(found.parts);
        workspace.trim();
        if !is_so {
            return Ok(false);
        }
    }
    Ok(true)
}

#[test]
fn bytes_values_and_texts(rt: HostRuntime) -> Result<(), Fault> {
    expect!(rt; line_grows(&rt));
    expect!(rt; list_grows(&rt));
    expect!(rt; reader_gives_all(&rt));
    expect!(rt; texts_are_read(&rt));
    expect!(rt; no_texts_are_read(&rt));
    expect!(rt; texts_are_told(&rt));
    expect!(rt; no_texts_are_told(&rt));
    expect!(rt; deepest_is_read(&rt));
    expect!(rt; deepest_is_refused(&rt));
    expect!(rt; value_is_printed(&rt));
    expect!(rt; value_is_copied(&rt));
    expect!(rt; numbers_are_read(&rt));
    expect!(rt; names_are_read(&rt));
    expect!(rt; bin_is_filled(&rt));
    expect!(rt; texts_stand_compact(&rt));
    expect!(rt; texts_stand_in_turn(&rt));
    Ok(())
}
