//! Objects of which a member is dropped or set.
use byte_streams::{Fault, Line};
use city_cut::{drop_member, set_member};
use city_json::{Json, print, read};
use std::alloc::{AllocGlobal, Global};
use std::process::Abort;

/// A value, and what it is after a member `a` is dropped: the first of that name.
const DROPPED: &str = r#"{"a":1} => {}
{"a":1,"b":2,"c":3} => {"b":2,"c":3}
{"b":2,"a":1,"c":3} => {"b":2,"c":3}
{"b":2,"c":3,"a":1} => {"b":2,"c":3}
{"b":{"a":1},"A":2} => {"b":{"a":1},"A":2}
{} => {}
["a"] => ["a"]"#;

/// A value, and what it is after a member `a` is set, at its place or last.
const SET: &str = r#"{} => {"a":[1.50]}
{"a":{"a":0},"b":2} => {"a":[1.50],"b":2}
{"b":2,"a":1,"c":3} => {"b":2,"a":[1.50],"c":3}
{"b":2,"c":3,"aa":1} => {"b":2,"c":3,"aa":1,"a":[1.50]}
"a" => "a"
null => null"#;

fn change(alloc: Global, value: &mut Json, is_set: bool) -> Result<(), Fault> {
    if is_set {
        set_member(alloc, value, "a", read(alloc, b"[1.50]")?)?;
    } else {
        drop_member(value, "a");
    }
    Ok(())
}

fn is_spelled(alloc: Global, value: &Json, wanted: &str) -> bool {
    let mut line = Line::new(alloc);
    print(value, &mut line).is_ok() && line.items() == wanted.as_bytes()
}

fn is_changed(alloc: Global, row: &str, is_set: bool) -> Result<bool, Fault> {
    let (text, wanted) = row.split_once(" => ").unwrap_or((row, ""));
    let mut value = read(alloc, text.as_bytes())?;
    let is_done = change(alloc, &mut value, is_set).is_ok();
    Ok(is_done && is_spelled(alloc, &value, wanted))
}

fn expect(rt: &(impl Abort + AllocGlobal), table: &str, is_set: bool) {
    for row in table.lines() {
        assert!(rt; is_changed(rt.alloc(), row, is_set) == Ok(true), "{row}");
    }
}

#[test]
fn a_member_is_dropped_or_set(rt: HostRuntime) {
    expect(&rt, DROPPED, false);
    expect(&rt, SET, true);
}
