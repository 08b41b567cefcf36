//! Members by their names, copies, and values that are the same or not.
use crate::texts::expect;
use byte_streams::Fault;
use city_json::{Json, Str, read, same};
use std::alloc::Global;

const SAMPLE: &[u8] =
    b"{\"k\":\"caf\xc3\xa9 / \xf0\x9f\x98\x80\",\"n\":[null,true,1.50e+3],\"m\":\"last\"}";

/// A value, and the text that its member of this name is, if it has one.
struct Member {
    value: &'static [u8],
    name: &'static str,
    content: Option<&'static str>,
}

const MEMBERS: [Member; 5] = [
    Member {
        value: SAMPLE,
        name: "k",
        content: Some("caf\u{e9} / \u{1f600}"),
    },
    Member {
        value: SAMPLE,
        name: "K",
        content: None,
    },
    Member {
        value: b"[null,true,1.50e+3]",
        name: "k",
        content: None,
    },
    Member {
        value: b"{\"type\":\"CityJSON\",\"\":\"\"}",
        name: "type",
        content: Some("CityJSON"),
    },
    Member {
        value: b"{\"type\":\"CityJSON\",\"\":\"\"}",
        name: "",
        content: Some(""),
    },
];

fn is_member(found: Option<&Json>, wanted: Option<&str>) -> bool {
    match (found, wanted) {
        (Some(Json::Text(text)), Some(content)) => text.as_str() == content,
        (None, None) => true,
        _ => false,
    }
}

fn has_member(alloc: Global, row: &Member) -> bool {
    match read(alloc, row.value) {
        Ok(value) => is_member(value.get(row.name), row.content),
        Err(_) => false,
    }
}

#[test]
fn a_member_is_found_by_its_name(rt: HostRuntime) {
    for row in MEMBERS.iter() {
        expect(&rt, has_member(rt.alloc(), row), row.name.as_bytes());
    }
}

/// Whether the one is the same as a copy of the other.
fn is_same(alloc: Global, one: &Json, other: &Json) -> bool {
    match other.copy(alloc) {
        Ok(copy) => same(one, &copy),
        Err(_) => false,
    }
}

fn same_of(alloc: Global, one: &[u8], other: &[u8]) -> Result<bool, Fault> {
    is_same_as(alloc, &read(alloc, one)?, other)
}

fn is_same_as(alloc: Global, one: &Json, other: &[u8]) -> Result<bool, Fault> {
    Ok(is_same(alloc, one, &read(alloc, other)?))
}

/// Two values that are not the same.
const UNEQUAL: [(&[u8], &[u8]); 4] = [
    (b"{\"a\":null,\"b\":null}", b"{\"b\":null,\"a\":null}"),
    (b"1.0", b"1.00"),
    (b"[]", b"{}"),
    (b"[[1,\"last\"]]", b"[[1,\"other\"]]"),
];

#[test]
fn a_copy_alone_is_the_same(rt: HostRuntime) {
    assert!(rt; same_of(rt.alloc(), SAMPLE, SAMPLE) == Ok(true));
}

#[test]
fn other_values_are_not_the_same(rt: HostRuntime) {
    for (one, other) in UNEQUAL.iter() {
        let is_same = same_of(rt.alloc(), one, other);
        expect(&rt, is_same == Ok(false), other);
    }
}

fn is_read(alloc: Global, text: &str) -> bool {
    match Str::read(alloc, text) {
        Ok(read) => read.as_str() == text,
        Err(_) => false,
    }
}

#[test]
fn a_text_is_read_as_it_is(rt: HostRuntime) {
    assert!(rt; is_read(rt.alloc(), "https://www.opengis.net/def/crs/EPSG/0/7415"));
}
