//! That a member of an object is found by its name in the compact text: wherever it stands, and only where it does.
use byte_streams::Line;
use city_json::{Workspace, compact_object, part_named, value_place};
use std::alloc::Global;

/// A compact text, a name with its marks and its colon, and where the value of that member begins, if there is one.
type Row = (&'static [u8], &'static [u8], Option<usize>);

const FOUR: &[u8] = b"{\"a\":1,\"b\":[2],\"c\":{\"x\":3},\"d\":\"x\"}";

const ROWS: [Row; 14] = [
    (b"{}", b"\"a\":", None),
    (b"{\"a\":1}", b"\"a\":", Some(5)),
    (b"{\"A\":1}", b"\"a\":", None),
    (FOUR, b"\"a\":", Some(5)),
    (FOUR, b"\"b\":", Some(11)),
    (FOUR, b"\"c\":", Some(19)),
    (FOUR, b"\"d\":", Some(31)),
    (FOUR, b"\"e\":", None),
    (FOUR, b"\"x\":", None),
    (b"{\"\":0,\"a\":1}", b"\"\":", Some(4)),
    (b"{\"b\":{\"a\":1}}", b"\"a\":", None),
    (b"{\"b\":{\"a\":1},\"a\":2}", b"\"a\":", Some(17)),
    (b"{\"b\":[{\"a\":1}],\"aa\":2}", b"\"a\":", None),
    (b"{\"b\":\"\\\"a\\\":\",\"a\":2}", b"\"a\":", Some(18)),
];

/// Whether both ways find the member of a row where it stands.
fn is_found(alloc: Global, row: &Row) -> bool {
    let (text, name, wanted) = *row;
    let mut workspace = Workspace::new(alloc, Line::new(alloc));
    let Ok(Some(object)) = compact_object(alloc, text, &mut workspace) else {
        return false;
    };
    let part = part_named(text, &object.parts, name);
    part.map(|part| part.value) == wanted && value_place(text, name) == wanted
}

#[test]
fn a_member_is_found_wherever_it_stands(rt: HostRuntime) {
    for row in ROWS.iter() {
        assert!(rt; is_found(rt.alloc(), row));
    }
}

/// A text of an object, a name with its marks and its colon, and the compact text of the value of that member, if there is
/// one.
type Valued = (&'static [u8], &'static [u8], Option<&'static [u8]>);

const VALUED: [Valued; 10] = [
    (b"{}", b"\"a\":", None),
    (b"{\"a\":1}", b"\"a\":", Some(b"1")),
    (b"{\"a\":null}", b"\"a\":", Some(b"null")),
    (b"{\"b\":1,\"c\":2}", b"\"a\":", None),
    (
        b" { \"a\" : [ 1 , 2.50 ] , \"b\" : 3 } ",
        b"\"a\":",
        Some(b"[1,2.50]"),
    ),
    (
        b"{\"b\":{\"a\":1},\"a\":{\"a\":2}}",
        b"\"a\":",
        Some(b"{\"a\":2}"),
    ),
    (b"{\"\\u0061\":\"\\u0062\"}", b"\"a\":", Some(b"\"b\"")),
    (b"{\"b\":\"\\\"a\\\":\"}", b"\"a\":", None),
    (b"{\"a\\\"\":1,\"a\":2}", b"\"a\":", Some(b"2")),
    (b"{\"\":{},\"a\":[]}", b"\"\":", Some(b"{}")),
];

/// Whether the text of the value of the member of a name is given, and that it is not there where it is not, wherever it is
/// looked for first.
fn is_given(alloc: Global, text: &[u8], name: &[u8], wanted: Option<&[u8]>) -> bool {
    let mut workspace = Workspace::new(alloc, Line::new(alloc));
    let Ok(Some(object)) = compact_object(alloc, text, &mut workspace) else {
        return false;
    };
    let line = object.text(text, &workspace.line);
    let other = b"another text".as_slice();
    for place in 0..3 {
        if line.value(place, name).unwrap_or(other) != wanted.unwrap_or(other)
            || line.value_or(place, name, other) != wanted.unwrap_or(other)
            || line.part(place, name).is_some() != wanted.is_some()
        {
            return false;
        }
    }
    true
}

#[test]
fn the_value_of_a_member_is_given_by_its_name(rt: HostRuntime) {
    for (text, name, wanted) in VALUED {
        assert!(rt; is_given(rt.alloc(), text, name, wanted));
    }
}
