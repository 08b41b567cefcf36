//! Documents that are refused, of which nothing is written.
use crate::document_streams::texts::{DOCUMENT, expect, gives_anyhow};
use std::alloc::{AllocError, Global};

/// What stands in the place of the document: blank inputs, and what is no text.
const BLANK: &str = "DOCUMENT =>  =>  => NoHeader
DOCUMENT =>  ; =>  => NoHeader
DOCUMENT => ; =>  => NoHeader
DOCUMENT => ; \t\r; =>  => NoHeader
DOCUMENT => x =>  => Syntax
DOCUMENT => \0 =>  => Syntax";

/// An input is one text.
const WHOLE: &str = r#"DOCUMENT => DOCUMENT;DOCUMENT =>  => Syntax
DOCUMENT => [] =>  => NotCityJson
DOCUMENT => {"type":1,"type":2} =>  => DuplicateName"#;

/// Changes of the document.
const CHANGED: &str = r#""CityJSON" => "CityJSONFeature" =>  => NotCityJson
["p1","p2"] => "p1" =>  => NotCityJson
2.0 => 1.1 =>  => Version
"scale" => "scales" =>  => NoTransform
[0.001, => [1e-25, =>  => Decimal
[0.001, => [0, =>  => ScaleNotPositive
[2,2,2] => [2,2] =>  => VertexShape
[2,2,2] => [2,2.0,2] =>  => VertexNotInteger
[2,2,2] => [2,9007199254740992,2] =>  => VertexRange
["p1","p2"] => ["p1","p3"] =>  => ChildMissing
["p1","p2"] => ["p1"] =>  => Orphan
"Building", => "Building","parents":["p1"], =>  => Orphan
[3,1] => [4,1] =>  => BoundaryIndex
[3,1] => ["3",1] =>  => BoundaryIndex
[3,1] => [-0,1] =>  => BoundaryIndex
[3,3,3]]} => [3,3,3]] =>  => Syntax
"p1": => "\u0062": =>  => DuplicateName"#;

#[test]
fn documents_are_refused_by_their_first_fault(rt: HostRuntime) {
    expect(&rt, "DOCUMENT", BLANK);
    expect(&rt, "DOCUMENT", WHOLE);
    expect(&rt, DOCUMENT, CHANGED);
}

/// Whether this is the fault of so many open arrays and these bytes.
fn is_deep_refused(
    alloc: Global,
    count: usize,
    last: &[u8],
    fails: bool,
    fault: &str,
) -> Result<bool, AllocError> {
    let mut input = "[".repeat(alloc, count)?.into_bytes();
    input.extend_from_slice(last)?;
    Ok(gives_anyhow(alloc, &input, fails, b"", fault))
}

#[test]
fn the_fault_that_stands_first_is_answered(rt: HostRuntime) {
    let alloc = rt.alloc();
    assert!(rt; gives_anyhow(alloc, b"\xff", false, b"", "NotUtf8"));
    assert!(rt; gives_anyhow(alloc, b"{\"a\":\"\xff\"}", false, b"", "NotUtf8"));
    assert!(rt; gives_anyhow(alloc, b"\n", true, b"", "Read"));
    assert!(rt; is_deep_refused(alloc, 129, b"", false, "TooDeep") == Ok(true));
    assert!(rt; is_deep_refused(alloc, 200, b"", false, "TooDeep") == Ok(true));
    assert!(rt; is_deep_refused(alloc, 200, b"\xff", false, "NotUtf8") == Ok(true));
    assert!(rt; is_deep_refused(alloc, 200, b"\xff", true, "Read") == Ok(true));
}
