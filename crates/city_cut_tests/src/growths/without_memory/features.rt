//! Headers, features and choices.

use byte_streams::Fault;
use city_cut::drop_member;
use city_feature::{
    Choice, Feature, Types, area, feature, header, header_transform, is_document, selects, shifted,
    types,
};
use city_grid::Shift;
use city_json::{Json, read, same};
use growth_support::texts::{A, DOCUMENT, HEADER};
use growth_support::{give, take};
use std::alloc::Global;

/// Whether a value is a header, and is taken as it stands.
fn is_header(value: Json, copy: &Json) -> Result<bool, Fault> {
    let is_one = !is_document(&value);
    let transform = header_transform(&value)?;
    let taken = header(value)?;
    Ok(is_one && same(taken.json(), copy) && *taken.transform() == transform)
}

fn header_is_taken(alloc: Global) -> Result<bool, Fault> {
    let value = read(alloc, HEADER.as_bytes())?;
    let copy = value.copy(alloc)?;
    let gone = take(alloc);
    let is_header = is_header(value, &copy)?;
    Ok(give(alloc, gone) && is_header)
}

/// First lines, and why they are refused.
const REFUSED: [(&str, Fault); 6] = [
    ("[]", Fault::NotCityJson),
    (r#"{"type":"CityJSON","version":"1.1"}"#, Fault::Version),
    (r#"{"type":"CityJSON","version":"2.0"}"#, Fault::NoTransform),
    (
        r#"{"type":"CityJSON","version":"2.0","transform":{"scale":[0,0,0],"translate":[0,0,0]}}"#,
        Fault::ScaleNotPositive,
    ),
    (
        r#"{"type":"CityJSON","version":"2.0","transform":{"scale":[1e-25,1,1],"translate":[0,0,0]}}"#,
        Fault::Decimal,
    ),
    (r#"{"type":"CityJSONFeature"}"#, Fault::NotCityJson),
];

fn header_is_refused(alloc: Global, text: &str, fault: Fault) -> Result<bool, Fault> {
    let value = read(alloc, text.as_bytes())?;
    let gone = take(alloc);
    let is_refused = match header(value) {
        Ok(_) => false,
        Err(other) => other == fault,
    };
    Ok(give(alloc, gone) && is_refused)
}

fn document_is_known(alloc: Global) -> Result<bool, Fault> {
    let value = read(alloc, DOCUMENT.as_bytes())?;
    let gone = take(alloc);
    let is_document = is_document(&value);
    Ok(give(alloc, gone) && is_document)
}

#[test]
fn first_lines_are_taken_or_refused(rt: HostRuntime) -> Result<(), Fault> {
    assert!(rt; header_is_taken(rt.alloc())?);
    assert!(rt; document_is_known(rt.alloc())?);
    for (text, fault) in REFUSED.iter() {
        assert!(rt; header_is_refused(rt.alloc(), text, *fault)?, "{text}");
    }
    Ok(())
}

fn feature_of(alloc: Global, text: &str) -> Result<Feature, Fault> {
    feature(alloc, read(alloc, text.as_bytes())?)
}

fn is_lent(taken: &Feature, value: &Json) -> bool {
    same(taken.json(), value) && taken.vertices().len() == 1
}

fn feature_is_lent(alloc: Global) -> Result<bool, Fault> {
    let taken = feature_of(alloc, A)?;
    let value = read(alloc, A.as_bytes())?;
    let gone = take(alloc);
    let is_lent = is_lent(&taken, &value);
    Ok(give(alloc, gone) && is_lent)
}

/// Whether a feature is selected by a choice of these types and of this area.
fn is_selected(taken: &Feature, types: Option<Types>, within: &str, exclude: bool) -> bool {
    selects(&Choice::new(types, area(within), exclude), taken)
}

fn selects_all(taken: &Feature, roads: Option<Types>, buildings: Option<Types>) -> bool {
    let is_road = is_selected(taken, roads, "", false);
    let is_building = is_selected(taken, buildings, "1,2,5,5", false);
    let is_outside = is_selected(taken, None, "1,2,5,5", true);
    !is_road && is_building && !is_outside && is_selected(taken, None, "2,2,5,5", true)
}

fn feature_is_selected(alloc: Global) -> Result<bool, Fault> {
    let taken = feature_of(alloc, A)?;
    let roads = types(alloc, "Road,Bridge")?;
    let buildings = types(alloc, "Road,Building")?;
    let gone = take(alloc);
    let is_selected = selects_all(&taken, roads, buildings);
    Ok(give(alloc, gone) && is_selected)
}

/// Whether a feature is moved there, and then no farther.
fn is_moved(alloc: Global, taken: Feature, there: &Json) -> Result<bool, Fault> {
    let far = Shift::new(-9_007_199_254_740_991, -9_007_199_254_740_991, 0);
    let moved = shifted(alloc, taken, far.ok_or(Fault::ShiftRange)?)?;
    let is_there = same(moved.json(), there);
    let step = Shift::new(0, -1, 0).ok_or(Fault::ShiftRange)?;
    match shifted(alloc, moved, step) {
        Ok(_) => Ok(false),
        Err(fault) => Ok(is_there && fault == Fault::VertexRange),
    }
}

/// A moved number has room where the one before it stood.
fn feature_is_moved(alloc: Global) -> Result<bool, Fault> {
    let text =
        r#"{"type":"CityJSONFeature","id":"b","CityObjects":{},"vertices":[[9007199254740991,-0,1]]}"#;
    let there =
        br#"{"type":"CityJSONFeature","id":"b","CityObjects":{},"vertices":[[0,-9007199254740991,1]]}"#;
    let taken = feature_of(alloc, text)?;
    let there = read(alloc, there)?;
    let gone = take(alloc);
    let is_moved = is_moved(alloc, taken, &there)?;
    Ok(give(alloc, gone) && is_moved)
}

#[test]
fn features_are_lent_selected_and_moved(rt: HostRuntime) -> Result<(), Fault> {
    assert!(rt; feature_is_lent(rt.alloc())?);
    assert!(rt; feature_is_selected(rt.alloc())?);
    assert!(rt; feature_is_moved(rt.alloc())?);
    Ok(())
}

fn is_area(text: &str, wanted: [i64; 4]) -> bool {
    match area(text) {
        Some(area) => [area.min_x, area.min_y, area.max_x, area.max_y] == wanted,
        None => false,
    }
}

/// Texts that name no area.
const NO_AREAS: [&str; 6] = [
    "1,2,3",
    "5,0,1,1",
    "0,0,0,9007199254740992",
    "",
    "1,2,3,4,",
    "+1,2,3,4",
];

#[test]
fn areas_are_read(rt: HostRuntime) {
    let gone = take(rt.alloc());
    let wanted = [-5, 0, 10, 9_007_199_254_740_991];
    assert!(rt; is_area("-5,0,10,9007199254740991", wanted));
    for text in NO_AREAS.iter() {
        assert!(rt; area(text).is_none(), "{text}");
    }
    assert!(rt; give(rt.alloc(), gone));
}

/// Whether a member is dropped that is there, and nothing where there is none.
fn are_dropped(value: &mut Json, left: &Json) -> bool {
    drop_member(value, "b");
    drop_member(value, "d");
    let mut none = Json::Null;
    drop_member(&mut none, "b");
    same(value, left) && same(&none, &Json::Null)
}

fn member_is_dropped(alloc: Global) -> Result<bool, Fault> {
    let mut value = read(alloc, br#"{"a":1,"b":[2],"c":3}"#)?;
    let left = read(alloc, br#"{"a":1,"c":3}"#)?;
    let gone = take(alloc);
    let are_dropped = are_dropped(&mut value, &left);
    Ok(give(alloc, gone) && are_dropped)
}

#[test]
fn a_member_is_dropped(rt: HostRuntime) -> Result<(), Fault> {
    assert!(rt; member_is_dropped(rt.alloc())?);
    Ok(())
}
