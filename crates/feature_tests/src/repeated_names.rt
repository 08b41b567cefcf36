//! Headers with several members of one name, which no text spells, but a value may have.
use byte_streams::Fault;
use city_feature::{Base, Header, HeaderFault, header, join_headers};
use city_json::{Json, Member, Str, read};
use std::alloc::Global;

/// A member whose name begins so has the name that follows.
const AGAIN: &str = "again ";

fn rename(alloc: Global, member: &mut Member) -> Result<(), Fault> {
    if let Some(name) = member.name.as_str().strip_prefix(AGAIN) {
        let renamed = Str::read(alloc, name)?;
        member.name = renamed;
    }
    Ok(())
}

fn rename_members(alloc: Global, value: &mut Json) -> Result<(), Fault> {
    if let Json::Map(members) = value {
        for member in members.iter_mut() {
            rename(alloc, member)?;
        }
    }
    Ok(())
}

fn rename_inner_members(alloc: Global, value: &mut Json) -> Result<(), Fault> {
    if let Json::Map(members) = value {
        for member in members.iter_mut() {
            rename_members(alloc, &mut member.value)?;
        }
    }
    Ok(())
}

fn header_of(alloc: Global, text: &str) -> Result<Header, Fault> {
    let mut value = read(alloc, text.as_bytes())?;
    rename_members(alloc, &mut value)?;
    rename_inner_members(alloc, &mut value)?;
    header(value)
}

fn join(alloc: Global, first: &str, second: &str, line: &str) -> Result<bool, HeaderFault> {
    let (Ok(first), Ok(second)) = (header_of(alloc, first), header_of(alloc, second)) else {
        return Ok(false);
    };
    let Ok(headers) = vec![in alloc; first, second] else {
        return Ok(false);
    };
    let joined = join_headers(alloc, &headers, Base::Least)?;
    Ok(joined.line.items() == line.as_bytes())
}

const FIRST: &str =
    r#"{"again b":1,"metadata":{"title":"t","geographicalExtent":1,"again geographicalExtent":2},"again metadata":{"geographicalExtent":3},"type":"CityJSON","again type":1,"b":2,"version":"2.0","transform":{"scale":[1,1,1],"translate":[7.0,8,9.0],"again translate":4},"extensions":{"A":1},"again transform":{"translate":5},"again extensions":{"C":3}}"#;

const SECOND: &str =
    r#"{"type":"CityJSON","version":"2.0","transform":{"scale":[1,1,1],"translate":[7,6.0,9]},"extensions":{"B":2},"again extensions":{"D":4}}"#;

/// Of the members of one name the first is changed.
const JOINED: &str =
    r#"{"b":1,"metadata":{"title":"t","geographicalExtent":2},"metadata":{"geographicalExtent":3},"type":"CityJSON","type":1,"b":2,"version":"2.0","transform":{"scale":[1,1,1],"translate":[7.0,6.0,9.0],"translate":4},"extensions":{"A":1,"B":2},"transform":{"translate":5},"extensions":{"C":3}}"#;

#[test]
fn the_first_member_of_a_name_is_changed(rt: HostRuntime) {
    assert!(rt; join(rt.alloc(), FIRST, SECOND, JOINED) == Ok(true));
}
