//! A value taken as a header, or why it is none.
ghost use Rattle.std.specs.Prelude.{◌≡◌, ◌↔◌, IsTrue, IfOk, IfErr, IsOkAnd, codes};
ghost use Rattle.city_json.specs.Members.{member_of};
ghost use Rattle.city_json.specs.Tree.{tree};
ghost use Rattle.city_grid.specs.Transform.{Grid};
ghost use Rattle.city_feature.specs.Header.{HasGrid, HoldsCity, IsCityJson, IsHeader, IsVersion2};
ghost use Rattle.city_feature.specs.Header.{RefusesGrid, RefusesHeader};

use crate::headers::Header;
use crate::kinds::{MemberKind, is_there, is_where_there, says};
use byte_streams::Fault;
use city_grid::{Transform, transform};
use city_json::Json;

/// Whether it is an object of the type `CityJSON` of which `metadata`, `extensions` and `CityObjects` are
/// objects, where they are there, and `vertices` an array (CityJSON 2.0, CityJSON Object).
fn is_city_json(value: &Json) -> bool
    ensures { IsTrue result ↔ IsCityJson (tree value.now) }
{
    says(value, "type", "CityJSON")
        && is_where_there(value, "metadata", MemberKind::Object)
        && is_where_there(value, "extensions", MemberKind::Object)
        && is_where_there(value, "CityObjects", MemberKind::Object)
        && is_where_there(value, "vertices", MemberKind::Array)
}

/// Whether its version is 2.0.
fn is_version_2(value: &Json) -> bool
    ensures { IsTrue result ↔ IsVersion2 (tree value.now) }
{
    says(value, "version", "2.0")
}

/// Whether it holds city objects or vertices: its `CityObjects` is an object with a member, or its `vertices`
/// an array with an item. It says nothing else of the value.
pub fn is_document(value: &Json) -> bool
    ensures { IsTrue result ↔ HoldsCity (tree value.now) }
{
    is_there(value, "CityObjects", MemberKind::FilledObject)
        || is_there(value, "vertices", MemberKind::FilledArray)
}

/// The transform of the member `transform` (CityJSON 2.0, Transform Object).
///
/// # Errors
///
/// [`Fault::NoTransform`] where there is no such member or it is malformed, else [`Fault::Decimal`] where one
/// of its numbers is outside the profile, else [`Fault::ScaleNotPositive`].
fn transform_of(value: &Json) -> Result<Transform, Fault>
    ensures ok { IfOk result (λ grid. HasGrid (tree value.now) grid) }
    ensures only { (grid : Grid) → HasGrid (tree value.now) grid → result ≡ Ok grid }
    ensures refusal { IfErr result (λ fault.
        RefusesGrid fault (member_of (codes "transform") (tree value.now))) }
{
    let Some(member) = value.get("transform") else {
        return Err(Fault::NoTransform);
    };
    transform(member)
}

/// The transform of a value that is a header.
///
/// # Errors
///
/// Those of [`header`].
pub fn header_transform(value: &Json) -> Result<Transform, Fault>
    ensures ok { IfOk result (λ grid. IsHeader (tree value.now) grid) }
    ensures only { (grid : Grid) → IsHeader (tree value.now) grid → result ≡ Ok grid }
    ensures refusal { IfErr result (λ fault. RefusesHeader fault (tree value.now)) }
{
    if !is_city_json(value) {
        return Err(Fault::NotCityJson);
    }
    if !is_version_2(value) {
        return Err(Fault::Version);
    }
    transform_of(value)
}

/// Takes a value as a header, whether or not it holds city objects or vertices ([`is_document`]).
///
/// # Errors
///
/// [`Fault::NotCityJson`] where it is no object, or its `type` is not the text `CityJSON`, or its
/// `metadata`, `extensions` or `CityObjects` are there and no object, or its `vertices` and no
/// array; else [`Fault::Version`] where its `version` is not the text `2.0`; else
/// [`Fault::NoTransform`], [`Fault::Decimal`] or [`Fault::ScaleNotPositive`] by its `transform`.
pub fn header(json: Json) -> Result<Header, Fault>
    ensures ok { IfOk result (λ header.
        (header.json ≡ json) × IsHeader (tree json) header.grid) }
    ensures only { (grid : Grid) → IsHeader (tree json) grid
        → IsOkAnd result (λ header. header.grid ≡ grid) }
    ensures refusal { IfErr result (λ fault. RefusesHeader fault (tree json)) }
{
    let transform = header_transform(&json)?;
    Ok(Header { json, transform })
}
