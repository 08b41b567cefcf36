//! The header of a document, read from the compact text of what is no city object and no vertex, so no tree of an appearance
//! is made only to be dropped.
ghost use Rattle.std.specs.Prelude.{◌≡◌, ◌++◌, ◌∷◌, [], ◌<◌, ◌&&◌, ℕ, List, IfErr, IfOk, IfSome, IsUtf8, OnSome, bytes_eq, codes, is_some, length, not, slice_range};
ghost use Rattle.city_json.specs.Bytes.{colon};
ghost use Rattle.city_json.specs.Compact.{compact, compact_members, quoted};
ghost use Rattle.city_json.specs.Members.{first_named};
ghost use Rattle.city_json.specs.ObjectTexts.{members_of, object_of};
ghost use Rattle.city_json.specs.Tree.{MemberTrees, Tree, member, tree};
ghost use Rattle.city_feature.specs.Header.{IsHeader, RefusesHeader};
ghost use Rattle.city_families.specs.Cut.{header_tree};
ghost use Rattle.cut_on_text.specs.HeaderText.{HasHeader, header_members, value_in_header, members_text_after};

use super::known;
use super::texts::append_text;
use byte_streams::{Fault, Line};
use city_feature::{Header, header, header_transform};
use city_grid::Transform;
use city_json::{Json, MemberPlace, ObjectText, between, read};
use std::alloc::Global;

/// What stands in the header for the value of a member, whose name is given with its marks and its colon.
fn value_in_header<'a>(name: &[u8], value: &'a [u8]) -> &'a [u8]
    ensures { (named : List ℕ) (old : Tree) → IsUtf8 named → name.now ≡ quoted named ++ colon ∷ []
        → value.now ≡ compact old → result.now ≡ compact (value_in_header named old) }
{
    if name == b"\"CityObjects\":".as_slice() {
        return b"{}";
    }
    if name == b"\"vertices\":".as_slice() {
        return b"[]";
    }
    value
}

/// Whether a member is left out, whose name is given with its marks and its colon.
fn is_left_out(name: &[u8], drops_appearance: bool) -> bool
    ensures { (named : List ℕ) → IsUtf8 named → name.now ≡ quoted named ++ colon ∷ []
        → result ≡ (drops_appearance && bytes_eq named (codes "appearance")) }
{
    if !drops_appearance {
        return false;
    }
    name == b"\"appearance\":".as_slice()
}

/// Appends a comma, unless only the brace of an object was written.
fn append_comma(line: &mut Line) -> Option<()>
    requires { 0 < length line.old }
    ensures some { OnSome result (0 < length line.new) }
    ensures written { OnSome result ((name : List ℕ) (value : Tree) (others : MemberTrees)
        → line.old ++ members_text_after line.old (member name value others)
        ≡ line.new ++ compact_members (member name value others)) }
{
    if line.items().len() > 1 {
        return append_text(b",", line);
    }
    Some(())
}

/// Appends the member that lies in this part, as it stands in the header.
fn append_member(
    text: &[u8],
    part: &MemberPlace,
    drops_appearance: bool,
    line: &mut Line,
) -> Option<()>
    requires { 0 < length line.old }
    ensures some { OnSome result (0 < length line.new) }
    ensures written { OnSome result ((named : List ℕ) (value : Tree) (others : MemberTrees) → IsUtf8 named
        → slice_range text.now part.now.at part.now.value ≡ quoted named ++ colon ∷ []
        → slice_range text.now part.now.value part.now.end ≡ compact value
        → line.old ++ members_text_after line.old (header_members drops_appearance (member named value others))
        ≡ line.new ++ members_text_after line.new (header_members drops_appearance others)) }
{
    let name = between(text, part.at, part.value)?;
    let value = between(text, part.value, part.end)?;
    if is_left_out(name, drops_appearance) {
        return Some(());
    }
    append_comma(line)?;
    append_text(name, line)?;
    append_text(value_in_header(name, value), line)
}

/// Whether the header has no appearance, to which geometry templates alone may refer in it.
fn drops_appearance(document: &ObjectText<'_>) -> bool
    ensures { result ≡ not (is_some (first_named (codes "geometry-templates") (members_of document.now))) }
{
    match document.value(4, b"\"geometry-templates\":") {
        Some(_) => false,
        None => true,
    }
}

/// The compact text of what the header of the document is to be.
fn header_text(alloc: Global, document: &ObjectText<'_>) -> Option<Line>
    ensures { IfSome result (λ line. line ≡ compact (header_tree (object_of document.now))) }
{
    let text = document.text();
    let drops_appearance = drops_appearance(document);
    let mut line = Line::new(alloc);
    append_text(b"{", &mut line)?;
    for part in document.parts() {
        append_member(text, part, drops_appearance, &mut line)?;
    }
    append_text(b"}", &mut line)?;
    Some(line)
}

/// What the header of the document is to be. `None`: out of memory.
fn bare_header(alloc: Global, document: &ObjectText<'_>) -> Option<Json>
    ensures { IfSome result (λ json. tree json ≡ header_tree (object_of document.now)) }
{
    known(document);
    let text = header_text(alloc, document)?;
    let Ok(json) = read(alloc, text.items()) else {
        return None;
    };
    Some(json)
}

/// The header of the document.
pub(super) fn header_of(alloc: Global, document: &ObjectText<'_>) -> Option<Header>
    ensures { IfSome result (λ header. HasHeader (object_of document.now) (tree header.json) header.grid) }
{
    let json = bare_header(alloc, document)?;
    let Ok(found) = header(json) else {
        return None;
    };
    Some(found)
}

/// The transform of what is to be the header of the document, or why it is none. `None`: out of memory.
pub(super) fn transform_there(
    alloc: Global,
    document: &ObjectText<'_>,
) -> Option<Result<Transform, Fault>>
    ensures { IfSome result (λ found. IfOk found (λ grid. IsHeader (header_tree (object_of document.now)) grid)
        × IfErr found (λ fault. RefusesHeader fault (header_tree (object_of document.now)))) }
{
    let json = bare_header(alloc, document)?;
    Some(header_transform(&json))
}
