//! The header of a document that is cut.
ghost use Rattle.std.specs.Prelude.{◌≡◌, is_some, IfOk, IfErr, OnOk, codes};
ghost use Rattle.city_json.specs.Members.{member_of};
ghost use Rattle.city_json.specs.Tree.{tree};
ghost use Rattle.city_feature.specs.Changes.{changed_member};
ghost use Rattle.city_feature.specs.Header.{HasGrid};
ghost use Rattle.city_families.specs.Cut.{HasFrame, header_tree, without_appearance};

use crate::changes::{drop_member, set_member};
use byte_streams::Fault;
use city_feature::{Header, header};
use city_json::Json;
use std::alloc::Global;

fn has_member(value: &Json, name: &str) -> bool
    ensures { result ≡ is_some (member_of name.now (tree value.now)) }
{
    value.get(name).is_some()
}

/// Puts a value in place of the member of this name, where there is one. The only fault is [`Fault::Memory`].
#[tactic(auto, using(city_families::proofs::MemberChanges::set_is_changed, city_families::proofs::MemberChanges::none_is_unchanged))]
fn exchange_member(alloc: Global, document: &mut Json, name: &str, value: Json) -> Result<(), Fault>
    ensures ok { OnOk result (tree document.new
        ≡ changed_member name.now (λ old. tree value) (tree document.old)) }
    ensures fault { IfErr result (λ fault. fault ≡ Fault.Memory) }
{
    if !has_member(document, name) {
        return Ok(());
    }
    set_member(alloc, document, name, value)
}

/// Drops the appearance, unless there are geometry templates, which may refer to it.
fn drop_appearance(document: &mut Json)
    ensures { tree document.new
        ≡ without_appearance (member_of (codes "geometry-templates") (tree document.old)) (tree document.old) }
{
    if document.get("geometry-templates").is_none() {
        drop_member(document, "appearance");
    }
}

fn empty(alloc: Global, document: &mut Json) -> Result<(), Fault>
    ensures ok { OnOk result (tree document.new ≡ header_tree (tree document.old)) }
    ensures fault { IfErr result (λ fault. fault ≡ Fault.Memory) }
{
    drop_appearance(document);
    exchange_member(alloc, document, "vertices", Json::List(Vec::new(alloc)))?;
    exchange_member(alloc, document, "CityObjects", Json::Map(Vec::new(alloc)))
}

/// The document without its city objects and vertices, and without its appearance unless it has geometry
/// templates. The only fault is [`Fault::Memory`].
pub(crate) fn document_header(alloc: Global, mut document: Json) -> Result<Header, Fault>
    requires { HasFrame (tree document) }
    ensures ok { IfOk result (λ header. (tree header.json ≡ header_tree (tree document))
        × HasGrid (tree document) header.grid) }
    ensures fault { IfErr result (λ fault. fault ≡ Fault.Memory) }
{
    empty(alloc, &mut document)?;
    header(document)
}
