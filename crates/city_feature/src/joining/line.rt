//! The header of joined tiles, which is printed from the headers as they are.
ghost use Rattle.std.specs.Prelude.{◌≡◌, ◌++◌, IfOk, IfErr, OnOk};
ghost use Rattle.city_json.specs.Compact.{compact, compact_members};
ghost use Rattle.city_json.specs.Tree.{tree, named_tree, members_tree, object};
ghost use Rattle.city_grid.specs.Axes.{number_texts};
ghost use Rattle.city_feature.specs.Joined.{joined_value};
ghost use Rattle.city_feature.specs.JoinedMembers.{all_changes, changes_after, is_later, is_next, joined_member, joined_members, last_members};
ghost use Rattle.city_feature.specs.Pieces.{members_text};
ghost use Rattle.city_feature.specs.Values.{lent_members};

use crate::headers::Header;
use crate::joining::extensions::Extensions;
use crate::joining::members::{append_with, append_without, begin_member};
use byte_streams::{Fault, Line};
use city_grid::Axes;
use city_json::{Json, Member, NumText, print};
use std::alloc::Global;

/// Which members of a header are still to be changed, each the first of its name.
#[derive(Clone, Copy)]
struct Changes {
    metadata: bool,
    extensions: bool,
    transform: bool,
}

/// Whether the first member of the wanted name is still to come, and is the one of this name.
fn is_next(to_come: bool, wanted: &str, name: &str) -> bool
    ensures { result ≡ is_next to_come wanted.now name.now }
{
    to_come && name == wanted
}

/// Whether it is still to come after the one of this name.
fn is_later(to_come: bool, wanted: &str, name: &str) -> bool
    ensures { result ≡ is_later to_come wanted.now name.now }
{
    if name == wanted {
        return false;
    }
    to_come
}

/// The changes that are still to come after a member of this name.
fn changes_after(changes: Changes, name: &str) -> Changes
    ensures { result ≡ changes_after changes name.now }
{
    Changes {
        metadata: is_later(changes.metadata, "metadata", name),
        extensions: is_later(changes.extensions, "extensions", name),
        transform: is_later(changes.transform, "transform", name),
    }
}

/// All changes: extensions are set where there are any.
fn all_changes(extensions: &Extensions<'_>) -> Changes
    ensures { result ≡ all_changes (lent_members extensions.now) }
{
    Changes {
        metadata: true,
        extensions: extensions.has_some(),
        transform: true,
    }
}

fn name_of(member: &Member) -> &str
    ensures { result.now ≡ (named_tree member.now).0 }
{
    member.name.as_str()
}

/// Appends the value of a member of the first header, as it is in the joined header.
fn append_value(
    alloc: Global,
    line: &mut Line,
    member: &Member,
    changes: Changes,
    extensions: &Extensions<'_>,
    translation: &Axes<&NumText>,
) -> Result<(), Fault>
    ensures ok { OnOk result (line.new ≡ line.old ++ compact (joined_member changes
        (lent_members extensions.now) (number_texts translation.now)
        (named_tree member.now).0 (named_tree member.now).1)) }
    ensures fault { IfErr result (λ fault. fault ≡ Fault.Memory) }
{
    let (name, value) = (member.name.as_str(), &member.value);
    if is_next(changes.metadata, "metadata", name) {
        return append_without(alloc, line, value, "geographicalExtent");
    }
    if is_next(changes.extensions, "extensions", name) {
        return extensions.append_to(alloc, line);
    }
    if is_next(changes.transform, "transform", name) {
        return append_with(alloc, line, value, "translate", translation);
    }
    print(value, line)
}

/// Appends the extensions as the last member, where they are still to come.
fn append_last(
    alloc: Global,
    line: &mut Line,
    changes: Changes,
    extensions: &Extensions<'_>,
    is_first: bool,
) -> Result<(), Fault>
    ensures ok { OnOk result (line.new
        ≡ line.old ++ members_text is_first (last_members changes (lent_members extensions.now))) }
    ensures fault { IfErr result (λ fault. fault ≡ Fault.Memory) }
{
    if !changes.extensions {
        return Ok(());
    }
    begin_member(alloc, line, "extensions", is_first)?;
    extensions.append_to(alloc, line)
}

/// Appends the members of the joined header.
fn append_header(
    alloc: Global,
    line: &mut Line,
    members: &[Member],
    extensions: &Extensions<'_>,
    translation: &Axes<&NumText>,
) -> Result<(), Fault>
    ensures ok { OnOk result (line.new ≡ line.old ++ compact_members (joined_members
        (all_changes (lent_members extensions.now)) (lent_members extensions.now)
        (number_texts translation.now) (members_tree members.now))) }
    ensures fault { IfErr result (λ fault. fault ≡ Fault.Memory) }
{
    let mut changes = all_changes(extensions);
    let mut is_first = true;
    for member in members {
        let name = name_of(member);
        begin_member(alloc, line, name, is_first)?;
        append_value(alloc, line, member, changes, extensions, translation)?;
        changes = changes_after(changes, name);
        is_first = false;
    }
    append_last(alloc, line, changes, extensions, is_first)
}

/// The members of a header.
fn members_of(header: &Header) -> &[Member]
    ensures { tree header.now.json ≡ object (members_tree result.now) }
{
    let Json::Map(members) = header.json() else {
        unreachable!();
    };
    members
}

/// The line of the header of joined tiles, with no newline: that of the first tile's header,
/// without the extent of its metadata, with these extensions where there are any, and with the
/// translation written so (CityJSON 2.0, Metadata, Extensions, Transform Object). The only fault is
/// [`Fault::Memory`].
pub(crate) fn joined_line(
    alloc: Global,
    first: &Header,
    extensions: &Extensions<'_>,
    translation: &Axes<&NumText>,
) -> Result<Line, Fault>
    ensures ok { IfOk result (λ line. line
        ≡ compact (joined_value (tree first.now.json) (lent_members extensions.now)
        (number_texts translation.now))) }
    ensures fault { IfErr result (λ fault. fault ≡ Fault.Memory) }
{
    let mut line = Line::new(alloc);
    line.append(b"{")?;
    append_header(alloc, &mut line, members_of(first), extensions, translation)?;
    line.append(b"}")?;
    Ok(line)
}
