//! Objects that are appended to a line member by member, with no copy of a value. The only fault of each function is
//! [`Fault::Memory`].
ghost use Rattle.std.specs.Prelude.{◌≡◌, ◌++◌, ◌∷◌, [], map, IfOk, OnOk, IfErr, IsTrue, bytes_eq, position};
ghost use Rattle.std.specs.List.{flat_map};
ghost use Rattle.city_json.specs.Compact.{compact, quoted, written};
ghost use Rattle.city_json.specs.Tree.{Tree, tree, named_tree, members_tree, member_trees, object, string};
ghost use Rattle.city_grid.specs.Axes.{number_texts, three};
ghost use Rattle.city_feature.specs.Changes.{with_member, with_named, without_member, without_named};
ghost use Rattle.city_feature.specs.Pieces.{members_text, separator, start_text};

use byte_streams::{Fault, Line};
use city_grid::Axes;
use city_json::{Json, Member, NumText, Str, print};
use std::alloc::Global;

fn append_separator(line: &mut Line, is_first: bool) -> Result<(), Fault>
    ensures ok { OnOk result (line.new ≡ line.old ++ separator is_first) }
    ensures fault { IfErr result (λ fault. fault ≡ Fault.Memory) }
{
    if is_first {
        return Ok(());
    }
    line.append(b",")?;
    Ok(())
}

/// A text as a value. The only fault is [`Fault::Memory`].
pub fn text_json(alloc: Global, text: &str) -> Result<Json, Fault>
    ensures ok { IfOk result (λ json. tree json ≡ string text.now) }
    ensures fault { IfErr result (λ fault. fault ≡ Fault.Memory) }
{
    Ok(Json::Text(Str::read(alloc, text)?))
}

/// Whether a byte of a text is written as itself (RFC 8259, section 7).
fn is_plain_byte(byte: u8) -> bool
    ensures { IsTrue result → written byte ≡ byte ∷ [] }
{
    byte >= b' ' && byte != b'"' && byte != b'\\'
}

/// Whether each byte of a text is written as itself.
fn is_plain(text: &str) -> bool
    ensures { IsTrue result → flat_map written text.now ≡ text.now }
{
    for byte in text.as_bytes() {
        if !is_plain_byte(*byte) {
            return false;
        }
    }
    true
}

fn append_plain(line: &mut Line, text: &str) -> Result<(), Fault>
    requires { flat_map written text.now ≡ text.now }
    ensures ok { OnOk result (line.new ≡ line.old ++ quoted text.now) }
    ensures fault { IfErr result (λ fault. fault ≡ Fault.Memory) }
{
    line.append(b"\"")?;
    line.append(text.as_bytes())?;
    line.append(b"\"")?;
    Ok(())
}

/// Appends the compact text of a text. Only one with escapes takes memory of its own.
fn append_text(alloc: Global, line: &mut Line, text: &str) -> Result<(), Fault>
    ensures ok { OnOk result (line.new ≡ line.old ++ quoted text.now) }
    ensures fault { IfErr result (λ fault. fault ≡ Fault.Memory) }
{
    if is_plain(text) {
        return append_plain(line, text);
    }
    print(&text_json(alloc, text)?, line)
}

/// Appends what stands before the value of a member.
pub(crate) fn begin_member(
    alloc: Global,
    line: &mut Line,
    name: &str,
    is_first: bool,
) -> Result<(), Fault>
    ensures ok { OnOk result (line.new ≡ line.old ++ start_text is_first name.now) }
    ensures fault { IfErr result (λ fault. fault ≡ Fault.Memory) }
{
    append_separator(line, is_first)?;
    append_text(alloc, line, name)?;
    line.append(b":")?;
    Ok(())
}

/// Appends a member, its value as it is.
pub(crate) fn append_member(
    alloc: Global,
    line: &mut Line,
    name: &str,
    value: &Json,
    is_first: bool,
) -> Result<(), Fault>
    ensures ok { OnOk result (line.new
        ≡ line.old ++ start_text is_first name.now ++ compact (tree value.now)) }
    ensures fault { IfErr result (λ fault. fault ≡ Fault.Memory) }
{
    begin_member(alloc, line, name, is_first)?;
    print(value, line)
}

/// Appends members as they are; the first of them is the first of its object, or comes after others.
fn append_members(
    alloc: Global,
    line: &mut Line,
    members: &[Member],
    are_first: bool,
) -> Result<(), Fault>
    ensures ok { OnOk result (line.new
        ≡ line.old ++ members_text are_first (members_tree members.now)) }
    ensures fault { IfErr result (λ fault. fault ≡ Fault.Memory) }
{
    let mut is_first = are_first;
    for member in members {
        append_member(alloc, line, member.name.as_str(), &member.value, is_first)?;
        is_first = false;
    }
    Ok(())
}

fn has_name(member: &Member, name: &str) -> bool
    ensures { result ≡ bytes_eq (named_tree member.now).0 name.now }
{
    member.name.as_str() == name
}

/// Where the first member of this name stands.
fn place_of(members: &[Member], name: &str) -> Option<usize>
    ensures { result ≡ position (λ member. bytes_eq (named_tree member).0 name.now) members.now }
{
    members.iter().position(|member| has_name(member, name))
}

/// The members before the first of this name, and those after it; all and none where there is none.
fn around<'a>(members: &'a [Member], name: &str) -> (&'a [Member], &'a [Member])
    ensures dropped { without_named name.now (members_tree members.now)
        ≡ member_trees (map named_tree result.0.now ++ map named_tree result.1.now) }
    ensures set { (value : Tree) → with_named name.now value (members_tree members.now)
        ≡ member_trees (map named_tree result.0.now ++ (name.now, value)
        ∷ map named_tree result.1.now) }
{
    if let Some(place) = place_of(members, name) {
        return (&members[..place], &members[place + 1..]);
    }
    (members, &[])
}

/// Appends a value without its first member of this name; one that is no object as it is.
pub(crate) fn append_without(
    alloc: Global,
    line: &mut Line,
    value: &Json,
    name: &str,
) -> Result<(), Fault>
    ensures ok { OnOk result (line.new
        ≡ line.old ++ compact (without_member name.now (tree value.now))) }
    ensures fault { IfErr result (λ fault. fault ≡ Fault.Memory) }
{
    let Json::Map(members) = value else {
        return print(value, line);
    };
    let (before, after) = around(members, name);
    line.append(b"{")?;
    append_members(alloc, line, before, true)?;
    append_members(alloc, line, after, before.is_empty())?;
    line.append(b"}")?;
    Ok(())
}

/// Appends the array of three numbers, as they are written.
fn append_three(line: &mut Line, numbers: &Axes<&NumText>) -> Result<(), Fault>
    ensures ok { OnOk result (line.new ≡ line.old ++ compact (three (number_texts numbers.now))) }
    ensures fault { IfErr result (λ fault. fault ≡ Fault.Memory) }
{
    line.append(b"[")?;
    line.append(numbers.x.as_bytes())?;
    line.append(b",")?;
    line.append(numbers.y.as_bytes())?;
    line.append(b",")?;
    line.append(numbers.z.as_bytes())?;
    line.append(b"]")?;
    Ok(())
}

/// Appends a value with three numbers, as they are written, for its first member of this name, or as the last where
/// there is none; one that is no object as it is.
pub(crate) fn append_with(
    alloc: Global,
    line: &mut Line,
    value: &Json,
    name: &str,
    numbers: &Axes<&NumText>,
) -> Result<(), Fault>
    ensures ok { OnOk result (line.new ≡ line.old ++ compact
        (with_member name.now (three (number_texts numbers.now)) (tree value.now))) }
    ensures fault { IfErr result (λ fault. fault ≡ Fault.Memory) }
{
    let Json::Map(members) = value else {
        return print(value, line);
    };
    let (before, after) = around(members, name);
    line.append(b"{")?;
    append_members(alloc, line, before, true)?;
    begin_member(alloc, line, name, before.is_empty())?;
    append_three(line, numbers)?;
    append_members(alloc, line, after, false)?;
    line.append(b"}")?;
    Ok(())
}
