//! The compact text of a value: no white space, numbers as they were written, strings in one spelling.
ghost use Rattle.std.specs.Prelude.{◌≡◌, ◌++◌, ◌∷◌, ◌<◌, ◌≤◌, length, take, drop, OnOk, OnErr, IfOk, IfErr, IsUtf8};
ghost use Rattle.std.specs.Char.{digit_char, encode_utf8};
ghost use Rattle.std.specs.List.{flat_map};
ghost use Rattle.city_json.specs.Bytes.{colon, comma};
ghost use Rattle.city_json.specs.Compact.{written, quoted, compact, compact_items, compact_members};
ghost use Rattle.city_json.specs.Tree.{tree, named_tree, items_tree, members_tree};
ghost use Rattle.city_json.specs.Writable.{IsWritable, AreWritableItems, AreWritableMembers};

use crate::json::{Json, Member};
use crate::reading::plain::plain_len;
use byte_streams::{Fault, Line};
use std::alloc::AllocError;

/// Appends the compact text of `value` to `line`. Out of memory, the line is as before, and the
/// answer is [`Fault::Memory`].
pub fn print(value: &Json, line: &mut Line) -> Result<(), Fault>
    ensures ok { OnOk result (line.new ≡ line.old ++ compact (tree value.now)) }
    ensures err { OnErr result (line.new ≡ line.old) }
    ensures writable { OnOk result (IsWritable (tree value.now)) }
    ensures fault { IfErr result (λ fault. fault ≡ Fault.Memory) }
{
    let before = line.items().len();
    let printed = put_value(line, value);
    if printed.is_err() {
        line.truncate(before);
    }
    Ok(printed?)
}

#[cycle(put)]
pub(crate) fn put_value(line: &mut Line, value: &Json) -> Result<(), AllocError>
    ensures ok { OnOk result (line.new ≡ line.old ++ compact (tree value.now)) }
    ensures front { take (length line.old) line.new ≡ line.old }
    ensures writable { OnOk result (IsWritable (tree value.now)) }
{
    match value {
        Json::Null => line.append(b"null"),
        Json::Bool(true) => line.append(b"true"),
        Json::Bool(false) => line.append(b"false"),
        Json::Num(number) => line.append(number.as_bytes()),
        Json::Text(text) => put_string(line, text.as_str()),
        Json::List(items) => {
            line.append(b"[")?;
            put_items(line, items)?;
            line.append(b"]")
        }
        Json::Map(members) => {
            line.append(b"{")?;
            put_members(line, members)?;
            line.append(b"}")
        }
    }
}

#[cycle(put)]
fn put_items(line: &mut Line, items: &[Json]) -> Result<(), AllocError>
    ensures ok { OnOk result (line.new ≡ line.old ++ compact_items (items_tree items.now)) }
    ensures front { take (length line.old) line.new ≡ line.old }
    ensures writable { OnOk result (AreWritableItems (items_tree items.now)) }
{
    let [first, others @ ..] = items else {
        return Ok(());
    };
    put_value(line, first)?;
    for item in others {
        put_next_item(line, item)?;
    }
    Ok(())
}

#[cycle(put)]
fn put_next_item(line: &mut Line, item: &Json) -> Result<(), AllocError>
    ensures ok { OnOk result (line.new ≡ line.old ++ comma ∷ compact (tree item.now)) }
    ensures front { take (length line.old) line.new ≡ line.old }
    ensures writable { OnOk result (IsWritable (tree item.now)) }
{
    line.append(b",")?;
    put_value(line, item)
}

#[cycle(put)]
fn put_members(line: &mut Line, members: &[Member]) -> Result<(), AllocError>
    ensures ok { OnOk result (line.new ≡ line.old ++ compact_members (members_tree members.now)) }
    ensures front { take (length line.old) line.new ≡ line.old }
    ensures writable { OnOk result (AreWritableMembers (members_tree members.now)) }
{
    let [first, others @ ..] = members else {
        return Ok(());
    };
    put_member(line, first)?;
    for member in others {
        put_next_member(line, member)?;
    }
    Ok(())
}

#[cycle(put)]
fn put_next_member(line: &mut Line, member: &Member) -> Result<(), AllocError>
    ensures ok { OnOk result (line.new ≡ line.old ++ comma
        ∷ quoted (named_tree member.now).0 ++ colon ∷ compact (named_tree member.now).1) }
    ensures front { take (length line.old) line.new ≡ line.old }
    ensures writable { OnOk result (IsUtf8 (named_tree member.now).0
        × IsWritable (named_tree member.now).1) }
{
    line.append(b",")?;
    put_member(line, member)
}

#[cycle(put)]
fn put_member(line: &mut Line, member: &Member) -> Result<(), AllocError>
    ensures ok { OnOk result (line.new ≡ line.old ++ quoted (named_tree member.now).0 ++ colon
        ∷ compact (named_tree member.now).1) }
    ensures front { take (length line.old) line.new ≡ line.old }
    ensures writable { OnOk result (IsUtf8 (named_tree member.now).0
        × IsWritable (named_tree member.now).1) }
{
    put_string(line, member.name.as_str())?;
    line.append(b":")?;
    put_value(line, &member.value)
}

pub(crate) fn put_string(line: &mut Line, text: &str) -> Result<(), AllocError>
    ensures ok { OnOk result (line.new ≡ line.old ++ quoted text.now) }
    ensures front { take (length line.old) line.new ≡ line.old }
{
    line.append(b"\"")?;
    put_characters(line, text.as_bytes())?;
    line.append(b"\"")
}

fn put_characters(line: &mut Line, text: &[u8]) -> Result<(), AllocError>
    ensures ok { OnOk result (line.new ≡ line.old ++ flat_map written text.now) }
    ensures front { take (length line.old) line.new ≡ line.old }
{
    let mut rest = text;
    while !rest.is_empty() {
        rest = put_run(line, rest)?;
    }
    Ok(())
}

/// Appends the first bytes of `text`, up to one that needs an escape and that one too. The answer is what is
/// left of `text`.
fn put_run<'a>(line: &mut Line, text: &'a [u8]) -> Result<&'a [u8], AllocError>
    requires { 0 < length text.now }
    ensures ok { IfOk result (λ rest. line.new ++ flat_map written rest.now
        ≡ line.old ++ flat_map written text.now) }
    ensures shorter { IfOk result (λ rest. length rest.now < length text.now) }
    ensures front { take (length line.old) line.new ≡ line.old }
{
    let run = run_length(text);
    line.append(&text[..run])?;
    if run == text.len() {
        return Ok(&text[run..]);
    }
    line.append(escape_bytes(text[run], &mut [0; 6]))?;
    Ok(&text[run + 1..])
}

/// How many bytes at the front of `text` are written as they are.
#[tactic(auto, using(crate::proofs::CompactText::written_run))]
fn run_length(text: &[u8]) -> usize
    ensures within { result ≤ length text.now }
    ensures run { take result text.now ++ flat_map written (drop result text.now)
        ≡ flat_map written text.now }
{
    plain_len(text)
}

/// What is written for a character of a text, in `room` where it does not stand elsewhere.
#[inline(always)]
pub(crate) fn character_bytes<'a>(character: char, room: &'a mut [u8; 6]) -> &'a [u8]
    ensures { result.now ≡ flat_map written (encode_utf8 character) }
{
    if character.is_ascii() {
        return escape_bytes(character as u8, room);
    }
    character.encode_utf8(room).as_bytes()
}

/// What is written for a byte of a text, in `room` where it does not stand elsewhere.
fn escape_bytes<'a>(byte: u8, room: &'a mut [u8; 6]) -> &'a [u8]
    ensures { result.now ≡ written byte }
{
    match byte {
        b'"' => b"\\\"",
        b'\\' => b"\\\\",
        b'\x08' => b"\\b",
        b'\x0c' => b"\\f",
        b'\n' => b"\\n",
        b'\r' => b"\\r",
        b'\t' => b"\\t",
        ..=b'\x1f' => {
            *room = [b'\\', b'u', b'0', b'0', digit(byte / 16), digit(byte % 16)];
            room
        }
        _ => {
            *room = [byte, 0, 0, 0, 0, 0];
            &room[..1]
        }
    }
}

/// The hexadecimal digit of a value below 16, in lower case.
fn digit(value: u8) -> u8
    requires { value < 16 }
    ensures { result ≡ digit_char value }
{
    if value < 10 {
        b'0' + value
    } else {
        b'a' + (value - 10)
    }
}
