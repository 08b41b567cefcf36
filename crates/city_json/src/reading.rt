//! Reading of JSON texts (RFC 8259), on three floors.
//!
//! The grammar (`specs/Grammar.antt`) relates whole texts to values and says nothing of how to read. Functions on lists
//! (`specs/Reading.antt`) say what stands at the front of the bytes, and what is left after it. The functions here are
//! those, on slices: what each makes is made of what the list function gives, unless memory was out. Laws on lists alone
//! join the second floor to the first, in both directions. What is made is the value, or nothing ([`Make`]).
ghost use Rattle.std.specs.Prelude.{◌≡◌, ◌<◌, ◌++◌, ◌∷◌, ◌&&◌, [], option_map, length, IfOk, IfErr, IsTrue, IsUtf8, MatchResult, OnOk};
ghost use Rattle.city_json.specs.Compact.{compact};
ghost use Rattle.city_json.specs.Depth.{IsDeep};
ghost use Rattle.city_json.specs.Distinct.{is_distinct, are_distinct_items, are_distinct_members};
ghost use Rattle.city_json.specs.Fits.{Fits};
ghost use Rattle.city_json.specs.Gives.{Refuses};
ghost use Rattle.city_json.specs.Grammar.{Spells};
ghost use Rattle.city_json.specs.Makes.{Makes, IsToldOf};
ghost use Rattle.city_json.specs.Members.{names};
ghost use Rattle.city_json.specs.ReadString.{string_at};
ghost use Rattle.city_json.specs.Reading.{after_white, start_of, mark_at, after_byte, word_at, number_value_at, string_value_at, scalar_at, value_at, array_at, items_at, object_at, members_at, member_at, text_at};
ghost use Rattle.city_json.specs.Refusals.{RefusesText};
ghost use Rattle.city_json.specs.Tree.{MemberTrees, Tree, object, tree};
ghost use Rattle.city_json.specs.Writable.{IsWritable};

pub(crate) mod depth;
pub(crate) mod digits;
mod making;
pub(crate) mod names;
pub(crate) mod numbers;
pub(crate) mod plain;
pub(crate) mod strings;

use crate::json::Json;
use byte_streams::Fault;
use byte_streams::limits::MAX_DEPTH;
use depth::is_deep;
use making::{Make, Nothing, Values};
use names::OpenNames;
use numbers::number;
use std::alloc::Global;
use strings::string;

/// What kind of value a first byte begins.
#[derive(Clone, Copy)]
enum Start {
    Null,
    True,
    False,
    Number,
    Text,
    List,
    Map,
    Other,
}

/// What ends an item or a member.
#[derive(Clone, Copy)]
enum AfterItem {
    Comma,
    Close,
    Neither,
}

fn start_of(byte: u8) -> Start
    ensures { result ≡ start_of byte }
{
    match byte {
        b'"' => Start::Text,
        b'[' => Start::List,
        b'{' => Start::Map,
        b'-' | b'0'..=b'9' => Start::Number,
        b'n' => Start::Null,
        b't' => Start::True,
        b'f' => Start::False,
        _ => Start::Other,
    }
}

fn after_white(bytes: &[u8]) -> &[u8]
    ensures { result.now ≡ after_white bytes.now }
{
    let mut rest = bytes;
    while let [b' ' | b'\t' | b'\n' | b'\r', tail @ ..] = rest {
        rest = tail;
    }
    rest
}

fn mark_at(close: u8, bytes: &[u8]) -> (AfterItem, &[u8])
    ensures { (result.0, result.1.now) ≡ mark_at close bytes.now }
{
    match bytes {
        [b',', rest @ ..] => (AfterItem::Comma, rest),
        [byte, rest @ ..] if *byte == close => (AfterItem::Close, rest),
        _ => (AfterItem::Neither, bytes),
    }
}

fn after_byte(wanted: u8, bytes: &[u8]) -> Option<&[u8]>
    ensures { option_map (λ rest. rest.now) result ≡ after_byte wanted bytes.now }
{
    match bytes {
        [byte, rest @ ..] if *byte == wanted => Some(rest),
        _ => None,
    }
}

/// What is held of a text while it is read, beside what is made of it.
#[derive(Drop)]
struct ReadState {
    alloc: Global,
    /// The names of the objects that are open, those of an inner one last.
    names: OpenNames,
    /// Whether the names of each object that is closed differ.
    are_distinct: bool,
    /// The last string with an escape, decoded.
    decoded: Vec<u8>,
}

/// What is made of the front of the bytes, and what follows it.
type Made<'a, T> = Result<(T, &'a [u8]), Fault>;

fn read_word<'a, M: Make>(word: &[u8], value: M::Value, bytes: &'a [u8]) -> Made<'a, M::Value>
    ensures { (is : Tree) → M.is value is → Makes M.is result (word_at word.now is bytes.now) }
{
    if bytes.starts_with(word) {
        Ok((value, &bytes[word.len()..]))
    } else {
        Err(Fault::Syntax)
    }
}

fn read_number<M: Make>(alloc: Global, bytes: &[u8]) -> Made<'_, M::Value>
    ensures { Makes M.is result (number_value_at bytes.now) }
{
    let Some((text, rest)) = number(bytes) else {
        return Err(Fault::Syntax);
    };
    Ok((M::number(alloc, text)?, rest))
}

/// The string whose opening quotation mark stands before the bytes. One with an escape is decoded into `decoded`.
fn read_string<'a, M: Make>(
    alloc: Global,
    decoded: &mut Vec<u8>,
    bytes: &'a [u8],
) -> Made<'a, M::Value>
    ensures { Makes M.is result (string_value_at bytes.now) }
{
    let (text, rest) = string(bytes, decoded)?;
    Ok((M::string(alloc, text)?, rest))
}

/// A value that is no array and no object. A string with an escape is decoded into `decoded`.
fn read_scalar<'a, M: Make>(
    alloc: Global,
    decoded: &mut Vec<u8>,
    start: Start,
    bytes: &'a [u8],
) -> Made<'a, M::Value>
    requires { 0 < length bytes.now }
    ensures { Makes M.is result (scalar_at start bytes.now) }
{
    match start {
        Start::Null => read_word::<M>(b"null", M::null(), bytes),
        Start::True => read_word::<M>(b"true", M::boolean(true), bytes),
        Start::False => read_word::<M>(b"false", M::boolean(false), bytes),
        Start::Number => read_number::<M>(alloc, bytes),
        Start::Text => read_string::<M>(alloc, decoded, &bytes[1..]),
        Start::List | Start::Map | Start::Other => Err(Fault::Syntax),
    }
}

/// The name whose opening quotation mark stands before the bytes. It is put after those of the objects that are open.
fn read_name<'a, M: Make>(held: &mut ReadState, bytes: &'a [u8]) -> Made<'a, M::Name>
    ensures made { Makes (λ made name. M.is_name made name × (held.new.names ≡ held.old.names ++ name ∷ [])) result
        (string_at bytes.now) }
    ensures are_distinct { held.new.are_distinct ≡ held.old.are_distinct }
{
    let (text, rest) = string(bytes, &mut held.decoded)?;
    held.names.push(text.as_bytes())?;
    Ok((M::name(held.alloc, text)?, rest))
}

#[cycle(value)]
fn read_value<'a, M: Make>(
    held: &mut ReadState,
    levels: usize,
    bytes: &'a [u8],
) -> Made<'a, M::Value>
    ensures made { Makes (IsToldOf M.is is_distinct held.old.are_distinct held.new.are_distinct) result
        (value_at levels bytes.now) }
    ensures names { OnOk result (held.new.names ≡ held.old.names) }
{
    let Some(first) = bytes.first() else {
        return Err(Fault::Syntax);
    };
    let start = start_of(*first);
    if levels == 0 {
        return read_scalar::<M>(held.alloc, &mut held.decoded, start, bytes);
    }
    match start {
        Start::List => read_array::<M>(held, levels - 1, &bytes[1..]),
        Start::Map => read_object::<M>(held, levels - 1, &bytes[1..]),
        _ => read_scalar::<M>(held.alloc, &mut held.decoded, start, bytes),
    }
}

#[cycle(value)]
fn read_array<'a, M: Make>(
    held: &mut ReadState,
    levels: usize,
    bytes: &'a [u8],
) -> Made<'a, M::Value>
    ensures made { Makes (IsToldOf M.is is_distinct held.old.are_distinct held.new.are_distinct) result
        (array_at (value_at levels) bytes.now) }
    ensures names { OnOk result (held.new.names ≡ held.old.names) }
{
    let bytes = after_white(bytes);
    if let Some(rest) = after_byte(b']', bytes) {
        return Ok((M::array(held.alloc, M::no_items(held.alloc))?, rest));
    }
    let (items, rest) = read_items::<M>(held, levels, bytes)?;
    Ok((M::array(held.alloc, items)?, rest))
}

#[cycle(value)]
fn read_items<'a, M: Make>(
    held: &mut ReadState,
    levels: usize,
    bytes: &'a [u8],
) -> Made<'a, M::Items>
    ensures made { Makes (IsToldOf M.are_items are_distinct_items held.old.are_distinct held.new.are_distinct) result
        (items_at (value_at levels) (length bytes.now) bytes.now) }
    ensures names { OnOk result (held.new.names ≡ held.old.names) }
{
    let mut items = M::no_items(held.alloc);
    let mut rest = bytes;
    for _ in 0..bytes.len() {
        let (value, after) = read_value::<M>(held, levels, rest)?;
        M::push_item(&mut items, value)?;
        let (mark, after) = mark_at(b']', after_white(after));
        match mark {
            AfterItem::Comma => rest = after_white(after),
            AfterItem::Close => return Ok((items, after)),
            AfterItem::Neither => return Err(Fault::Syntax),
        }
    }
    Err(Fault::Syntax)
}

#[cycle(value)]
fn read_object<'a, M: Make>(
    held: &mut ReadState,
    levels: usize,
    bytes: &'a [u8],
) -> Made<'a, M::Value>
    ensures made { Makes (IsToldOf M.is is_distinct held.old.are_distinct held.new.are_distinct) result
        (object_at (value_at levels) bytes.now) }
    ensures names { OnOk result (held.new.names ≡ held.old.names) }
{
    let bytes = after_white(bytes);
    if let Some(rest) = after_byte(b'}', bytes) {
        return Ok((M::object(held.alloc, M::no_members(held.alloc))?, rest));
    }
    let base = held.names.len();
    let (members, rest) = read_members::<M>(held, levels, bytes)?;
    let are_apart = held.names.are_apart_from(base)?;
    held.are_distinct &= are_apart;
    held.names.truncate(base);
    Ok((M::object(held.alloc, members)?, rest))
}

/// The names of the members are put after the others, and whether they differ is not looked at.
#[cycle(value)]
fn read_members<'a, M: Make>(
    held: &mut ReadState,
    levels: usize,
    bytes: &'a [u8],
) -> Made<'a, M::Members>
    ensures { Makes (λ members trees.
        IsToldOf M.are_members are_distinct_members held.old.are_distinct held.new.are_distinct members trees
        × (held.new.names ≡ held.old.names ++ names trees))
        result (members_at (value_at levels) (length bytes.now) bytes.now) }
{
    let mut members = M::no_members(held.alloc);
    let mut rest = bytes;
    for _ in 0..bytes.len() {
        let ((name, value), after) = read_member::<M>(held, levels, rest)?;
        M::push_member(&mut members, name, value)?;
        let (mark, after) = mark_at(b'}', after_white(after));
        match mark {
            AfterItem::Comma => rest = after_white(after),
            AfterItem::Close => return Ok((members, after)),
            AfterItem::Neither => return Err(Fault::Syntax),
        }
    }
    Err(Fault::Syntax)
}

#[cycle(value)]
fn read_member<'a, M: Make>(
    held: &mut ReadState,
    levels: usize,
    bytes: &'a [u8],
) -> Made<'a, (M::Name, M::Value)>
    ensures { Makes (λ made named. M.is_name made.0 named.0
        × IsToldOf M.is is_distinct held.old.are_distinct held.new.are_distinct made.1 named.1
        × (held.new.names ≡ held.old.names ++ named.0 ∷ []))
        result (member_at (value_at levels) bytes.now) }
{
    let Some(text) = after_byte(b'"', bytes) else {
        return Err(Fault::Syntax);
    };
    let (name, after) = read_name::<M>(held, text)?;
    let Some(after) = after_byte(b':', after_white(after)) else {
        return Err(Fault::Syntax);
    };
    let (value, rest) = read_value::<M>(held, levels, after_white(after))?;
    Ok(((name, value), rest))
}

/// The value that all the bytes spell, and whether the names of each of its objects differ.
fn read_text<M: Make>(alloc: Global, bytes: &[u8]) -> Result<(M::Value, bool), Fault>
    ensures { MatchResult result
        (λ told. (value : Tree) × (text_at bytes.now ≡ Some value) × M.is told.0 value × (told.1 ≡ is_distinct value))
        (λ fault. Refuses fault (text_at bytes.now)) }
{
    let mut held = ReadState {
        alloc,
        names: OpenNames::new(alloc),
        are_distinct: true,
        decoded: Vec::new(alloc),
    };
    let (value, rest) = read_value::<M>(&mut held, MAX_DEPTH, after_white(bytes))?;
    if after_white(rest).is_empty() {
        Ok((value, held.are_distinct))
    } else {
        Err(Fault::Syntax)
    }
}

/// What is made of the value that the bytes spell, or why it is not taken.
fn made_of<M: Make>(alloc: Global, bytes: &[u8]) -> Result<M::Value, Fault>
    ensures value { IfOk result (λ made. (value : Tree) × M.is made value × Spells bytes.now value × Fits value
        × ¬ IsDeep bytes.now) }
    ensures refused { IfErr result (λ fault. RefusesText fault bytes.now) }
    ensures not_utf8 { (¬ IsUtf8 bytes.now) → result ≡ Err Fault.NotUtf8 }
    ensures too_deep { IsUtf8 bytes.now → IsDeep bytes.now → result ≡ Err Fault.TooDeep }
{
    if !simdutf8::is_utf8(bytes) {
        return Err(Fault::NotUtf8);
    }
    if is_deep(bytes) {
        return Err(Fault::TooDeep);
    }
    let (value, are_distinct) = read_text::<M>(alloc, bytes)?;
    if are_distinct {
        Ok(value)
    } else {
        Err(Fault::DuplicateName)
    }
}

/// Reads a JSON text (RFC 8259) into its value.
///
/// Memory is taken for the value, and while it is read for the names of the objects that are open, for one string with
/// escapes, and for objects of many members for a list of their names.
///
/// # Errors
///
/// In this order: [`Fault::NotUtf8`]; [`Fault::TooDeep`] where at some place more than 128 brackets are open;
/// [`Fault::Syntax`] where no value is spelled, a lone surrogate among the causes; [`Fault::DuplicateName`] where an
/// object has a name twice. The first two come before any memory is asked for. [`Fault::Memory`] may stand in place of
/// the last two, and of a value.
pub fn read(alloc: Global, bytes: &[u8]) -> Result<Json, Fault>
    ensures value { IfOk result (λ value. Spells bytes.now (tree value) × Fits (tree value)
        × ¬ IsDeep bytes.now) }
    ensures refused { IfErr result (λ fault. RefusesText fault bytes.now) }
    ensures not_utf8 { (¬ IsUtf8 bytes.now) → result ≡ Err Fault.NotUtf8 }
    ensures too_deep { IsUtf8 bytes.now → IsDeep bytes.now → result ≡ Err Fault.TooDeep }
    // What was printed of a value is read again as that value.
    ensures printed { (value : Tree) → IsWritable value → Fits value → bytes.now ≡ compact value →
        MatchResult result (λ again. tree again ≡ value) (λ fault. fault ≡ Fault.Memory) }
{
    made_of::<Values>(alloc, bytes)
}

/// Whether a JSON text (RFC 8259) is taken by [`read`], and why not, with no value of it held.
///
/// Memory is taken for the names of the objects that are open and for one string with escapes, and for objects of many
/// members a list of their names.
///
/// # Errors
///
/// Those of [`read`], in the same order. [`Fault::Memory`] may stand in place of the last two, and of an
/// answer that the text is taken.
pub(crate) fn check(alloc: Global, bytes: &[u8]) -> Result<(), Fault>
    ensures taken { OnOk result ((value : Tree) × Spells bytes.now value × Fits value
        × ¬ IsDeep bytes.now) }
    ensures refused { IfErr result (λ fault. RefusesText fault bytes.now) }
    ensures not_utf8 { (¬ IsUtf8 bytes.now) → result ≡ Err Fault.NotUtf8 }
    ensures too_deep { IsUtf8 bytes.now → IsDeep bytes.now → result ≡ Err Fault.TooDeep }
{
    made_of::<Nothing>(alloc, bytes)
}

/// Whether the text spells no object, whatever else it spells: no brace opens after white space.
pub(crate) fn spells_no_object(bytes: &[u8]) -> bool
    ensures { IsTrue result → (members : MemberTrees) → ¬ Spells bytes.now (object members) }
{
    after_byte(b'{', after_white(bytes)).is_none()
}
