//! Nested arrays of whole numbers in their compact text, 64 bytes at a time.
ghost use Rattle.std.specs.Prelude.{◌≡◌, ◌<◌, ◌≤◌, ◌+◌, ◌-◌, ◌++◌, ◌∷◌, ◌==◌, ◌||◌, ◌&&◌, Bool, false, true, if◌then◌else◌, ℕ, List, length, map, take, slice_index, slice_range, IfSome, IsTrue};
ghost use Rattle.std.specs.Char.{is_ascii_digit};
ghost use Rattle.std.specs.Simd.Lanes.{mask_l};
ghost use Rattle.byte_streams.specs.Limits.{max_depth};
ghost use Rattle.city_json.specs.Bytes.{open_bracket, close_bracket, comma};
ghost use Rattle.city_json.specs.Whole.{AreFine, StaysOpen, Closes, IsItemsText, after_comma, stage_of, is_wrong, begins_zero, zeroed_by, is_place, lag, ups, downs};

use crate::reading::depth::marks_of;
use byte_streams::limits::MAX_DEPTH;
use std::simd::prelude::*;

/// The brackets of a block, and whether it ends with a zero that begins a number.
#[derive(Clone, Copy, Drop)]
struct Brackets {
    opens: u64,
    closes: u64,
    zeroed: bool,
}

/// A bit for each digit.
#[inline(always)]
pub(super) fn digit_marks(block: u8x64) -> u64
    ensures { result ≡ mask_l (map is_ascii_digit block) }
{
    (block.simd_ge(u8x64::splat(b'0')) & block.simd_le(u8x64::splat(b'9'))).to_bitmask()
}

#[inline(always)]
fn one_if(first: bool) -> u64
    ensures value { result ≡ (if first then 1 else 0) }
    ensures small { result ≤ 1 }
{
    if first { 1 } else { 0 }
}

#[inline(always)]
fn is_digit_byte(byte: u8) -> bool
    ensures { result ≡ is_ascii_digit byte }
{
    byte.is_ascii_digit()
}

/// Whether an item may begin after the byte.
#[inline(always)]
fn leads_item(byte: u8) -> bool
    ensures { result ≡ ((byte == open_bracket) || (byte == comma)) }
{
    byte == b'[' || byte == b','
}

/// Each bit one place up, after a first one.
#[inline(always)]
fn lag(mask: u64, first: bool) -> u64
    ensures { (marks : List Bool) → length marks ≡ 64 → mask ≡ mask_l marks
        → result ≡ mask_l (lag first marks) }
{
    (mask << 1) + one_if(first)
}

/// The brackets of a block in which each byte may stand where it stands, after the byte `before`.
#[inline(always)]
fn brackets_of(block: u8x64, before: u8, zeroed: bool) -> Option<Brackets>
    ensures fine { IfSome result (λ found. AreFine before zeroed block) }
    ensures opens { IfSome result (λ found. found.opens
        ≡ mask_l (map (λ b. b == open_bracket) block)) }
    ensures closes { IfSome result
        (λ found. found.closes ≡ mask_l (map (λ b. b == close_bracket) block)) }
    ensures zeroed { IfSome result (λ found. found.zeroed ≡ zeroed_by before zeroed block) }
{
    let digits = digit_marks(block);
    let commas = marks_of(block, b',');
    let opens = marks_of(block, b'[');
    let closes = marks_of(block, b']');
    if digits | (commas | (opens | closes)) != u64::MAX {
        return None;
    }
    let vain = marks_of(block, b'0') & lag(opens | commas, leads_item(before));
    if lag(opens, before == b'[') & commas != 0 {
        return None;
    }
    if lag(closes, before == b']') & (digits | opens) != 0 {
        return None;
    }
    if lag(commas, before == b',') & (commas | closes) != 0 {
        return None;
    }
    if lag(digits, is_digit_byte(before)) & opens != 0 {
        return None;
    }
    if lag(vain, zeroed) & digits != 0 {
        return None;
    }
    Some(Brackets {
        opens,
        closes,
        zeroed: !((vain >> 63) & 1 == 0),
    })
}

/// Whether nesting stays above 0 throughout a block, from one closing bracket to the next.
#[inline(always)]
fn stays_open_by_brackets(depth: usize, opens: u64, closes: u64) -> bool
    requires { depth ≤ 2000 }
    ensures { IsTrue result → (bytes : List ℕ) → length bytes ≤ 64
        → opens ≡ mask_l (map (λ b. b == open_bracket) bytes)
        → closes ≡ mask_l (map (λ b. b == close_bracket) bytes) → StaysOpen depth bytes }
{
    let mut left = depth;
    let mut up = opens;
    let mut down = closes;
    'rounds: for round in 0..64usize {
        if left == 0 {
            return false;
        }
        if down == 0 {
            return true;
        }
        let place = down.trailing_zeros();
        if place >= 64 {
            return false;
        }
        left = (left + (up % (1u64 << place)).count_ones() as usize) - 1;
        up = (up >> place) >> 1;
        down = (down >> place) >> 1;
    }
    false
}

/// The same as a call, where it is seldom needed.
#[inline(never)]
fn stays_open_slowly(depth: usize, opens: u64, closes: u64) -> bool
    requires { depth ≤ 2000 }
    ensures { IsTrue result → (bytes : List ℕ) → length bytes ≤ 64
        → opens ≡ mask_l (map (λ b. b == open_bracket) bytes)
        → closes ≡ mask_l (map (λ b. b == close_bracket) bytes) → StaysOpen depth bytes }
{
    stays_open_by_brackets(depth, opens, closes)
}

/// How many arrays are open after a block, where nesting stays above 0 throughout it. Where fewer close than were open
/// it does, in whatever order the brackets stand.
#[inline(always)]
fn open_after(depth: usize, opens: u64, closes: u64) -> Option<usize>
    requires { depth ≤ 2000 }
    ensures few { IfSome result (λ left. left ≤ depth + 64) }
    ensures some { IfSome result (λ left. 0 < left) }
    ensures stays_open { IfSome result (λ left. (bytes : List ℕ) → length bytes ≤ 64
        → opens ≡ mask_l (map (λ b. b == open_bracket) bytes)
        → closes ≡ mask_l (map (λ b. b == close_bracket) bytes)
        → StaysOpen depth bytes × (left ≡ depth + ups bytes - downs bytes)) }
{
    let opened = opens.count_ones() as usize;
    let closed = closes.count_ones() as usize;
    if closed < depth {
        return Some(depth + opened - closed);
    }
    if closed >= depth + opened || !stays_open_slowly(depth, opens, closes) {
        return None;
    }
    Some(depth + opened - closed)
}

/// Whether nesting stays above 0 throughout a block: 16 bytes at a time, in which there are mostly fewer closing
/// brackets than arrays that are open.
#[inline(always)]
fn stays_open_by_parts(depth: usize, opens: u64, closes: u64) -> bool
    requires { depth ≤ 1000 }
    ensures { IsTrue result → (bytes : List ℕ) → length bytes ≤ 64
        → opens ≡ mask_l (map (λ b. b == open_bracket) bytes)
        → closes ≡ mask_l (map (λ b. b == close_bracket) bytes) → StaysOpen depth bytes }
{
    let mut left = depth;
    let mut up = opens;
    let mut down = closes;
    'rounds: for round in 0..4usize {
        let Some(next) = open_after(left, up % (1u64 << 16), down % (1u64 << 16)) else {
            return false;
        };
        left = next;
        up >>= 16;
        down >>= 16;
    }
    true
}

/// Where for each array that is open so many brackets close in a block, or more, there are mostly 16 bytes that close as
/// many as are open.
const MANY_CLOSED: usize = 3;

/// Whether nesting stays above 0 throughout the block. It does where fewer brackets close than were open.
#[inline(always)]
fn stays_open(depth: usize, opens: u64, closes: u64) -> bool
    requires { depth ≤ 1000 }
    ensures { IsTrue result → (bytes : List ℕ) → length bytes ≤ 64
        → opens ≡ mask_l (map (λ b. b == open_bracket) bytes)
        → closes ≡ mask_l (map (λ b. b == close_bracket) bytes) → StaysOpen depth bytes }
{
    let closed = closes.count_ones() as usize;
    if depth > closed {
        return true;
    }
    if closed >= MANY_CLOSED * depth {
        return stays_open_by_brackets(depth, opens, closes);
    }
    stays_open_by_parts(depth, opens, closes)
}

/// How many arrays are open at a place, how deep its items may still nest, and whether a zero that begins a number
/// stands before it.
#[derive(Clone, Copy, Drop)]
struct OpenArrays {
    depth: usize,
    room: usize,
    zeroed: bool,
}

/// What stands after the 64 bytes at `at`, where they go on with arrays of whole numbers.
#[inline(always)]
fn after_block(text: &[u8], at: usize, from: OpenArrays) -> Option<OpenArrays>
    requires some { 0 < at }
    requires within { at + 64 ≤ length text.now }
    requires levels { from.depth + from.room ≤ max_depth + 1 }
    requires place { is_place (slice_index text.now (at - 1)) ≡ true }
    ensures open { IfSome result (λ to. 0 < to.depth) }
    ensures sum { IfSome result (λ to. to.depth + to.room ≡ from.depth + from.room) }
    ensures place { IfSome result (λ to. is_place (slice_index text.now (at + 63)) ≡ true) }
    ensures goes_on { IfSome result (λ to. (further : List ℕ)
        → Closes to.depth to.room (stage_of (slice_index text.now (at + 63)) to.zeroed) further
        → Closes from.depth from.room (stage_of (slice_index text.now (at - 1)) from.zeroed) (slice_range text.now at (at + 64) ++ further)) }
{
    let found = brackets_of(u8x64::from_slice(&text[at..]), text[at - 1], from.zeroed)?;
    let opened = found.opens.count_ones() as usize;
    let closed = found.closes.count_ones() as usize;
    if opened > from.room
        || !stays_open(from.depth, found.opens, found.closes)
        || closed > from.depth + opened
    {
        return None;
    }
    Some(OpenArrays {
        depth: from.depth + opened - closed,
        room: from.room + closed - opened,
        zeroed: found.zeroed,
    })
}

/// What stands after the byte at `at`, where it goes on with arrays of whole numbers.
#[inline(always)]
fn after_byte(text: &[u8], at: usize, from: OpenArrays) -> Option<OpenArrays>
    requires some { 0 < at }
    requires within { at < length text.now }
    requires open { 0 < from.depth }
    requires levels { from.depth + from.room ≤ max_depth + 1 }
    requires place { is_place (slice_index text.now (at - 1)) ≡ true }
    ensures sum { IfSome result (λ to. to.depth + to.room ≡ from.depth + from.room) }
    ensures place { IfSome result (λ to. is_place (slice_index text.now at) ≡ true) }
    ensures goes_on { IfSome result (λ to. (further : List ℕ)
        → Closes to.depth to.room (stage_of (slice_index text.now at) to.zeroed) further
        → Closes from.depth from.room (stage_of (slice_index text.now (at - 1)) from.zeroed) (slice_index text.now at ∷ further)) }
{
    let before = text[at - 1];
    let byte = text[at];
    if is_digit_byte(byte) {
        if may_not_follow(before, byte) {
            return None;
        }
        if from.zeroed {
            return None;
        }
        return Some(OpenArrays {
            depth: from.depth,
            room: from.room,
            zeroed: begins_with_zero(before, byte),
        });
    }
    if byte == b',' {
        if may_not_follow(before, b',') {
            return None;
        }
        return Some(OpenArrays {
            depth: from.depth,
            room: from.room,
            zeroed: false,
        });
    }
    if byte == b'[' {
        if may_not_follow(before, b'[') {
            return None;
        }
        if from.room == 0 {
            return None;
        }
        return Some(OpenArrays {
            depth: from.depth + 1,
            room: from.room - 1,
            zeroed: false,
        });
    }
    if byte == b']' {
        if may_not_follow(before, b']') {
            return None;
        }
        return Some(OpenArrays {
            depth: from.depth - 1,
            room: from.room + 1,
            zeroed: false,
        });
    }
    None
}

#[inline(always)]
fn may_not_follow(before: u8, byte: u8) -> bool
    ensures { result ≡ is_wrong before byte }
{
    (before == b'[' && byte == b',')
        || ((before == b']' && (byte.is_ascii_digit() || byte == b'['))
            || ((before == b',' && (byte == b',' || byte == b']'))
                || (before.is_ascii_digit() && byte == b'[')))
}

#[inline(always)]
fn begins_with_zero(before: u8, byte: u8) -> bool
    ensures { result ≡ begins_zero before byte }
{
    byte == b'0' && leads_item(before)
}

/// A bit for each digit, comma and bracket of a block.
#[derive(Clone, Copy, Drop)]
struct BlockMarks {
    digits: u64,
    commas: u64,
    opens: u64,
    closes: u64,
}

#[inline(always)]
fn marks_in(block: u8x64) -> BlockMarks
    ensures digits { result.digits ≡ mask_l (map is_ascii_digit block) }
    ensures commas { result.commas ≡ mask_l (map (λ b. b == comma) block) }
    ensures opens { result.opens ≡ mask_l (map (λ b. b == open_bracket) block) }
    ensures closes { result.closes ≡ mask_l (map (λ b. b == close_bracket) block) }
{
    BlockMarks {
        digits: digit_marks(block),
        commas: marks_of(block, b','),
        opens: marks_of(block, b'['),
        closes: marks_of(block, b']'),
    }
}

/// Whether each of the first bytes of a block may stand where it stands, after the byte `before`.
#[inline(always)]
fn is_front_fine(block: u8x64, marks: BlockMarks, before: u8, zeroed: bool, len: usize) -> bool
    requires digits { marks.digits ≡ mask_l (map is_ascii_digit block) }
    requires commas { marks.commas ≡ mask_l (map (λ b. b == comma) block) }
    requires opens { marks.opens ≡ mask_l (map (λ b. b == open_bracket) block) }
    requires closes { marks.closes ≡ mask_l (map (λ b. b == close_bracket) block) }
    requires few { len ≤ 63 }
    ensures { IsTrue result → AreFine before zeroed (take len block) }
{
    let digits = marks.digits;
    let commas = marks.commas;
    let opens = marks.opens;
    let closes = marks.closes;
    let front = 1u64 << len;
    if (digits | (commas | (opens | closes))) % front != front - 1 {
        return false;
    }
    let vain = marks_of(block, b'0') & lag(opens | commas, leads_item(before));
    if (lag(opens, before == b'[') & commas) % front != 0 {
        return false;
    }
    if (lag(closes, before == b']') & (digits | opens)) % front != 0 {
        return false;
    }
    if (lag(commas, before == b',') & (commas | closes)) % front != 0 {
        return false;
    }
    if (lag(digits, is_digit_byte(before)) & opens) % front != 0 {
        return false;
    }
    if (lag(vain, zeroed) & digits) % front != 0 {
        return false;
    }
    true
}

/// Whether so many open arrays stay open up to the byte at `last`, which closes them.
#[inline(always)]
fn closes_at(depth: usize, opens: u64, closes: u64, last: usize) -> bool
    requires depth { depth ≤ 1000 }
    requires few { last ≤ 62 }
    ensures { IsTrue result → (bytes : List ℕ) → length bytes ≡ 64
        → opens ≡ mask_l (map (λ b. b == open_bracket) bytes)
        → closes ≡ mask_l (map (λ b. b == close_bracket) bytes)
        → StaysOpen depth (take last bytes)
        × (depth + ups (take (last + 1) bytes) ≡ downs (take (last + 1) bytes)) }
{
    let before = 1u64 << last;
    let front = 1u64 << (last + 1);
    let opened = (opens % front).count_ones() as usize;
    let closed = (closes % front).count_ones() as usize;
    if depth + opened != closed {
        return false;
    }
    stays_open(depth, opens % before, closes % before)
}

/// How many bytes there are up to the last closing bracket before any byte that may not stand in the arrays.
#[inline(always)]
fn front_len(marks: BlockMarks) -> usize
    ensures { result ≤ 64 }
{
    let places = marks.digits | (marks.commas | (marks.opens | marks.closes));
    let others = !places;
    let closes = marks.closes & (others ^ others.wrapping_sub(1));
    64 - closes.leading_zeros() as usize
}

/// How many bytes at the front of a block close all arrays that are open after the byte `before`. `None`: that is not
/// found in the block.
#[inline(always)]
fn closing_len(block: u8x64, before: u8, from: OpenArrays) -> Option<usize>
    requires levels { from.depth + from.room ≤ max_depth + 1 }
    requires place { is_place before ≡ true }
    ensures some { IfSome result (λ len. 0 < len) }
    ensures within { IfSome result (λ len. len ≤ 63) }
    ensures closes { IfSome result (λ len.
        Closes from.depth from.room (stage_of before from.zeroed) (take len block)) }
{
    let marks = marks_in(block);
    let len = front_len(marks);
    if len == 0 || len == 64 {
        return None;
    }
    if (marks.opens % (1u64 << len)).count_ones() as usize > from.room {
        return None;
    }
    if !is_front_fine(block, marks, before, from.zeroed, len) {
        return None;
    }
    if !closes_at(from.depth, marks.opens, marks.closes, len - 1) {
        return None;
    }
    Some(len)
}

/// Where the bytes from `at` on have closed all arrays that are open. `None`: that is not found within a block.
#[inline(always)]
fn closing_end(text: &[u8], at: usize, from: OpenArrays) -> Option<usize>
    requires some { 0 < at }
    requires within { at ≤ length text.now }
    requires levels { from.depth + from.room ≤ max_depth + 1 }
    requires place { is_place (slice_index text.now (at - 1)) ≡ true }
    ensures onward { IfSome result (λ end. at < end) }
    ensures within { IfSome result (λ end. end ≤ length text.now) }
    ensures closes { IfSome result (λ end. Closes from.depth from.room
        (stage_of (slice_index text.now (at - 1)) from.zeroed) (slice_range text.now at end)) }
{
    if text.len() - at < 64 {
        return short_closing_end(text, at, from);
    }
    let len = closing_len(u8x64::from_slice(&text[at..]), text[at - 1], from)?;
    Some(at + len)
}

/// The same near the end of the text.
#[inline(never)]
fn short_closing_end(text: &[u8], at: usize, from: OpenArrays) -> Option<usize>
    requires some { 0 < at }
    requires within { at ≤ length text.now }
    requires few { length text.now < at + 64 }
    requires levels { from.depth + from.room ≤ max_depth + 1 }
    requires place { is_place (slice_index text.now (at - 1)) ≡ true }
    ensures onward { IfSome result (λ end. at < end) }
    ensures within { IfSome result (λ end. end ≤ length text.now) }
    ensures closes { IfSome result (λ end. Closes from.depth from.room
        (stage_of (slice_index text.now (at - 1)) from.zeroed) (slice_range text.now at end)) }
{
    let count = text.len() - at;
    let mut block = [0u8; 64];
    block[..count].copy_from_slice(&text[at..]);
    let len = closing_len(u8x64::from_array(block), text[at - 1], from)?;
    if len > count {
        return None;
    }
    Some(at + len)
}

/// Where the one array that is open after the byte before `at` ends. `None`: its items from there on are not whole numbers,
/// or arrays of them, in their compact text, nest more than `levels` deep, or are not closed.
#[inline(never)]
fn whole_end(text: &[u8], at: usize, levels: usize) -> Option<usize>
    requires some { 0 < at }
    requires within { at ≤ length text.now }
    requires place { is_place (slice_index text.now (at - 1)) ≡ true }
    requires levels { levels ≤ max_depth }
    ensures onward { IfSome result (λ end. at < end) }
    ensures within { IfSome result (λ end. end ≤ length text.now) }
    ensures closes { IfSome result (λ end.
        Closes 1 levels (stage_of (slice_index text.now (at - 1)) false) (slice_range text.now at end)) }
{
    let mut i = at;
    let mut place = OpenArrays {
        depth: 1,
        room: levels,
        zeroed: false,
    };
    let mut in_blocks = true;
    'bytes: while i < text.len() {
        if in_blocks {
            if text.len() - i >= 64 {
                if let Some(next) = after_block(text, i, place) {
                    place = next;
                    i += 64;
                    continue;
                }
            }
            if let Some(end) = closing_end(text, i, place) {
                return Some(end);
            }
            in_blocks = false;
        }
        let next = after_byte(text, i, place)?;
        i += 1;
        if next.depth == 0 {
            return Some(i);
        }
        place = next;
    }
    None
}

/// Where the array ends whose opening bracket stands before `at`. `None`: it is not one of whole numbers, or of such
/// arrays, in its compact text. It is tried only after a colon, so that no byte is tried twice.
#[inline(always)]
pub(super) fn whole_from(text: &[u8], at: usize, levels: usize) -> Option<usize>
    requires { at ≤ length text.now }
    ensures onward { IfSome result (λ end. at < end) }
    ensures within { IfSome result (λ end. end ≤ length text.now) }
    ensures is { IfSome result (λ end. IsItemsText levels text.now at end) }
{
    if at < 2 || at == text.len() || levels > MAX_DEPTH {
        return None;
    }
    if text[at - 2] != b':' || text[at - 1] != b'[' || text[at] > b'[' || text[at] < b'0' {
        return None;
    }
    whole_end(text, at, levels)
}

/// The same of the items from `at` on, where a comma stands before them.
#[inline(always)]
pub(super) fn whole_after_comma(text: &[u8], at: usize, levels: usize) -> Option<usize>
    requires { at ≤ length text.now }
    ensures onward { IfSome result (λ end. at < end) }
    ensures within { IfSome result (λ end. end ≤ length text.now) }
    ensures closes { IfSome result (λ end. Closes 1 levels after_comma (slice_range text.now at end)) }
{
    if at == 0 || levels > MAX_DEPTH || text[at - 1] != b',' {
        return None;
    }
    whole_end(text, at, levels)
}
