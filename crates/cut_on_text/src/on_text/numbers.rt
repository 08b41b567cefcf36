//! Numbers in decimal, and other short texts.

ghost use Rattle.std.specs.Prelude.{◌≤◌, ◌<◌, ◌+◌, ◌≡◌, ◌++◌, ◌∷◌, length, drop, slice_range, IfSome, OnSome};
ghost use Rattle.std.specs.Fmt.{decimal};

use super::texts::append_text;
use city_grid::put_byte;
use city_json::Line;
use itoa::write_digits;

/// How many bytes of a short text are copied, however short it is.
const COPIED: usize = 32;

/// Where the text of a leaf ends in [`ROOM`] bytes; with a byte before it it is no longer than this.
const END: usize = 24;

/// As many bytes as are copied stand after each place up to [`END`].
const ROOM: usize = 56;

/// Appends the bytes from one place to another: [`COPIED`] bytes are copied, and those after `end` left out again.
#[inline(always)]
fn append_few(text: &[u8], from: usize, end: usize, to: &mut Line) -> Option<()>
    requires order { from ≤ end }
    requires few { end ≤ from + 32 }
    requires within { from + 32 ≤ length text.now }
    ensures { OnSome result (to.new ≡ to.old ++ slice_range text.now from end) }
{
    let before = to.items().len();
    let Some(after) = before.checked_add(end - from) else {
        return None;
    };
    let Ok(_) = to.append(&text[from..from + COPIED]) else {
        return None;
    };
    to.truncate(after);
    Some(())
}

/// Appends the bytes from one place to another, which are mostly few.
#[inline(always)]
pub(super) fn append_between(text: &[u8], from: usize, end: usize, to: &mut Line) -> Option<()>
    requires order { from ≤ end }
    requires within { end ≤ length text.now }
    ensures { OnSome result (to.new ≡ to.old ++ slice_range text.now from end) }
{
    if end - from <= COPIED {
        if text.len() - from >= COPIED {
            return append_few(text, from, end, to);
        }
    }
    append_text(&text[from..end], to)
}

/// Appends a byte and a number of however many digits.
#[inline(never)]
fn append_large(before: u8, number: usize, to: &mut Line) -> Option<()>
    ensures { OnSome result (to.new ≡ to.old ++ before ∷ decimal number) }
{
    let mut text = [0u8; ROOM];
    let digits = write_digits(number as u64, &mut text, END);
    let start = put_byte(before, &mut text, digits);
    append_few(&text, start, END, to)
}

/// Appends a byte and a number: one digit or two with no call.
#[inline(always)]
pub(super) fn append_number(before: u8, number: usize, to: &mut Line) -> Option<()>
    ensures { OnSome result (to.new ≡ to.old ++ before ∷ decimal number) }
{
    if number < 10 {
        return append_text(&[before, b'0' + number as u8], to);
    }
    if number < 100 {
        let tens = b'0' + (number / 10) as u8;
        let ones = b'0' + (number % 10) as u8;
        return append_text(&[before, tens, ones], to);
    }
    append_large(before, number, to)
}
