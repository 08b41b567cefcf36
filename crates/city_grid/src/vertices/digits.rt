//! The number that a few digits write, read by one word in place of digit by digit.
ghost use Rattle.std.specs.Prelude.{◌≡◌, ◌+◌, ◌≤◌, ◌<◌, ℕ, List, length, slice_range};
ghost use Rattle.std.specs.Int.{from_le_bytes, w64};
ghost use Rattle.std.specs.Int.Digits.{number_from_digits};
ghost use Rattle.std.specs.Simd.Lanes.{number_l};
ghost use Rattle.std.specs.Str.Parse.{AllDigits, digits_value};
ghost use Rattle.core.specs.Dec2flt.Digits.{IsEightDigits};

/// The digit zero in each byte.
const ZEROS: u64 = 0x3030_3030_3030_3030;

/// The lowest byte of each half of a word.
const BYTE_OF_EACH_HALF: u64 = 0x0000_00ff_0000_00ff;

/// The number that eight digits write, of which the first is in the lowest byte.
///
/// Each digit and the one after it are a pair, a number below a hundred. One product adds up, in
/// the upper half of its word, what the first and third pairs are worth, and another what the
/// second and fourth are.
#[inline(always)]
fn value_of_eight(word: u64) -> u64
    ensures { (digits : List ℕ) → IsEightDigits digits → word ≡ number_l 256 digits
        → result ≡ number_from_digits 10 digits }
{
    let pairs = word.wrapping_mul(10).wrapping_add(word >> 8);
    let odd = (pairs & BYTE_OF_EACH_HALF).wrapping_mul(100 + (1_000_000 << 32));
    let even = ((pairs >> 16) & BYTE_OF_EACH_HALF).wrapping_mul(1 + (10_000 << 32));
    odd.wrapping_add(even) >> 32
}

/// The eight bytes from `at` on, the first of them lowest.
#[inline(always)]
fn word_at(text: &[u8], at: usize) -> u64
    requires { at + 8 ≤ length text.now }
    ensures { result ≡ from_le_bytes w64 (slice_range text.now at (at + 8)) }
{
    u64::from_le_bytes(*text[at..at + 8].first_chunk::<8>().unwrap())
}

/// The number that one to eight digits write which stand from `at` up to `end`. Eight bytes are
/// read at once, and those after the digits are shifted out.
#[inline(always)]
fn few_digits_value(text: &[u8], at: usize, end: usize) -> u64
    requires some { at < end }
    requires few { end ≤ at + 8 }
    requires within { at + 8 ≤ length text.now }
    ensures { AllDigits 10 (slice_range text.now at end)
        → result ≡ digits_value 10 (slice_range text.now at end) }
{
    let values = word_at(text, at) ^ ZEROS;
    value_of_eight(values << (64 - 8 * (end - at)))
}

/// The number that nine to sixteen digits write: the last eight by one word, and those before them by another.
#[inline(always)]
fn many_digits_value(text: &[u8], at: usize, end: usize) -> u64
    requires many { at + 8 < end }
    requires few { end ≤ at + 16 }
    requires within { end ≤ length text.now }
    ensures { AllDigits 10 (slice_range text.now at end)
        → result ≡ digits_value 10 (slice_range text.now at end) }
{
    let last = end - 8;
    few_digits_value(text, at, last)
        .wrapping_mul(100_000_000)
        .wrapping_add(few_digits_value(text, last, end))
}

/// The number that up to eight digits write, one after the other.
#[inline(never)]
fn value_by_digits(digits: &[u8]) -> u64
    requires { length digits.now ≤ 8 }
    ensures { AllDigits 10 digits.now → result ≡ digits_value 10 digits.now }
{
    let mut value = 0u64;
    for digit in digits {
        value = value
            .wrapping_mul(10)
            .wrapping_add(u64::from(digit.wrapping_sub(b'0')));
    }
    value
}

/// The number that one to sixteen digits write, wherever the text ends.
#[inline(always)]
pub(super) fn digits_value_between(text: &[u8], at: usize, end: usize) -> u64
    requires some { at < end }
    requires few { end ≤ at + 16 }
    requires within { end ≤ length text.now }
    ensures { AllDigits 10 (slice_range text.now at end)
        → result ≡ digits_value 10 (slice_range text.now at end) }
{
    if end - at > 8 {
        return many_digits_value(text, at, end);
    }
    if at + 8 <= text.len() {
        return few_digits_value(text, at, end);
    }
    value_by_digits(&text[at..end])
}
