//! Reading of strings (RFC 8259, section 7).
ghost use Rattle.std.specs.Prelude.{◌≡◌, ◌<◌, List, ℕ, Some, option_map, IfSome, IsTrue, SomeIff};
ghost use Rattle.std.specs.Char.{digit_value};
ghost use Rattle.city_json.specs.Gives.{Gives};
ghost use Rattle.city_json.specs.ReadString.{is_high_surrogate, unit_at, pair_at, escape_at, checked, decoded, string_at};
ghost use Rattle.city_json.specs.Strings.{letter_meaning};
ghost use Rattle.city_json.specs.PlainRun.{IsPlainRun};

use crate::reading::plain::plain_len;
use byte_streams::Fault;

/// What a run of bytes that stand for themselves ends at.
#[derive(Clone, Copy)]
enum RunEnd {
    Closing,
    Escape,
    Broken,
}

/// The text of the string whose opening quotation mark stands before the bytes, and what follows its closing one. That
/// of a string with an escape lies in `decoded`, whose memory is taken.
pub(super) fn string<'t, 'a: 't>(
    bytes: &'a [u8],
    decoded: &'t mut Vec<u8>,
) -> Result<(&'t str, &'a [u8]), Fault>
    ensures { Gives (λ p. (p.0.now, p.1.now)) result (string_at bytes.now) }
{
    let (run, end, rest) = split_run(bytes);
    match end {
        RunEnd::Closing => Ok((checked(run)?, rest)),
        RunEnd::Escape => {
            let rest = decode(bytes, decoded)?;
            Ok((checked(decoded)?, rest))
        }
        RunEnd::Broken => Err(Fault::Syntax),
    }
}

/// What follows the string whose opening quotation mark stands before the bytes. What it spells is put into `to`, whose
/// memory is taken; whether that is UTF-8 is not looked at.
#[tactic(auto, using(crate::proofs::StringSteps::escapes))]
fn decode<'a>(bytes: &'a [u8], to: &mut Vec<u8>) -> Result<&'a [u8], Fault>
    ensures { Gives (λ rest. (to.new.items, rest.now)) result (decoded bytes.now) }
{
    to.clear();
    let mut rest = bytes;
    'pieces: loop {
        let (run, end, after) = split_run(rest);
        to.extend_from_slice(run)?;
        match end {
            RunEnd::Closing => return Ok(after),
            RunEnd::Escape => {
                let Some((c, after)) = escape(after) else {
                    return Err(Fault::Syntax);
                };
                to.extend_from_slice(c.encode_utf8(&mut [0; 4]).as_bytes())?;
                rest = after;
            }
            RunEnd::Broken => return Err(Fault::Syntax),
        }
    }
}

/// The same, with no word of why nothing was decoded.
pub(crate) fn decode_into<'a>(bytes: &'a [u8], to: &mut Vec<u8>) -> Option<&'a [u8]>
    ensures { IfSome result (λ rest. decoded bytes.now ≡ Some (to.new.items, rest.now)) }
{
    decode(bytes, to).ok()
}

/// The bytes at the front that stand for themselves, what they end at, and what follows that.
#[tactic(auto, using(crate::proofs::StringSteps::runs))]
fn split_run(bytes: &[u8]) -> (&[u8], RunEnd, &[u8])
    ensures { IsPlainRun bytes.now result.0.now result.1 result.2.now }
{
    let at = plain_len(bytes);
    if at == bytes.len() {
        return (bytes, RunEnd::Broken, &[]);
    }
    let (run, rest) = (&bytes[..at], &bytes[at + 1..]);
    match bytes[at] {
        b'"' => (run, RunEnd::Closing, rest),
        b'\\' => (run, RunEnd::Escape, rest),
        _ => (run, RunEnd::Broken, rest),
    }
}

/// The text of these bytes, where they are UTF-8.
#[tactic(auto, using(crate::proofs::StringSteps::checking))]
fn checked(text: &[u8]) -> Result<&str, Fault>
    ensures { (rest : List ℕ) → Gives (λ text. (text.now, rest)) result (checked text.now rest) }
{
    simdutf8::basic::from_utf8(text).map_err(|_| Fault::Syntax)
}

/// The character that the bytes after a backslash stand for, and what follows.
#[tactic(auto, unfolding(crate::specs::ReadString::escape_at))]
pub(crate) fn escape(bytes: &[u8]) -> Option<(char, &[u8])>
    ensures { option_map (λ p. (p.0, p.1.now)) result ≡ escape_at bytes.now }
{
    match bytes {
        [b'u', digits @ ..] => {
            let (unit, rest) = unit(digits)?;
            if matches!(unit, 0xd800..0xdc00) {
                pair(unit, rest)
            } else {
                Some((char::from_u32(unit)?, rest))
            }
        }
        [letter, rest @ ..] => Some((letter_meaning(*letter)? as char, rest)),
        [] => None,
    }
}

/// The character that a high surrogate and the escape after it are together, and what follows.
#[tactic(auto, unfolding(crate::specs::ReadString::pair_at))]
fn pair(high: u32, bytes: &[u8]) -> Option<(char, &[u8])>
    requires { IsTrue (is_high_surrogate high) }
    ensures { option_map (λ p. (p.0, p.1.now)) result ≡ pair_at high bytes.now }
{
    let [b'\\', b'u', digits @ ..] = bytes else {
        return None;
    };
    let (low, rest) = unit(digits)?;
    if !matches!(low, 0xdc00..0xe000) {
        return None;
    }
    let c = char::from_u32(0x10000 + (high - 0xd800) * 0x400 + (low - 0xdc00))?;
    Some((c, rest))
}

/// The value of four hexadecimal digits, and what follows.
#[tactic(auto, unfolding(crate::specs::ReadString::unit_at))]
fn unit(bytes: &[u8]) -> Option<(u32, &[u8])>
    ensures read { option_map (λ p. (p.0, p.1.now)) result ≡ unit_at bytes.now }
    ensures short { IfSome result (λ p. p.0 < 0x10000) }
{
    let [a, b, c, d, rest @ ..] = bytes else {
        return None;
    };
    let value = ((hex(*a)? * 16 + hex(*b)?) * 16 + hex(*c)?) * 16 + hex(*d)?;
    Some((value, rest))
}

/// The value of a hexadecimal digit of either case.
fn hex(digit: u8) -> Option<u32>
    ensures { SomeIff result (digit_value digit < 16) (digit_value digit) }
{
    (digit as char).to_digit(16)
}

/// What a letter after a backslash stands for.
fn letter_meaning(letter: u8) -> Option<u8>
    ensures { result ≡ letter_meaning letter }
{
    match letter {
        b'"' | b'\\' | b'/' => Some(letter),
        b'b' => Some(8),
        b'f' => Some(12),
        b'n' => Some(b'\n'),
        b'r' => Some(b'\r'),
        b't' => Some(b'\t'),
        _ => None,
    }
}
