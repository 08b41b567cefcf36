//! A sieve, which tells most numbers from all those that went through it before.
//!
//! It is two sets of bits, in each of which a number has its place. A number whose bit is still clear in one of them is
//! none of those before it.
ghost use Rattle.std.specs.Prelude.{◌≡◌, ◌≢◌, ◌==◌, ◌<◌, ℕ, length, OnSome};
ghost use Rattle.city_json.specs.Sieve.{bit_of, IsMarked, spread};

/// An odd number of no pattern: 2^64 divided by the golden ratio.
const SPREADING: u64 = 0x9e37_79b9_7f4a_7c15;

/// Marks the number in both sets: no number that was marked before is equal to it. `None`: its bits were set before, so one
/// may be.
#[inline(always)]
pub(super) fn mark(first: &mut [u64], second: &mut [u64], number: u64) -> Option<()>
    requires first { 0 < length first.old }
    requires second { 0 < length second.old }
    ensures new { OnSome result ((seen : ℕ) → IsMarked first.old second.old seen
        → seen ≢ number) }
    ensures marked { IsMarked first.new second.new number }
    ensures kept { (seen : ℕ) → IsMarked first.old second.old seen
        → IsMarked first.new second.new seen }
{
    let spread = spread(number);
    let is_clear_in_first = set_bit(first, (spread >> 50) as usize);
    let is_clear_in_second = set_bit(second, (spread >> 36) as usize);
    if is_clear_in_first || is_clear_in_second {
        return Some(());
    }
    None
}

/// Sets the bit at a place, from which on the words are gone through again and again. Whether it was clear.
#[inline(always)]
fn set_bit(words: &mut [u64], place: usize) -> bool
    requires { 0 < length words.old }
    ensures clear { result ≡ (bit_of words.old place == 0) }
    ensures set { bit_of words.new place ≡ 1 }
    ensures kept { (other : ℕ) → bit_of words.old other ≡ 1 → bit_of words.new other ≡ 1 }
{
    let at = place / 64 % words.len();
    let word = words[at];
    words[at] = word | 1 << (place % 64);
    word >> (place % 64) & 1 == 0
}

/// A number of which every bit counts in the upper half.
#[tactic(auto, unfolding(crate::specs::Sieve::spread))]
#[inline(always)]
fn spread(number: u64) -> u64
    ensures { result ≡ spread number }
{
    (number ^ number >> 32).wrapping_mul(SPREADING)
}
