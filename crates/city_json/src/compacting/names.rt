//! The names of the members of the open objects, and whether those of one object differ (RFC 8259, section 4).
ghost use Rattle.std.specs.Prelude.{◌≡◌, ◌++◌, ◌∷◌, ◌<◌, ◌≤◌, [], take, drop, length, map, IfSome, OnSome, IsTrue};
ghost use Rattle.std.specs.List.{All};
ghost use Rattle.city_json.specs.Fits.{IsNewName, HasDistinctNames};
ghost use Rattle.city_json.specs.ListedNames.{as_written, as_decoded, names_in};
ghost use Rattle.city_json.specs.MemberName.{IsWithin, first_held, name_bytes};
ghost use Rattle.city_json.specs.Members.{names};
ghost use Rattle.city_json.specs.NamePrint.{ends_print, mixed_print, print_by, print_of, short_print_of, words_print};
ghost use Rattle.city_json.specs.Tree.{MemberTrees};

use super::name::Name;
use super::sieve::mark;
use crate::reading::names::are_apart_when_sorted;
use std::alloc::Global;
use std::marker::Model;

/// Most features have no more names in objects that are open at once. They take 320 bytes, which are asked for at once.
const COMMON_NAMES: usize = 40;

/// The most names that are compared with one another at once. Names of attributes often begin alike and are as long as
/// each other, so that past it a sieve is faster.
const MAX_COMPARED_AT_ONCE: usize = 6;

/// The most names that are compared with one another where an escape stands in one of them, or where the sieve does not
/// tell them apart, so that no memory is asked for.
const MAX_COMPARED: usize = 16;

/// Up to so many names go through a sieve of two sets of 2,048 bits. Of 64 that are different two in a hundred are not
/// told so by it, of 40 half a one: the number of names to the third, over three times the square of a set's bits.
const FEW_SIEVED: usize = 64;

/// Up to so many go through one of two sets of 16,384 bits: of 300 three in a hundred are not told so, of 512 seventeen.
/// Of more it is likelier that the prints have to be sorted, whatever the sieve did.
const MAX_SIEVED: usize = 512;

/// The odd number by which FxHash multiplies: 2^64 divided by pi.
const MIXING: u64 = 0x517c_c1b7_2722_0a95;

/// Which bytes of a name its print takes in. That of its ends is made in a few steps, and tells most names apart.
#[derive(Clone, Copy)]
enum Print {
    /// The first eight and the last eight.
    Ends,
    /// All.
    All,
}

/// The names of the members of the open objects of a text, in their order. Each is listed by its place in the text, in
/// eight bytes; those with escapes are held decoded, one after another, and their places go on from the text's end.
#[derive(Drop)]
pub(super) struct Names {
    /// The text's length, or [`u32::MAX`] of a longer text, no name of which is listed that ends after it.
    text_len: usize,
    listed: Vec<Name>,
    held: Vec<u8>,
}

impl Model for Names {
    ghost use Rattle.std.specs.Prelude.{List, length, map};
    ghost use Rattle.city_json.specs.ListedNames.{ListedName};

    ghost Value = { List ListedName };

    ghost use Rattle.city_json.specs.MemberName.{AreListed, listed_name};

    ghost view = { λ names. map (listed_name names.text_len names.held.items) names.listed.items };

    ghost invariant = { λ names. AreListed names.text_len names.listed.items (length names.held.items) };
}

impl Names {
    /// Of a text of this length none.
    pub(super) fn new(alloc: Global, text_len: usize) -> Names
        ensures { result ≡ [] }
    {
        Names::in_memory(text_len, Vec::new(alloc), Vec::new(alloc))
    }

    /// The same, in memory that was used for others, which are left out. Room for most texts is asked for once.
    pub(super) fn in_memory(text_len: usize, listed: Vec<Name>, held: Vec<u8>) -> Names
        ensures { result ≡ [] }
    {
        let text_len = text_len.min(u32::MAX as usize);
        let (mut listed, mut held) = (listed, held);
        listed.truncate(0);
        held.truncate(0);
        let _ = listed.reserve(COMMON_NAMES);
        Names {
            text_len,
            listed,
            held,
        }
    }

    /// The memory of the names.
    pub(super) fn into_memory(self) -> (Vec<Name>, Vec<u8>) {
        (self.listed, self.held)
    }

    #[inline(always)]
    pub(super) fn len(&self) -> usize
        ensures { result ≡ length self.now }
    {
        self.listed.len()
    }

    /// Puts a name without escapes, which is in the text from `from` on up to `end`, after the others. `None`: out of
    /// memory, or the place is after [`u32::MAX`].
    #[inline(always)]
    pub(super) fn push(&mut self, from: usize, end: usize) -> Option<()>
        requires { from ≤ end }
        ensures { OnSome result (self.new ≡ self.old ++ as_written from end ∷ []) }
    {
        if end >= self.text_len {
            return None;
        }
        let (from, end) = (from as u32, end as u32);
        let Ok(()) = self.listed.push(Name { from, end }) else {
            return None;
        };
        Some(())
    }

    /// Puts a name with escapes, decoded, after the others. `None`: out of memory, or the place is after [`u32::MAX`].
    pub(super) fn push_held(&mut self, name: &[u8]) -> Option<()>
        ensures { OnSome result (self.new ≡ self.old ++ as_decoded name.now ∷ []) }
    {
        let from = self.text_len + self.held.len();
        let end = from.checked_add(name.len())?;
        if end > u32::MAX as usize {
            return None;
        }
        let (from, end) = (from as u32, end as u32);
        let Ok(()) = self.listed.reserve(1) else {
            return None;
        };
        let Ok(_) = self.held.extend_from_slice(name) else {
            return None;
        };
        self.listed.push_reserved(Name { from, end });
        Some(())
    }

    /// Leaves out the names from `base` on.
    #[inline(always)]
    pub(super) fn truncate(&mut self, base: usize)
        requires { base ≤ length self.old }
        ensures { self.new ≡ take base self.old }
    {
        if self.held.is_empty() {
            self.listed.truncate(base);
        } else {
            self.truncate_held(base);
        }
    }

    /// The same, where names are held: those that are left out are dropped.
    #[inline(never)]
    fn truncate_held(&mut self, base: usize)
        requires { base ≤ length self.old }
        ensures { self.new ≡ take base self.old }
    {
        let end = self.text_len + self.held.len();
        let stay = first_held(self.text_len, &self.listed[base..], end);
        self.held.truncate(stay - self.text_len);
        self.listed.truncate(base);
    }

    /// That the names from `base` on are pairwise different in this text. `None`: two are equal, or the text is not as
    /// long as the one that they are listed of, or out of memory.
    /// The time is near linear in the names' bytes, whatever they are.
    #[inline(always)]
    pub(super) fn are_apart_from(&self, alloc: Global, text: &[u8], base: usize) -> Option<()>
        requires { base ≤ length self.now }
        ensures { OnSome result ((members : MemberTrees) → names members ≡ drop base (names_in text.now self.now)
            → HasDistinctNames members) }
    {
        if self.len() - base < 2 {
            return Some(());
        }
        self.several_are_apart_from(alloc, text, base)
    }

    /// The same, of any number of names.
    #[inline(never)]
    fn several_are_apart_from(&self, alloc: Global, text: &[u8], base: usize) -> Option<()>
        requires { base ≤ length self.now }
        ensures { OnSome result ((members : MemberTrees) → names members ≡ drop base (names_in text.now self.now)
            → HasDistinctNames members) }
    {
        if text.len() != self.text_len {
            return None;
        }
        let listed = &self.listed[base..];
        if listed.len() <= MAX_COMPARED_AT_ONCE {
            return few_are_apart(listed, text, &self.held);
        }
        many_are_apart(alloc, listed, text, &self.held)
    }
}

/// Where the first of these names begins that is held, or else `end`.
fn first_held(text_len: usize, listed: &[Name], end: usize) -> usize
    ensures { result ≡ first_held text_len listed.now end }
{
    for name in listed {
        if name.end as usize >= text_len {
            return name.from as usize;
        }
    }
    end
}

/// That the names are pairwise different: each is compared with each. `None`: two are equal.
#[inline(always)]
fn few_are_apart(listed: &[Name], text: &[u8], held: &[u8]) -> Option<()>
    requires within { All (IsWithin (length text.now) (length held.now)) listed.now }
    ensures { OnSome result ((members : MemberTrees) → names members ≡ map (name_bytes text.now held.now) listed.now
        → HasDistinctNames members) }
{
    if let [first, second] = listed {
        if second.has_bytes(first.bytes(text, held), text, held) {
            return None;
        }
        return Some(());
    }
    let mut rest = listed;
    while let [first, others @ ..] = rest {
        if !is_new(first.bytes(text, held), others, text, held) {
            return None;
        }
        rest = others;
    }
    Some(())
}

/// Whether the name is none of these.
#[inline(always)]
fn is_new(name: &[u8], listed: &[Name], text: &[u8], held: &[u8]) -> bool
    requires within { All (IsWithin (length text.now) (length held.now)) listed.now }
    ensures { IsTrue result → (members : MemberTrees) → names members ≡ map (name_bytes text.now held.now) listed.now
        → IsNewName name.now members }
{
    for other in listed {
        if other.has_bytes(name, text, held) {
            return false;
        }
    }
    true
}

/// That the names are pairwise different: by their prints, and where two of these are equal by the names themselves.
/// `None`: two are equal, or out of memory.
#[inline(never)]
fn many_are_apart(alloc: Global, listed: &[Name], text: &[u8], held: &[u8]) -> Option<()>
    requires within { All (IsWithin (length text.now) (length held.now)) listed.now }
    ensures { OnSome result ((members : MemberTrees) → names members ≡ map (name_bytes text.now held.now) listed.now
        → HasDistinctNames members) }
{
    let are_few = listed.len() <= MAX_COMPARED;
    let is_sieved = !(are_few && is_any_held(listed, text, held));
    if is_sieved && let Some(()) = sieved_apart(listed, text, held) {
        return Some(());
    }
    if are_few {
        return few_are_apart(listed, text, held);
    }
    sorted_apart(alloc, listed, text, held)
}

/// The same with a list of prints, and of names where two of these are equal.
fn sorted_apart(alloc: Global, listed: &[Name], text: &[u8], held: &[u8]) -> Option<()>
    requires within { All (IsWithin (length text.now) (length held.now)) listed.now }
    ensures { OnSome result ((members : MemberTrees) → names members ≡ map (name_bytes text.now held.now) listed.now
        → HasDistinctNames members) }
{
    let prints = prints_of(alloc, listed, text, held)?;
    if rise_when_sorted(prints) {
        return Some(());
    }
    let all = bytes_of(alloc, listed, text, held)?;
    if are_apart_when_sorted(all) {
        return Some(());
    }
    None
}

/// Whether an escape stands in any of the names. Where no name of an open object has one, none is looked at.
fn is_any_held(listed: &[Name], text: &[u8], held: &[u8]) -> bool {
    !held.is_empty() && listed.iter().any(|name| name.end as usize >= text.len())
}

/// That a sieve tells each name from all before it, by the ends of the names or by all their bytes. `None`: it does not, or
/// they are too many for it, and none is looked at.
fn sieved_apart(listed: &[Name], text: &[u8], held: &[u8]) -> Option<()>
    requires within { All (IsWithin (length text.now) (length held.now)) listed.now }
    ensures { OnSome result ((members : MemberTrees) → names members ≡ map (name_bytes text.now held.now) listed.now
        → HasDistinctNames members) }
{
    if let Some(()) = sieved_by(Print::Ends, listed, text, held) {
        return Some(());
    }
    sieved_by(Print::All, listed, text, held)
}

/// The same by one print of each.
fn sieved_by(print: Print, listed: &[Name], text: &[u8], held: &[u8]) -> Option<()>
    requires within { All (IsWithin (length text.now) (length held.now)) listed.now }
    ensures { OnSome result ((members : MemberTrees) → names members ≡ map (name_bytes text.now held.now) listed.now
        → HasDistinctNames members) }
{
    if listed.len() <= FEW_SIEVED {
        return sieved_by_small(print, listed, text, held);
    }
    if listed.len() <= MAX_SIEVED {
        return sieved_by_large(print, listed, text, held);
    }
    None
}

/// That each name is told from all before it by two sets of 2,048 bits. `None`: one is not.
#[inline(never)]
fn sieved_by_small(print: Print, listed: &[Name], text: &[u8], held: &[u8]) -> Option<()>
    requires within { All (IsWithin (length text.now) (length held.now)) listed.now }
    ensures { OnSome result ((members : MemberTrees) → names members ≡ map (name_bytes text.now held.now) listed.now
        → HasDistinctNames members) }
{
    let (mut first, mut second) = ([0; 32], [0; 32]);
    sieved(print, listed, text, held, &mut first, &mut second)
}

/// The same by two sets of 16,384 bits.
#[inline(never)]
fn sieved_by_large(print: Print, listed: &[Name], text: &[u8], held: &[u8]) -> Option<()>
    requires within { All (IsWithin (length text.now) (length held.now)) listed.now }
    ensures { OnSome result ((members : MemberTrees) → names members ≡ map (name_bytes text.now held.now) listed.now
        → HasDistinctNames members) }
{
    let (mut first, mut second) = ([0; 256], [0; 256]);
    sieved(print, listed, text, held, &mut first, &mut second)
}

/// The same by these two sets.
#[inline(always)]
fn sieved(
    print: Print,
    listed: &[Name],
    text: &[u8],
    held: &[u8],
    first: &mut [u64],
    second: &mut [u64],
) -> Option<()>
    requires within { All (IsWithin (length text.now) (length held.now)) listed.now }
    requires first { 0 < length first.old }
    requires second { 0 < length second.old }
    ensures { OnSome result ((members : MemberTrees) → names members ≡ map (name_bytes text.now held.now) listed.now
        → HasDistinctNames members) }
{
    for name in listed {
        let print_of_name = print.of(name.bytes(text, held));
        mark(first, second, print_of_name)?;
    }
    Some(())
}

fn prints_of(alloc: Global, listed: &[Name], text: &[u8], held: &[u8]) -> Option<Vec<u64>>
    requires within { All (IsWithin (length text.now) (length held.now)) listed.now }
    ensures { IfSome result (λ prints. prints.items ≡ map
        (λ name. print_of (name_bytes text.now held.now name)) listed.now) }
{
    let Ok(mut prints) = Vec::with_capacity(alloc, listed.len()) else {
        return None;
    };
    for name in listed {
        prints.push_reserved(print_of(name.bytes(text, held)));
    }
    Some(prints)
}

fn bytes_of<'b>(
    alloc: Global,
    listed: &[Name],
    text: &'b [u8],
    held: &'b [u8],
) -> Option<Vec<&'b [u8]>>
    requires within { All (IsWithin (length text.now) (length held.now)) listed.now }
    ensures { IfSome result (λ all. map (λ name. name.now) all.items
        ≡ map (name_bytes text.now held.now) listed.now) }
{
    let Ok(mut all) = Vec::with_capacity(alloc, listed.len()) else {
        return None;
    };
    for name in listed {
        all.push_reserved(name.bytes(text, held));
    }
    Some(all)
}

/// Whether each print is above the one before it once they are sorted, so that no two are equal.
fn rise_when_sorted(prints: Vec<u64>) -> bool
    ensures { IsTrue result → (members : MemberTrees) → map print_of (names members) ≡ prints.items
        → HasDistinctNames members }
{
    let mut prints = prints;
    prints.sort_unstable();
    prints.is_sorted_by(|first, second| first < second)
}

impl Print {
    /// A number that equal names share, and different ones seldom.
    #[inline(always)]
    fn of(self, name: &[u8]) -> u64
        ensures { result ≡ print_by self name.now }
    {
        match self {
            Print::Ends => ends_print(name),
            Print::All => print_of(name),
        }
    }
}

/// That of the first eight bytes and the last eight.
#[tactic(auto, unfolding(crate::specs::NamePrint::ends_print))]
#[inline(always)]
fn ends_print(name: &[u8]) -> u64
    ensures { result ≡ ends_print name.now }
{
    match (name.first_chunk::<8>(), name.last_chunk::<8>()) {
        (Some(first), Some(last)) => {
            u64::from_le_bytes(*first).rotate_left(24) ^ u64::from_le_bytes(*last)
        }
        _ => short_print_of(name),
    }
}

/// That of all bytes: eight at a time, the last eight once more as they may begin anywhere, hashed as Firefox does
/// (FxHash).
#[tactic(auto, unfolding(crate::specs::NamePrint::print_of))]
#[inline(always)]
fn print_of(name: &[u8]) -> u64
    ensures { result ≡ print_of name.now }
{
    let Some(last) = name.last_chunk::<8>() else {
        return short_print_of(name);
    };
    let (words, _) = name.as_chunks::<8>();
    let print = words_print(name.len() as u64, words);
    mixed_print(print, u64::from_le_bytes(*last))
}

/// A print of what came before, and words after it.
#[inline(always)]
fn words_print(before: u64, words: &[[u8; 8]]) -> u64
    ensures { result ≡ words_print before words.now }
{
    let mut print = before;
    for word in words {
        print = mixed_print(print, u64::from_le_bytes(*word));
    }
    print
}

/// A print of what came before, and a word after it.
#[tactic(auto, unfolding(crate::specs::NamePrint::mixed_print))]
#[inline(always)]
fn mixed_print(print: u64, word: u64) -> u64
    ensures { result ≡ mixed_print print word }
{
    (print.rotate_left(5) ^ word).wrapping_mul(MIXING)
}

/// The same for a name of fewer than eight bytes.
#[tactic(auto, unfolding(crate::specs::NamePrint::short_print_of))]
fn short_print_of(name: &[u8]) -> u64
    ensures { result ≡ short_print_of name.now }
{
    name.iter()
        .fold(0, |print, byte| print.rotate_left(8) ^ u64::from(*byte))
}
