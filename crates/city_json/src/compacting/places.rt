//! Places in a compact text: where members of an object lie, and which texts stand there.
ghost use Rattle.std.specs.Prelude.{◌≡◌, ◌↔◌, ◌<◌, ◌≤◌, length, slice_range, IfNone, IfSome, IsTrue};
ghost use Rattle.city_json.specs.Parts.{IsPartNamed, NotNamed};

/// Most objects, and most features, have no more members.
pub(super) const COMMON_PARTS: usize = 8;

/// Where a member lies in the compact text of an object, in bytes from its beginning: its name from `at` on, a colon
/// before `value`, its value from there up to `end`.
#[derive(Clone, Copy, Debug, PartialEq, Eq)]
pub struct MemberPlace {
    pub at: usize,
    pub value: usize,
    pub end: usize,
}

/// Where something stands in a text, in bytes from its beginning: from `from` on up to `end`. Nothing, where `end` is
/// not after `from`.
#[derive(Clone, Copy, Debug, PartialEq, Eq)]
pub struct Span {
    pub from: usize,
    pub end: usize,
}

impl Span {
    /// Whether something stands there, and it is the value in a part.
    pub fn is_value_of(self, part: MemberPlace) -> bool
        ensures { IsTrue result ↔ ((self.from < self.end) × (self.from ≡ part.value) × (self.end ≡ part.end)) }
    {
        self.from < self.end && self.from == part.value && self.end == part.end
    }
}

/// The text between two places.
pub fn between(text: &[u8], from: usize, to: usize) -> Option<&[u8]>
    ensures some { IfSome result (λ found. found.now ≡ slice_range text.now from to) }
    ensures ordered { IfSome result (λ found. from ≤ to) }
    ensures none { IfNone result (from ≤ to → to ≤ length text.now → ⊥) }
{
    text.get(from..to)
}

/// Whether this text stands between two places of the text.
pub fn is_between(text: &[u8], from: usize, to: usize, other: &[u8]) -> bool
    ensures yes { IsTrue result → slice_range text.now from to ≡ other.now }
    ensures no { from ≤ to → to ≤ length text.now → slice_range text.now from to ≡ other.now → IsTrue result }
{
    let Some(found) = between(text, from, to) else {
        return false;
    };
    found == other
}

/// A part of a name, which is given as it stands in the text, with its marks and its colon; none where no part within the
/// text has the name.
pub fn part_named(text: &[u8], parts: &[MemberPlace], name: &[u8]) -> Option<MemberPlace>
    ensures some { IfSome result (λ part. IsPartNamed text.now parts.now name.now part) }
    ensures none { IfNone result (NotNamed text.now parts.now name.now (length parts.now)) }
{
    for part in parts {
        if is_between(text, part.at, part.value, name) {
            return Some(*part);
        }
    }
    None
}
