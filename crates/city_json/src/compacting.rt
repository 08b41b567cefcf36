//! The compact text of an object in one pass over its text, with no tree between them.
//!
//! The pass goes over the text once, checks it, and writes nothing anew where the text is in its compact spelling
//! already: it copies. It decides no refusal; where it is silent, the floor after it tells why ([`floor`]).

mod draft;
mod ends;
mod flat;
mod floor;
mod marks;
mod members;
mod name;
mod names;
mod object;
mod parts;
mod places;
mod runs;
mod scalars;
mod sieve;
mod strings;
mod triples;
mod values;
mod whole_arrays;
mod workspace;
mod written;

pub(crate) use ends::value_end;
pub use members::{
    PlacedMembers, colon_after, end_after, members_at, members_of_compact, value_place,
};
pub use object::{CompactObject, TextPlace, compact_object};
pub use places::{MemberPlace, Span, between, is_between, part_named};
pub use workspace::Workspace;
