//! JSON texts (RFC 8259) and their values: [`read`] takes exactly the texts that fit, [`print`] gives the one compact text
//! of a value, and [`compact_object`] goes from the text of an object to its compact text, in one pass that holds no value,
//! and tells of any other text what it is. [`ObjectText`] gives its members by their names.
#![tactic(auto)]

mod compacting;
mod comparing;
mod item_texts;
mod json;
mod laws;
mod number_parts;
mod object_text;
mod printing;
mod reading;
mod short;
mod text;

pub use byte_streams::{
    Bin, Device, Fault, Intake, Line, Sequence, Sink, Source, Stop, Tape, read_all, write_all,
};
pub use compacting::{
    CompactObject, MemberPlace, PlacedMembers, Span, TextPlace, Workspace, between, colon_after,
    compact_object, end_after, members_at, members_of_compact, part_named, value_place,
};
pub use comparing::same;
pub use item_texts::ItemTexts;
pub use json::{Items, Json, Member, Members};
pub use laws::{
    a_text_has_one_meaning, compact_text_is_one_line, compact_text_is_read_as_its_value,
    compact_text_spells_its_value, compact_text_tells_its_value, exchanged_text_is_exchanged_value,
    members_lie_in_their_parts, spelled_value_is_writable, texts_nest_as_their_values,
};
pub use number_parts::NumberParts;
pub use object_text::ObjectText;
pub use printing::print;
pub use reading::digits::not_digits;
pub use reading::read;
pub use text::{NumText, Str};
