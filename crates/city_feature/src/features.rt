//! Features: by their lines' texts, and by their values.

pub(crate) mod ended;
pub(crate) mod faults;
pub(crate) mod lines;
pub(crate) mod moving;
pub(crate) mod on_text;
pub(crate) mod shape;
pub(crate) mod texts;
pub(crate) mod values;
