//! What takes no memory answers where there is none as it does where there is.

mod handoff;
mod streams;
