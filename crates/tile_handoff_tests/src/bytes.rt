//! Tests of `byte_streams` by its public calls.

mod devices;
mod faults;
mod sequences;
mod streams;
