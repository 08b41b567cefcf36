//! Tests of `document_stream` by its public calls.

mod documents;
mod failures;
mod refusals;
mod texts;
