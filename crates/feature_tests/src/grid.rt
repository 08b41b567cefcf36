//! Tests of `city_grid` by its public calls.

mod decimals;
mod shifts;
mod texts;
mod transforms;
mod triples;
mod vertices;

use std::process::Abort;

/// Ends the test where something does not hold of this text.
fn expect(rt: &impl Abort, holds: bool, text: &str) {
    assert!(rt; holds, "{text}");
}
