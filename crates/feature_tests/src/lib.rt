//! Tests of `city_grid` and `city_feature` by their public calls. There is no code but these tests, so that the crates
//! whose code they run are not proved once more with them.
#![tactic(auto)]

#[cfg(test)]
mod answers;
#[cfg(test)]
mod choices;
#[cfg(test)]
mod ended;
#[cfg(test)]
mod faults;
#[cfg(test)]
mod generated;
#[cfg(test)]
mod grid;
#[cfg(test)]
mod headers;
#[cfg(test)]
mod joining;
#[cfg(test)]
mod lines;
#[cfg(test)]
mod many_extensions;
#[cfg(test)]
mod measured;
#[cfg(test)]
mod repeated_names;
#[cfg(test)]
mod texts;
#[cfg(test)]
mod tiles;
