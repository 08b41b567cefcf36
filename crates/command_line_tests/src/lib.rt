//! Tests of `command_line` by its public calls. There is no code but these tests, so that the crate whose
//! code they run is not proved once more with them.
#![tactic(auto)]

#[cfg(test)]
mod answers;
#[cfg(test)]
mod cutting;
#[cfg(test)]
mod filtering;
#[cfg(test)]
mod helping;
#[cfg(test)]
mod merging;
