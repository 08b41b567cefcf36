//! Tests of `city_cut` by its public calls, and, where memory is refused, of those of the crates below it and of
//! `command_line` (`growths`). There is no code but these tests, so that the crates whose code they run are not proved
//! once more with them.
#![tactic(auto)]

#[cfg(test)]
mod answers;
#[cfg(test)]
mod changes;
#[cfg(test)]
mod families;
#[cfg(test)]
mod faults;
#[cfg(test)]
mod geometries;
#[cfg(test)]
mod growths;
#[cfg(test)]
mod moving;
#[cfg(test)]
mod refusals;
#[cfg(test)]
mod shapes;
#[cfg(test)]
mod texts;
