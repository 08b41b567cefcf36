//! Tests of `city_json` by its public calls. There is no code but these tests, so that the crate whose
//! code they run is not proved once more with them.
#![tactic(auto)]

#[cfg(test)]
mod blocks;
#[cfg(test)]
mod chance;
#[cfg(test)]
mod checking;
#[cfg(test)]
mod compacting;
#[cfg(test)]
mod depth;
#[cfg(test)]
mod drawn_names;
#[cfg(test)]
mod going_on;
#[cfg(test)]
mod items;
#[cfg(test)]
mod lent;
#[cfg(test)]
mod members;
#[cfg(test)]
mod names;
#[cfg(test)]
mod numbers;
#[cfg(test)]
mod printing;
#[cfg(test)]
mod refusals;
#[cfg(test)]
mod strings;
#[cfg(test)]
mod texts;
#[cfg(test)]
mod triples;
#[cfg(test)]
mod values;
