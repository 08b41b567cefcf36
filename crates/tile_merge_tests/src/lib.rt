//! Tests of what merges several tiles, and of tiles that begin with a document, with whole streams in and
//! out; and of the public calls of streams where memory is refused (`growths`). There is no code but these tests, so that the crates whose code they run are not proved once more
//! with them.
#![tactic(auto)]

#[cfg(test)]
mod bounds;
#[cfg(test)]
mod devices;
#[cfg(test)]
mod documents;
#[cfg(test)]
mod faults;
#[cfg(test)]
mod growths;
#[cfg(test)]
mod headers;
#[cfg(test)]
mod hostile;
#[cfg(test)]
mod interleaving;
#[cfg(test)]
mod large_documents;
#[cfg(test)]
mod many;
#[cfg(test)]
mod merging;
#[cfg(test)]
mod order;
#[cfg(test)]
mod origins;
#[cfg(test)]
mod texts;
#[cfg(test)]
mod threads;
#[cfg(test)]
mod turns;
