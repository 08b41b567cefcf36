//! Tests of the public calls where memory is refused; those of `tile_handoff` and of the crates on it, or on
//! `tile_stream`, stand in `tile_merge_tests`. `tools/growths.sh` runs each of them once for each growth that it
//! makes, and refuses it that one; and again, and refuses it that one and all that come after, until the test says that a
//! call answered want of memory. Each test ends well in each such run: what a call answers is right and whole, or it is
//! want of memory, and then what the call was given is as its contract says. What wanted memory is run again, and is then
//! right and whole; so it is at once where nothing is refused. Each call that answers want of memory is named by the test,
//! and has to answer so in some run.
//!
//! The tests of `without_memory` are run once, with every growth of their calls refused: these take no memory, and answer
//! as with ample memory.

mod features;
mod values;
mod without_memory;
mod words;
