//! What the tests of refused growths share: what a test says to the shim of `tools/growths.sh`, by growths that it never
//! grants, and to the script; and the texts of lines and documents.
#![tactic(auto)]

pub mod texts;

use byte_streams::Fault;
use std::alloc::{AllocError, Global};
use std::io::Eprint;

/// How many bytes a growth has that says: from here on each growth is to be refused.
const TAKE: usize = 7_777_777;

/// The same where none is.
const GIVE: usize = 7_777_779;

/// The name of a call that may answer want of memory. Each that stands in a test has to answer so in some run of it.
#[derive(Clone, Copy)]
pub struct Call(pub &'static str);

/// Whether a growth of so many bytes is refused.
fn is_refused(alloc: Global, size: usize) -> bool {
    let grown: Result<Vec<u8>, AllocError> = Vec::with_capacity(alloc, size);
    grown.is_err()
}

/// Whether there is no memory now.
pub fn is_gone(alloc: Global) -> bool {
    is_refused(alloc, 64)
}

/// Takes all memory away, where the shim is there; whether it was.
pub fn take(alloc: Global) -> bool {
    is_refused(alloc, TAKE)
}

/// Gives the memory back; whether it was gone up to here, if it is said that it was, or else was there.
pub fn give(alloc: Global, was_gone: bool) -> bool {
    let is_gone = is_gone(alloc);
    is_refused(alloc, GIVE);
    is_gone == was_gone
}

/// Says that this call answered want of memory, and gives the memory back.
pub fn wanted(rt: &(impl AllocGlobal + Eprint), call: Call) {
    let Call(name) = call;
    let _ = rt.eprintln(format_args!("wanted memory: {name}"));
    is_refused(rt.alloc(), GIVE);
}

/// The fault of this call; want of memory is said.
pub fn refused(rt: &(impl AllocGlobal + Eprint), call: Call, fault: Fault) -> Result<bool, Fault> {
    if fault == Fault::Memory {
        wanted(rt, call);
    }
    Err(fault)
}

/// Whether this is the fault that was to be, unless memory was wanted.
pub fn is_fault(answer: Result<bool, Fault>, fault: Fault) -> Result<bool, Fault> {
    match answer {
        Err(Fault::Memory) => Err(Fault::Memory),
        Err(other) => Ok(other == fault),
        Ok(_) => Ok(false),
    }
}

/// Whether a run is right, and run again is, too, where it wanted memory.
#[macro_export]
macro_rules! expect {
    ($rt:expr; $run:expr) => {
        let answer = match $run {
            Err(byte_streams::Fault::Memory) => $run,
            answer => answer,
        };
        assert!($rt; answer?);
    };
}
