//! What all crates stand on: the limits, the list of faults and the places that they are told of, bytes that grow,
//! lists, and readers and writers of bytes with the two loops over them, read all and write all.
#![tactic(auto)]

mod bin;
mod device;
mod fault;
mod growing;
mod intake;
pub mod limits;
mod line;
mod output;
mod places;
mod sequence;
mod sink;
mod source;
mod tape;

pub use bin::Bin;
pub use device::Device;
pub use fault::Fault;
pub use growing::push;
pub use intake::{Intake, Stop, read_all};
pub use limits::limits_are_as_defined;
pub use line::Line;
pub use output::write_all;
pub use places::{LineFault, MergeFault};
pub use sequence::Sequence;
pub use sink::Sink;
pub use source::Source;
pub use tape::Tape;
