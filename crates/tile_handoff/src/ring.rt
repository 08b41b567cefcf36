//! A tile's ring between two threads.
ghost use Rattle.std.specs.Prelude.{◌≡◌, ◌<◌, ◌≤◌, [], IfOk, IfErr};
ghost use Rattle.tile_handoff.specs.Ends.{notes_put, notes_taken, places_known, notes_known, capacity_of, ArePair};

mod receiver;
mod sender;

use byte_streams::Fault;
use byte_streams::limits::MAX_CAPACITY;
pub use receiver::{Receiver, Whole};
use rtrb::RingBuffer;
pub use sender::{Closed, Sender};
use std::alloc::Global;

/// The two ends of a new ring that holds up to `capacity` notes. What is put into the one is
/// taken out of the other, in order, and each may move to a thread of its own. This call makes
/// all the room: the others take no memory.
///
/// # Errors
///
/// `Fault::Memory` where there is not enough memory for the ring.
pub fn ends(alloc: Global, capacity: u32) -> Result<(Sender, Receiver), Fault>
    requires { (0 < capacity) × (capacity ≤ MAX_CAPACITY) }
    ensures pair { IfOk result (λ ends. ArePair ends.0 ends.1) }
    ensures empty { IfOk result (λ ends. (notes_put ends.0 ≡ []) × (notes_taken ends.1 ≡ [])) }
    ensures known { IfOk result (λ ends.
        (places_known ends.0 ≡ capacity) × (notes_known ends.1 ≡ [])) }
    ensures capacity { IfOk result (λ ends. capacity_of ends.1 ≡ capacity) }
    ensures memory { IfErr result (λ fault. fault ≡ Fault.Memory) }
{
    let (producer, consumer) = RingBuffer::new(alloc, capacity as usize)?;
    Ok((Sender { producer }, Receiver { consumer }))
}
