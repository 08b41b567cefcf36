//! How the caller asks the thread of a tile to stop.
ghost use Rattle.std.specs.Prelude.{◌≡◌, ◌+◌, [], length, true, false, IfOk};
ghost use Rattle.rtrb.specs.Ring.{sent, received, IsPair, SameProducer, SameConsumer};

use rtrb::{Consumer, Producer, RingBuffer};
use std::alloc::{AllocError, Global};

/// The word by which the caller asks the thread of a tile to stop.
#[derive(Debug, Drop)]
pub(super) struct Cancel;

/// The caller's end: asks the thread of a tile to stop at its next line.
#[derive(Drop)]
pub(super) struct Canceller {
    pub(super) producer: Producer<Cancel>,
}

/// The end in the thread of a tile: tells whether it was asked to stop.
#[derive(Drop)]
pub(super) struct Cancellation {
    pub(super) consumer: Consumer<Cancel>,
}

/// The two ends of a new ring, with room for one word.
pub(super) fn cancel_ends(alloc: Global) -> Result<(Canceller, Cancellation), AllocError>
    ensures pair { IfOk result (λ ends. IsPair ends.0.producer ends.1.consumer) }
    ensures unused { IfOk result (λ ends.
        (sent ends.0.producer ≡ []) × (received ends.1.consumer ≡ [])) }
{
    let (producer, consumer) = RingBuffer::new(alloc, 1)?;
    Ok((Canceller { producer }, Cancellation { consumer }))
}

impl Canceller {
    /// Asks the thread to stop. To ask again changes nothing.
    pub(super) fn cancel(&mut self)
        ensures same { SameProducer self.old.producer self.new.producer }
    {
        let _ = self.producer.push(Cancel);
    }

    /// Where nobody asked, the thread saw no word.
    pub(super) fn confirm(self, cancellation: Cancellation)
        requires { IsPair self.producer cancellation.consumer }
        ensures { length (sent self.producer) ≡ 0 → received cancellation.consumer ≡ [] }
    {
        let Canceller { mut producer } = self;
        let Cancellation { mut consumer } = cancellation;
        consumer.slots_beside(&mut producer);
    }
}

impl Cancellation {
    /// Whether the caller asked since the last call. It does not wait.
    pub(super) fn is_asked(&mut self) -> bool
        ensures same { SameConsumer self.old.consumer self.new.consumer }
        ensures no { result ≡ false → received self.new.consumer ≡ received self.old.consumer }
        ensures yes { result ≡ true
            → length (received self.new.consumer) ≡ length (received self.old.consumer) + 1 }
    {
        self.consumer.pop().is_ok()
    }
}
