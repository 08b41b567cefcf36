//! The end of a ring that takes notes.
ghost use Rattle.std.specs.Prelude.{◌≤◌};
ghost use Rattle.rtrb.specs.Ring.{consumer_capacity};
ghost use Rattle.byte_streams.specs.declared.limits.TheConstants.{MAX_CAPACITY};

use crate::note::Note;
use crate::ring::sender::Closed;
use byte_streams::Fault;
use rtrb::Consumer;

/// The end of a tile's ring that takes notes.
#[derive(Drop)]
pub struct Receiver {
    pub(super) consumer: Consumer<Note>,
    ghost few: { consumer_capacity consumer ≤ MAX_CAPACITY },
}

/// The notes taken, and then those that are left, are all that were put.
#[derive(Clone, Copy, Debug, PartialEq, Eq)]
pub struct Whole {
    /// How many notes were put and not taken.
    pub left: u32,
}

impl Receiver {
    ghost use Rattle.std.specs.Prelude.{◌≡◌, ◌<◌, ◌≤◌, true, List, [], ◌∷◌, ◌++◌, length, IsOk, OnOk, IfOk, IsSome, IfSome, IfNone};
    ghost use Rattle.tile_handoff.specs.Ends.{notes_carried, notes_taken, notes_known, capacity_of, IsSameReceiver, CameFromOwnSender};
    ghost use Rattle.tile_handoff.specs.Notes.{has_end, are_ended};
    ghost use Rattle.tile_handoff.specs.OrderAndClose.{IsPrefix};
    ghost use Rattle.tile_handoff.specs.declared.note.Note.{Note};

    /// Takes the oldest note that is left, without waiting, or none where none was seen.
    pub fn try_take(&mut self) -> Option<Note>
        ensures same { IsSameReceiver self.old self.new }
        ensures taken { IfSome result (λ note.
            notes_taken self.new ≡ notes_taken self.old ++ note ∷ []) }
        ensures none { IfNone result ((notes_taken self.new ≡ notes_taken self.old)
            × (notes_known self.new ≡ [])) }
        ensures known { IfSome result (λ note.
            IsPrefix (notes_known self.old) (note ∷ notes_known self.new)) }
        ensures succeeds { 0 < length (notes_known self.old) → IsSome result }
    {
        self.consumer.pop().ok()
    }

    /// Accounts for all that was put, with both ends in one thread.
    ///
    /// # Errors
    ///
    /// `Fault::Handoff` where the ring gives no account. This ring always gives one.
    pub fn confirm(self, closed: Closed) -> Result<Whole, Fault>
        requires { CameFromOwnSender closed self }
        ensures always { IsOk result }
        ensures left { IfOk result (λ whole. (left : List Note)
            × (notes_carried closed ≡ notes_taken self ++ left) × (length left ≡ whole.left)) }
        ensures within { IfOk result (λ whole. whole.left ≤ capacity_of self) }

        // What was taken is a prefix of what was put, all of it where nothing is left; and where
        // the end note was taken, nothing is left.
        ensures in_order { OnOk result (IsPrefix (notes_taken self) (notes_carried closed)) }
        ensures whole { IfOk result (λ whole.
            whole.left ≡ 0 → notes_taken self ≡ notes_carried closed) }
        ensures drained { IfOk result (λ whole.
            has_end (notes_taken self) ≡ true → whole.left ≡ 0) }
        ensures ended { are_ended (notes_carried closed) ≡ true }
    {
        let Receiver { mut consumer } = self;
        let Closed { mut producer } = closed;
        let left = consumer.slots_beside(&mut producer);
        Ok(Whole { left: left as u32 })
    }
}
