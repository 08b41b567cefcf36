//! The end of a ring that puts notes.
ghost use Rattle.std.specs.Prelude.{◌≡◌, true, false};
ghost use Rattle.rtrb.specs.Ring.{sent};
ghost use Rattle.tile_handoff.specs.Notes.{has_end, are_ended};

use crate::note::{End, Note};
use byte_streams::Line;
use rtrb::Producer;

/// The end of a tile's ring that puts lines, and at last the end note.
#[derive(Drop)]
pub struct Sender {
    pub(super) producer: Producer<Note>,
    ghost endless: { has_end (sent producer) ≡ false },
}

/// What a sender has become with its end note. It carries all the notes that were put.
#[derive(Drop)]
pub struct Closed {
    pub(super) producer: Producer<Note>,
    ghost ended: { are_ended (sent producer) ≡ true },
}

impl Sender {
    ghost use Rattle.std.specs.Prelude.{◌≡◌, ◌+◌, ◌<◌, ◌≤◌, [], ◌∷◌, ◌++◌, IsOk, OnOk, IfOk, IfErr};
    ghost use Rattle.tile_handoff.specs.Ends.{notes_put, notes_carried, places_known, IsSameSender, EndedIn};
    ghost use Rattle.tile_handoff.specs.declared.note.Note.{Note};

    /// Puts a line, without waiting.
    ///
    /// # Errors
    ///
    /// The line, where the ring was seen full. Nothing was put then.
    pub fn try_put(&mut self, line: Line) -> Result<(), Line>
        ensures same { IsSameSender self.old self.new }
        ensures put { OnOk result (notes_put self.new ≡ notes_put self.old ++ Note.Line line ∷ []) }
        ensures places { OnOk result (places_known self.old ≤ places_known self.new + 1) }
        ensures full { IfErr result (λ back. (back ≡ line)
            × (notes_put self.new ≡ notes_put self.old) × (places_known self.new ≡ 0)) }
        ensures succeeds { 0 < places_known self.old → IsOk result }
    {
        if self.producer.is_full() {
            return Err(line);
        }
        self.producer.push_reserved(Note::Line(line));
        Ok(())
    }

    /// Puts the end note, without waiting. It takes a place as a line does, and nothing can be put
    /// after it: the sender is gone.
    ///
    /// # Errors
    ///
    /// The sender and the end note, where the ring was seen full. Nothing was put then.
    pub fn try_end(self, end: End) -> Result<Closed, (Sender, End)>
        ensures ended { IfOk result (λ closed. EndedIn self closed
            × (notes_carried closed ≡ notes_put self ++ Note.End end ∷ [])) }
        ensures full { IfErr result (λ back. IsSameSender self back.0
            × (notes_put back.0 ≡ notes_put self) × (places_known back.0 ≡ 0) × (back.1 ≡ end)) }
        ensures succeeds { 0 < places_known self → IsOk result }
    {
        let mut sender = self;
        if sender.producer.is_full() {
            return Err((sender, end));
        }
        let Sender { mut producer } = sender;
        producer.push_reserved(Note::End(end));
        Ok(Closed { producer })
    }
}
