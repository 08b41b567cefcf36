//! What the thread of a tile does.
ghost use Rattle.std.specs.Prelude.{◌≡◌, ◌≤◌, ◌+◌, ◌^◌, ◌++◌, [], ◌∷◌};
ghost use Rattle.rtrb.specs.Ring.{received, SameConsumer};
ghost use Rattle.tile_handoff.specs.Ends.{notes_put, notes_carried, IsSameSender, EndedIn};
ghost use Rattle.tile_handoff.specs.declared.note.Note.{Note};
ghost use Rattle.tile_merge.specs.EndNotes.{end_of};
ghost use Rattle.tile_merge.specs.Threads.{IsFed};
ghost use Rattle.tile_stream.specs.TileState.{most_texts};
ghost use Rattle.tile_stream.specs.Unread.{most_left};

use crate::merging::ends::TileEnd;
use crate::merging::threaded::cancelling::Cancellation;
use crate::merging::threaded::waiting::{Bell, Patience};
use byte_streams::{Line, Source};
use city_feature::Choice;
use city_grid::Shift;
use std::alloc::Global;
use std::marker::Model;
use std::snapshot::Snapshot;
use std::sync::Wait;
use std::thread::Promise;
use tile_handoff::{Closed, End, Sender};
use tile_stream::{Passed, TileReader};

/// What the thread of a tile is given: the tile, whose first line the caller has taken, its shift, and what is chosen of
/// it.
#[derive(Drop)]
pub(super) struct FedTile<R> {
    pub(super) reader: TileReader<R>,
    pub(super) shift: Shift,
    pub(super) choice: Choice,
    /// How many texts the first line came to, and where the tile stops, if that line is at fault.
    pub(super) begun: TileEnd,
}

impl<R> Model for FedTile<R> {
    ghost use Rattle.std.specs.Coded.{codes};
    ghost use Rattle.city_feature.specs.contracts.features.values.Feature as feature_type;
    ghost use Rattle.tile_merge.specs.Threads.{Fed};

    ghost Value = { Fed R };

    ghost coded = { Prim.hlevel (codes, feature_type.the_row.coded) };

    ghost view = { λ tile. record {
      unread = tile.reader.lines;
      shift = tile.shift;
      choice = tile.choice;
      begun = tile.begun;
    } };
}

/// What ties the thread of a tile to the caller beside the tile's ring. The thread rings the bell
/// `filled` where it has put a note, sleeps at `emptied` while the ring is full, and ends its tile
/// once it is asked to.
#[derive(Drop)]
pub(super) struct Links {
    pub(super) filled: Bell,
    pub(super) emptied: Bell,
    pub(super) cancellation: Cancellation,
}

/// What the thread of a tile gives back.
#[derive(Drop)]
pub(super) struct Finished {
    pub(super) closed: Closed,
    pub(super) cancellation: Cancellation,
}

/// What the thread of a tile promises: the tile's texts, and then its end note, go through its
/// sender; where it was asked to stop, some of the texts that come first.
#[derive(Drop)]
pub(super) struct Feeds<R> {
    pub(super) tile: Snapshot<FedTile<R>>,
    pub(super) sender: Snapshot<Sender>,
    pub(super) cancellation: Snapshot<Cancellation>,
}

impl<R: Source> Promise<Finished> for Feeds<R> {
    ghost kept_by = { λ feeds finished. EndedIn feeds.sender.value finished.closed
        × SameConsumer feeds.cancellation.value.consumer finished.cancellation.consumer
        × IsFed R.gives feeds.tile.value (received finished.cancellation.consumer
        ≡ received feeds.cancellation.value.consumer)
        (notes_put feeds.sender.value) (notes_carried finished.closed) };
}

impl<R: Source + Drop> FedTile<R> {
    /// Reads the tile to its end, to where it stops, or to the line after which it is asked to stop,
    /// and puts its texts and then its end note. While the ring is full it waits.
    pub(super) fn feed<H: Wait>(
        self,
        rt: &H,
        alloc: Global,
        sender: Sender,
        links: Links,
    ) -> Finished
        requires most { self.begun.count + most_left self.unread ≤ most_texts }
        ensures own { EndedIn sender result.closed }
        ensures same { SameConsumer links.cancellation.consumer result.cancellation.consumer }
        ensures fed { IsFed R.gives self (received result.cancellation.consumer
            ≡ received links.cancellation.consumer)
            (notes_put sender) (notes_carried result.closed) }
    {
        let FedTile {
            mut reader,
            shift,
            choice,
            begun,
        } = self;
        if begun.stop.is_some() {
            return finish(rt, links, sender, begun);
        }
        let mut sender = sender;
        let mut links = links;
        let mut count = begun.count;
        let mut spare = Line::new(alloc);
        'lines: loop {
            let Passed { is_chosen, text } = match reader.pass(alloc, shift, &choice, spare) {
                Ok(Some(passed)) => passed,
                Ok(None) => return finish(rt, links, sender, TileEnd::new(count, None)),
                Err(at) => return finish(rt, links, sender, TileEnd::new(count, Some(at))),
            };
            if is_chosen {
                put(rt, &links, &mut sender, fitted(text));
                spare = Line::new(alloc);
                count += 1;
            } else {
                spare = text;
            }
            if links.cancellation.is_asked() {
                return finish(rt, links, sender, TileEnd::new(count, None));
            }
        }
    }
}

/// In bytes: how much more than its text a line may take that waits in a ring. 1 KiB, our own choice: less is not worth a
/// call.
const MOST_TO_SPARE: usize = 1024;

/// The line without the room that it has to spare, where that is much.
fn fitted(line: Line) -> Line
    ensures { result ≡ line }
{
    let mut bytes = line.into_vec();
    if bytes.capacity().saturating_sub(bytes.len()) > MOST_TO_SPARE {
        bytes.shrink_to_fit();
    }
    Line::from_vec(bytes)
}

/// Puts a line, and waits while the ring is full.
fn put<H: Wait>(rt: &H, links: &Links, sender: &mut Sender, line: Line)
    ensures same { IsSameSender sender.old sender.new }
    ensures put { notes_put sender.new ≡ notes_put sender.old ++ Note.Line line ∷ [] }
{
    let mut patience = Patience::new();
    let mut line = line;
    'full: for _ in rt.forever() {
        let sleep = links.emptied.listen(patience.is_over());
        match sender.try_put(line) {
            Ok(()) => {
                links.filled.ring();
                return;
            }
            Err(back) => line = back,
        }
        match sleep {
            Some(key) => key.wait(rt),
            None => patience.pause(),
        }
    }
    unreachable!()
}

/// Puts the end note, and gives back what the thread was given of its caller's.
fn finish<H: Wait>(rt: &H, links: Links, sender: Sender, end: TileEnd) -> Finished
    ensures own { EndedIn sender result.closed }
    ensures put { notes_carried result.closed ≡ notes_put sender ++ Note.End (end_of end) ∷ [] }
    ensures asked { result.cancellation.consumer ≡ links.cancellation.consumer }
{
    let closed = put_end(rt, &links, sender, end.note());
    let Links { cancellation, .. } = links;
    Finished {
        closed,
        cancellation,
    }
}

/// Puts the end note, and waits while the ring is full.
fn put_end<H: Wait>(rt: &H, links: &Links, sender: Sender, end: End) -> Closed
    ensures own { EndedIn sender result }
    ensures put { notes_carried result ≡ notes_put sender ++ Note.End end ∷ [] }
{
    let mut patience = Patience::new();
    let mut sender = sender;
    'full: for _ in rt.forever() {
        let sleep = links.emptied.listen(patience.is_over());
        match sender.try_end(end) {
            Ok(closed) => {
                links.filled.ring();
                return closed;
            }
            Err((back, _)) => sender = back,
        }
        match sleep {
            Some(key) => key.wait(rt),
            None => patience.pause(),
        }
    }
    unreachable!()
}
