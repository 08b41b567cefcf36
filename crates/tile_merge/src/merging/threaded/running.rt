//! A tile whose thread runs, and how it is started, stopped and joined.
ghost use Rattle.std.specs.Prelude.{◌≡◌, ◌⊎◌, ◌≤◌, ◌<◌, ◌+◌, ◌^◌, ◌++◌, [], ◌∷◌, IfOk, IfErr, IfSome, IfNone, flat_map, length, true};
ghost use Rattle.rtrb.specs.Ring.{sent, received, IsPair};
ghost use Rattle.tile_handoff.specs.Ends.{ArePair, notes_put, notes_taken};
ghost use Rattle.tile_merge.specs.Feeds.{Course};
ghost use Rattle.byte_streams.specs.Failures.{Wrote, after_call};
ghost use Rattle.tile_merge.specs.Threads.{fresh_run, is_ended, HasGiven};
ghost use Rattle.tile_stream.specs.Stream.{with_newline};
ghost use Rattle.tile_stream.specs.TileState.{most_texts};
ghost use Rattle.tile_stream.specs.Unread.{most_left};

use crate::merging::ends::{Ending, TileEnd};
use crate::merging::threaded::cancelling::{Canceller, cancel_ends};
use crate::merging::threaded::feeder::{FedTile, Feeds, Finished, Links};
use crate::merging::threaded::waiting::{Bell, Patience, SpacedBell};
use byte_streams::{Fault, Line, Sink, Source};
use std::alloc::Global;
use std::marker::Model;
use std::snapshot::Snapshot;
use std::sync::Wait;
use std::thread;
use std::thread::{PromisedHandle, Threads};
use tile_handoff::{MAX_CAPACITY, Note, Receiver, Sender, ends};
use tile_stream::ReadyTexts;

/// A tile whose thread runs: the texts of its first line, the thread, how it ended once the end note was taken, and what
/// the caller keeps.
#[derive(Drop)]
pub(super) struct RunningTile<R: Source> {
    first: ReadyTexts,
    thread: PromisedHandle<Finished, Feeds<R>>,
    last: Option<TileEnd>,
    receiver: Receiver,
    canceller: Canceller,
    emptied: SpacedBell,
}

/// What the caller keeps of a tile and its thread: the texts of the first line, the end of its ring that takes notes, that
/// by which it is asked to stop, and the bell at which it sleeps while the ring is full.
#[derive(Drop)]
struct CallerSide {
    first: ReadyTexts,
    receiver: Receiver,
    canceller: Canceller,
    emptied: SpacedBell,
}

impl<R: Source> Model for RunningTile<R> {
    ghost use Rattle.std.specs.Coded.{codes};
    ghost use Rattle.city_feature.specs.contracts.features.values.Feature as feature_type;
    ghost use Rattle.std.specs.Prelude.{◌≡◌, ◌++◌, [], length};
    ghost use Rattle.rtrb.specs.Ring.{sent, received, IsPair};
    ghost use Rattle.tile_handoff.specs.Ends.{notes_put, notes_taken, ArePair};
    ghost use Rattle.tile_merge.specs.Threads.{RunningState, TellsEnd, lines_in};

    ghost Value = { RunningState R };

    ghost coded = { Prim.hlevel (codes, feature_type.the_row.coded) };

    ghost view = { λ tile. record {
      begun = record { fed = tile.thread.promise.tile.value; first = tile.first };
      lines = tile.first ++ lines_in (notes_taken tile.receiver);
      last = tile.last;
      cancels = length (sent tile.canceller.producer);
    } };

    ghost invariant = { λ tile. (notes_put tile.thread.promise.sender.value ≡ [])
        × ArePair tile.thread.promise.sender.value tile.receiver
        × TellsEnd tile.last (notes_taken tile.receiver)
        × IsPair tile.canceller.producer tile.thread.promise.cancellation.value.consumer
        × (received tile.thread.promise.cancellation.value.consumer ≡ [])
        × (tile.thread.promise.tile.value.begun.count ≡ length tile.first) };
}

/// A new ring, and what ties the thread at its one end to the caller at the other.
#[derive(Drop)]
struct Sides {
    sender: Sender,
    links: Links,
    receiver: Receiver,
    canceller: Canceller,
    emptied: SpacedBell,
}

/// A ring for so many notes. The bell `filled` is to be rung at each.
fn sides_of(alloc: Global, capacity: u32, filled: &Bell) -> Result<Sides, Fault>
    requires { (0 < capacity) × (capacity ≤ MAX_CAPACITY) }
    ensures pair { IfOk result (λ sides. ArePair sides.sender sides.receiver) }
    ensures unused { IfOk result (λ sides. (notes_put sides.sender ≡ []) × (notes_taken sides.receiver ≡ [])) }
    ensures word { IfOk result (λ sides. IsPair sides.canceller.producer sides.links.cancellation.consumer) }
    ensures unasked { IfOk result (λ sides. (sent sides.canceller.producer ≡ [])
        × (received sides.links.cancellation.consumer ≡ [])) }
    ensures memory { IfErr result (λ fault. fault ≡ Fault.Memory) }
{
    let emptied = Bell::new(alloc)?;
    let (canceller, cancellation) = cancel_ends(alloc)?;
    let links = Links {
        filled: filled.again()?,
        emptied: emptied.again()?,
        cancellation,
    };
    let (sender, receiver) = ends(alloc, capacity)?;
    Ok(Sides {
        sender,
        links,
        receiver,
        canceller,
        emptied: SpacedBell::new(emptied, capacity),
    })
}

/// Starts a thread that puts the texts of the tile into a new ring, those of its first line excepted, which are kept, and
/// rings the bell `filled` at each.
///
/// # Errors
///
/// [`Fault::Memory`] where there is not enough for the ring, [`Fault::NoThread`] where no thread can
/// be started.
pub(super) fn start<H, R>(
    rt: &H,
    alloc: Global,
    tile: FedTile<R>,
    first: ReadyTexts,
    capacity: u32,
    filled: &Bell,
) -> Result<RunningTile<R>, Fault>
where
    H: Threads + Wait + Copy + Send + 'static,
    R: Source + Send + Drop + 'static,
    requires begun { tile.begun.count ≡ length first }
    requires most { tile.begun.count + most_left tile.unread ≤ most_texts }
    requires capacity { (0 < capacity) × (capacity ≤ MAX_CAPACITY) }
    ensures ok { IfOk result (λ running. running ≡ fresh_run (record { fed = tile; first = first })) }
    ensures refused { IfErr result (λ fault.
        (fault ≡ Fault.Memory) ⊎ (fault ≡ Fault.NoThread)) }
{
    let Sides {
        sender,
        links,
        receiver,
        canceller,
        emptied,
    } = sides_of(alloc, capacity, filled)?;
    let caller = CallerSide {
        first,
        receiver,
        canceller,
        emptied,
    };
    start_with(rt, alloc, tile, sender, links, caller)
}

/// Starts a thread that puts the texts of the tile through this sender, whose ring is new.
///
/// # Errors
///
/// [`Fault::NoThread`] where no thread can be started.
fn start_with<H, R>(
    rt: &H,
    alloc: Global,
    tile: FedTile<R>,
    sender: Sender,
    links: Links,
    caller: CallerSide,
) -> Result<RunningTile<R>, Fault>
where
    H: Threads + Wait + Copy + Send + 'static,
    R: Source + Send + Drop + 'static,
    requires begun { tile.begun.count ≡ length caller.first }
    requires most { tile.begun.count + most_left tile.unread ≤ most_texts }
    requires pair { ArePair sender caller.receiver }
    requires unused { (notes_put sender ≡ []) × (notes_taken caller.receiver ≡ []) }
    requires word { IsPair caller.canceller.producer links.cancellation.consumer }
    requires unasked { (sent caller.canceller.producer ≡ [])
        × (received links.cancellation.consumer ≡ []) }
    ensures ok { IfOk result (λ running. running ≡ fresh_run (record { fed = tile; first = caller.first })) }
    ensures refused { IfErr result (λ fault. fault ≡ Fault.NoThread) }
{
    let feeds = Feeds {
        tile: Snapshot::of(&tile),
        sender: Snapshot::of(&sender),
        cancellation: Snapshot::of(&links.cancellation),
    };
    let handle = *rt;
    let Ok(thread) = thread::spawn_with(rt, feeds, move || {
        tile.feed(&handle, alloc, sender, links)
    }) else {
        return Err(Fault::NoThread);
    };
    let CallerSide {
        first,
        receiver,
        canceller,
        emptied,
    } = caller;
    Ok(RunningTile {
        first,
        thread,
        last: None,
        receiver,
        canceller,
        emptied,
    })
}

impl<R: Source + Drop> RunningTile<R> {
    /// Writes the texts of the first line, each with its newline.
    ///
    /// # Errors
    ///
    /// [`Fault::Write`] where a write failed; some first bytes were written then.
    pub(super) fn write_first<W: Sink>(&mut self, output: &mut W) -> Result<(), Fault>
        ensures written { Wrote result (W.taken output.old) (W.taken output.new) (flat_map with_newline self.old.begun.first) }
        ensures failures { W.failures output.new ≡ after_call result (W.failures output.old) }
        ensures fault { IfErr result (λ fault. fault ≡ Fault.Write) }
        ensures same { self.new ≡ self.old }
    {
        self.first.write(output)
    }

    /// Takes the oldest note that is left, unless the end note was taken: a line, or else none.
    pub(super) fn take(&mut self) -> Option<Line>
        ensures begun { self.new.begun ≡ self.old.begun }
        ensures line { IfSome result (λ line. self.new.lines ≡ self.old.lines ++ line ∷ []) }
        ensures none { IfNone result (self.new.lines ≡ self.old.lines) }
        ensures cancels { self.new.cancels ≡ self.old.cancels }
    {
        if self.last.is_some() {
            return None;
        }
        match self.receiver.try_take() {
            Some(Note::Line(line)) => {
                self.emptied.count();
                return Some(line);
            }
            Some(Note::End(end)) => {
                self.last = Some(TileEnd::of(end));
                return None;
            }
            None => return None,
        }
    }

    /// Asks the thread to stop at its next line. Its texts so far and its end note are still to be
    /// taken.
    pub(super) fn cancel(&mut self)
        ensures begun { self.new.begun ≡ self.old.begun }
        ensures lines { self.new.lines ≡ self.old.lines }
    {
        self.canceller.cancel();
    }

    /// Joins the thread, whose end note was taken, and confirms that all was taken that it put.
    pub(super) fn finish<H: Threads>(self, rt: &H)
        requires { is_ended self ≡ true }
        ensures { (course : Course) × HasGiven R.gives self course }
    {
        let RunningTile {
            thread,
            receiver,
            canceller,
            ..
        } = self;
        let Finished {
            closed,
            cancellation,
        } = thread.join(rt);
        canceller.confirm(cancellation);
        let Ok(_) = receiver.confirm(closed) else {
            unreachable!()
        };
    }

    /// Asks the thread to stop, takes what is left, up to the end note, and joins the thread.
    pub(super) fn stop<H: Threads + Wait>(self, rt: &H, filled: &Bell) {
        let mut tile = self;
        tile.cancel();
        let mut patience = Patience::new();
        'notes: for _ in rt.forever() {
            if tile.last.is_some() {
                break;
            }
            let sleep = filled.listen(patience.is_over());
            if tile.take().is_some() {
                patience.renew();
                continue;
            }
            if tile.last.is_some() {
                break;
            }
            match sleep {
                Some(key) => key.wait(rt),
                None => patience.pause(),
            }
        }
        let RunningTile { thread, .. } = tile;
        thread.join(rt);
    }
}

impl<R: Source> Ending for RunningTile<R> {
    ghost last_of = { λ tile. tile.last };

    fn last(&self) -> Option<TileEnd> {
        self.last
    }
}
