//! Where threads sleep, and how they are woken.
use crossbeam_utils::Backoff;
use crossbeam_utils::sync::{EventCount, Key};
use std::alloc::{AllocError, Global};
use std::sync::Arc;

/// How often a thread looks again before it sleeps.
const LOOKS: u32 = 64;

/// Where one thread sleeps, until another wakes it. All that hold a part of it may be in threads of
/// their own.
///
/// No wake-up is lost where each keeps to this order: who waits calls [`Bell::listen`] and then looks
/// again before it sleeps; who changes what it waits for does so first, and then calls
/// [`Bell::ring`]. Each of these steps is sequentially consistent, as are those of a ring, so that
/// either the look sees the change, or the ringing comes after the listening and sees who waits.
#[derive(Drop)]
pub(super) struct Bell {
    event: Arc<EventCount, Global>,
}

impl Bell {
    pub(super) fn new(alloc: Global) -> Result<Bell, AllocError> {
        Ok(Bell {
            event: Arc::new(alloc, EventCount::new())?,
        })
    }

    /// The same bell.
    pub(super) fn again(&self) -> Result<Bell, AllocError> {
        Ok(Bell {
            event: Arc::try_clone(&self.event)?,
        })
    }

    /// Wakes the thread that sleeps, or is about to. One load where none is.
    pub(super) fn ring(&self) {
        self.event.notify_one();
    }

    /// Announces a sleep, where it is time for one. The caller looks once more, and then sleeps or
    /// lets the key go.
    pub(super) fn listen(&self, is_time: bool) -> Option<Key<'_>> {
        if is_time {
            Some(self.event.prepare_wait())
        } else {
            None
        }
    }
}

/// A bell that is rung by every so many calls, as often as is needed: the last of as many calls as a
/// ring holds notes is not the first that rings.
#[derive(Drop)]
pub(super) struct SpacedBell {
    bell: Bell,
    between: u32,
    since: u32,
}

impl SpacedBell {
    /// A bell for a ring of so many notes.
    pub(super) fn new(bell: Bell, capacity: u32) -> SpacedBell {
        SpacedBell {
            bell,
            between: capacity / 2,
            since: 0,
        }
    }

    pub(super) fn count(&mut self) {
        if self.since < self.between {
            self.since += 1;
        } else {
            self.since = 0;
            self.bell.ring();
        }
    }
}

/// How long a thread goes on looking before it sleeps.
#[derive(Drop)]
pub(super) struct Patience {
    backoff: Backoff,
    looks: u32,
}

impl Patience {
    pub(super) fn new() -> Patience {
        Patience {
            backoff: Backoff::new(),
            looks: LOOKS,
        }
    }

    /// What was waited for came.
    pub(super) fn renew(&mut self) {
        self.backoff.reset();
        self.looks = LOOKS;
    }

    pub(super) fn is_over(&self) -> bool {
        self.looks == 0
    }

    /// Lets others run before the next look.
    pub(super) fn pause(&mut self) {
        self.backoff.snooze();
        self.looks = self.looks.saturating_sub(1);
    }
}
