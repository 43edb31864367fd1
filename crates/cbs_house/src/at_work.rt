//! The sides that are still at work in a round.

use cbs_clients::Pause;
use std::sync::atomic::{AtomicBool, AtomicU64, Ordering};
use std::time::Clock;

/// The sides that are still at work in a round. A side rests only while it waits for the other. Once the other side has
/// taken its turns, the remaining turns are taken without a rest. No contract speaks of this, since a rest changes
/// nothing.
#[derive(Drop)]
pub struct AtWork {
    house: AtomicBool,
    senders: AtomicU64,
}

impl AtWork {
    /// Returns the start of a round, with the house and `senders` senders at work.
    pub fn all(senders: u64) -> AtWork {
        AtWork {
            house: AtomicBool::new(true),
            senders: AtomicU64::new(senders),
        }
    }

    /// Lets a sender rest after a turn that sent nothing, if the house is at work.
    pub fn sender_rests<R: Clock>(&self, rt: &R, pause: &mut Pause) {
        if self.house.load(Ordering::SeqCst) {
            pause.idle(rt);
        }
    }

    /// Lets the house rest after a turn that did nothing, if a sender is at work.
    pub fn house_rests<R: Clock>(&self, rt: &R, pause: &mut Pause) {
        if self.senders.load(Ordering::SeqCst) > 0 {
            pause.idle(rt);
        }
    }

    /// Records that the house has taken its turns.
    pub fn house_leaves(&self) {
        self.house.store(false, Ordering::SeqCst);
    }

    /// Records that a sender has taken its turns.
    pub fn sender_leaves(&self) {
        self.senders.fetch_sub(1, Ordering::SeqCst);
    }
}
