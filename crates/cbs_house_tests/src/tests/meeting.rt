//! A gate that finds out whether the parts of a round run at once.

use cbs_house::{Gate, Poll};
use std::sync::atomic::{AtomicU64, Ordering};

/// How often a call looks for the others.
const LOOKS: u64 = 1_000_000_000;

/// A meeting of calls: each raises a flag, and looks until all flags are up.
#[derive(Drop)]
pub struct Meeting {
    up: AtomicU64,
    met: AtomicU64,
}

impl Meeting {
    fn new() -> Meeting {
        Meeting {
            up: AtomicU64::new(0),
            met: AtomicU64::new(0),
        }
    }

    /// Raises a flag, and looks until `all` flags are up.
    fn meet(&self, all: u64) {
        self.up.fetch_add(1, Ordering::SeqCst);
        for _look in 0..LOOKS {
            if self.up.load(Ordering::SeqCst) >= all {
                self.met.fetch_add(1, Ordering::SeqCst);
                return;
            }
        }
    }

    /// Returns how many calls saw all the others.
    pub fn met(&self) -> u64 {
        self.met.load(Ordering::SeqCst)
    }
}

/// A gate in which the first calls of two senders and of the house look for each other. Then the first sender, before
/// its second message, and the house, after it took the first, look for each other.
#[derive(Drop)]
pub struct Meet {
    pub first: Meeting,
    pub second: Meeting,
    polls: AtomicU64,
    later: u64,
}

impl Meet {
    /// Returns a gate. `later` says whether the two later calls look for each other too.
    pub fn new(later: bool) -> Meet {
        Meet {
            first: Meeting::new(),
            second: Meeting::new(),
            polls: AtomicU64::new(0),
            later: u64::from(later),
        }
    }
}

impl Gate for Meet {
    fn before_send(&self, server: u16, number: u64) -> bool {
        if number == 0 {
            self.first.meet(3);
        }
        if self.later > 0
            && server == 0
            && number == 1
            && self.second.up.load(Ordering::SeqCst) < 2
        {
            self.second.meet(2);
        }
        true
    }

    fn answered(&self, server: u16, poll: Poll) {
        if self.polls.fetch_add(1, Ordering::SeqCst) == 0 {
            self.first.meet(3);
        }
        if self.later > 0 && server == 0 && poll == Poll::Took(0) {
            self.second.meet(2);
        }
    }
}

/// A gate that holds every message back.
#[derive(Drop)]
pub struct Shut;

impl Gate for Shut {
    fn before_send(&self, _server: u16, _number: u64) -> bool {
        false
    }

    fn answered(&self, _server: u16, _poll: Poll) {}
}
