//! A gate that delays at random.

use cbs_house::{Gate, Poll};
use std::sync::atomic::{AtomicU64, Ordering};

/// The longest delays that a load may have, in reads of a counter.
static LONGEST: [u64; 4] = [1, 16, 128, 1024];

/// A gate that delays each send, and the house after its polls, at random. It also puts about every fourth send off. No
/// send is put off for ever: each question gets a new random number.
#[derive(Drop)]
pub struct RandomDelays {
    seed: u64,
    // How often the gate was called.
    calls: AtomicU64,
}

impl RandomDelays {
    /// Returns the gate of this seed. The seed also determines how long the delays of either side are. So in some loads
    /// the senders are faster, and in others the house.
    pub fn new(seed: u64) -> RandomDelays {
        RandomDelays {
            seed: mixed(seed),
            calls: AtomicU64::new(0),
        }
    }

    /// Returns a random number for one call.
    fn draw(&self, server: u16, number: u64) -> u64 {
        let call = self.calls.fetch_add(1, Ordering::SeqCst);
        mixed(self.seed ^ mixed(call ^ mixed(number ^ mixed(u64::from(server)))))
    }

    /// Reads the counter `looks` times, which the compiler cannot leave out.
    fn delay(&self, looks: u64) {
        for _look in 0..looks {
            self.calls.load(Ordering::SeqCst);
        }
    }
}

impl Gate for RandomDelays {
    fn before_send(&self, server: u16, number: u64) -> bool {
        let drawn = self.draw(server, number);
        self.delay(drawn / 4 % LONGEST[(self.seed % 4) as usize]);
        drawn % 4 > 0
    }

    /// Delays the house, except after a full backlog: if servers wait for their deadlines, most polls find one.
    fn answered(&self, server: u16, poll: Poll) {
        if poll != Poll::Full {
            let drawn = self.draw(server, 0);
            self.delay(drawn % LONGEST[(self.seed / 4 % 4) as usize]);
        }
    }
}

/// Returns a number in which each bit depends on all bits of `number`.
fn mixed(number: u64) -> u64 {
    let once = (number ^ (number >> 30)).wrapping_mul(0xbf58_476d_1ce4_e5b9);
    let twice = (once ^ (once >> 27)).wrapping_mul(0x94d0_49bb_1331_11eb);
    twice ^ (twice >> 31)
}
