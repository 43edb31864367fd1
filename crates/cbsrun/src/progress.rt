//! Reports on a terminal of how far a long run is.

use cbsrun_commands::Progress;
use std::io::IsTerminal;
use std::time::{Clock, Duration};

/// The milliseconds from the beginning of a run to the first report.
const FIRST: u64 = 2000;

/// The milliseconds from one report to the next.
const AGAIN: u64 = 200;

/// A receiver that reports on standard error how far a run is. It does so only on a terminal, and for a run of more
/// than two seconds.
#[derive(Drop)]
pub struct Teller<'a> {
    rt: &'a HostRuntime,
    next: Option<Duration>,
    told: bool,
}

impl<'a> Teller<'a> {
    /// Returns a receiver for a run that begins now.
    pub fn new(rt: &'a HostRuntime) -> Teller<'a> {
        let next = if rt.stderr().is_terminal() {
            rt.monotonic()
                .ok()
                .and_then(|now| now.checked_add(Duration::from_millis(FIRST)))
        } else {
            None
        };
        Teller {
            rt,
            next,
            told: false,
        }
    }
}

impl Progress for Teller<'_> {
    fn tell(&mut self, clock: u64, until: u64) {
        let (Some(next), Ok(now)) = (self.next, self.rt.monotonic()) else {
            return;
        };
        if now < next {
            return;
        }
        let percent = u128::from(clock) * 100 / u128::from(until.max(1));
        let _written = eprint!(self.rt; "\rcbsrun: at tick {clock} of {until}, {percent} %");
        self.told = true;
        self.next = now.checked_add(Duration::from_millis(AGAIN));
    }

    /// Removes the report from the terminal, if there is one.
    fn end(&mut self) {
        if self.told {
            let _written = eprint!(self.rt; "\r\x1b[K");
        }
    }
}
