//! Whether a reservation is enough for the sources of a server.

ghost use Rattle.std.specs.Prelude.{◌≡◌, true, false};
ghost use Rattle.cbsrun_proposals.specs.Proposals.{is_by, IsEnough, IsNotEnough};

use cbs_guarantee::{Source, guaranteed};
use cbs_rate::Reservation;

/// What a server's jobs have to live with, and by when they have to be finished.
#[derive(Clone, Copy)]
pub struct Wanted {
    /// By how many ticks the other servers may delay this one, at most
    /// [`MAX_DELAY`](cbs_guarantee::MAX_DELAY).
    pub delay: u64,
    /// How many unfinished jobs the server may have.
    pub backlog: u64,
    /// Within how many ticks after it came each job has to be finished, or `None` for any time.
    pub within: Option<u64>,
}

/// Returns whether a time in ticks is at most the wanted one. Without a wanted time, returns `true`.
pub(crate) fn is_by(time: u64, within: Option<u64>) -> bool
    ensures { result ≡ is_by time within }
{
    match within {
        Some(within) => time <= within,
        None => true,
    }
}

/// Returns whether a server with this reservation promises that each job of the sources is finished in time.
pub(crate) fn is_enough(server: Reservation, sources: &[Source], wanted: Wanted) -> bool
    ensures yes { result ≡ true → IsEnough sources.now wanted server }
    ensures no { result ≡ false → IsNotEnough sources.now wanted server }
{
    match guaranteed(server, sources, wanted.delay, wanted.backlog) {
        Ok(time) => is_by(time, wanted.within),
        Err(_) => false,
    }
}
