//! What would do for a server whose jobs are not promised in time.

ghost use Rattle.std.specs.Prelude.{◌≡◌, ◌≤◌, true, false, MatchOption, option_map};
ghost use Rattle.cbs_rate.specs.Limits.{most_backlog};
ghost use Rattle.cbsrun_proposals.specs.Proposals.{delayed_longer, rate_of, with_backlog, IsBacklogEnough, IsEnough, IsNoBacklogEnough, IsNotEnough, IsRemedy};

use crate::proposal::propose;
use crate::wanted::{Wanted, is_by, is_enough};
use cbs_core::MAX_BACKLOG;
use cbs_guarantee::{NotPromised, Source, guaranteed};
use cbs_rate::Reservation;

/// A budget in every period, in ticks, that would do for a server.
#[derive(Clone, Copy, PartialEq, Eq)]
pub struct Proposal {
    /// The budget, in ticks.
    pub budget: u64,
    /// The period, in ticks.
    pub period: u64,
}

/// What would do for a server, if its reservation and its backlog do not.
#[derive(Clone, Copy, PartialEq, Eq)]
pub struct Remedy {
    /// A greater backlog that is enough, if the backlog alone is too small. It is at most [`MAX_BACKLOG`].
    pub backlog: Option<u64>,
    /// The reservation of least share, among those that are looked at, that is enough: see
    /// [`propose`](crate::propose).
    pub reservation: Option<Proposal>,
    /// By how many ticks the other servers may delay the jobs, if that alone is longer than is wanted. Then no reservation
    /// would do, with whatever backlog.
    pub delayed: Option<u64>,
}

/// Returns whether a server of this reservation promises each job in time with this backlog.
fn is_enough_with(backlog: u64, server: Reservation, sources: &[Source], wanted: Wanted) -> bool
    ensures yes { result ≡ true → IsEnough sources.now (with_backlog backlog wanted) server }
    ensures no { result ≡ false → IsNotEnough sources.now (with_backlog backlog wanted) server }
{
    is_enough(server, sources, Wanted { backlog, ..wanted })
}

/// Returns the backlog that the jobs need, as far as it is at most [`MAX_BACKLOG`].
fn needed_backlog(server: Reservation, sources: &[Source], wanted: Wanted) -> u64
    ensures { result ≤ most_backlog }
{
    match guaranteed(server, sources, wanted.delay, wanted.backlog) {
        Err(NotPromised::BacklogTooSmall { needed }) => needed.min(MAX_BACKLOG),
        _ => MAX_BACKLOG,
    }
}

/// Returns a backlog that is enough for a server of this reservation, or `None` if none is, up to [`MAX_BACKLOG`].
fn greater_backlog(server: Reservation, sources: &[Source], wanted: Wanted) -> Option<u64>
    ensures { MatchOption result (IsNoBacklogEnough sources.now wanted server)
        (IsBacklogEnough sources.now wanted server) }
{
    if !is_enough_with(MAX_BACKLOG, server, sources, wanted) {
        return None;
    }
    let needed = needed_backlog(server, sources, wanted);
    if is_enough_with(needed, server, sources, wanted) {
        Some(needed)
    } else {
        Some(MAX_BACKLOG)
    }
}

/// Returns a reservation as a proposal.
fn proposal_of(reservation: Option<Reservation>) -> Option<Proposal>
    ensures { option_map rate_of result ≡ reservation }
{
    match reservation {
        Some(reservation) => Some(Proposal {
            budget: reservation.budget(),
            period: reservation.period(),
        }),
        None => None,
    }
}

/// Returns by how many ticks the others may delay the jobs, if that alone is longer than is wanted.
fn delayed_longer(wanted: Wanted) -> Option<u64>
    ensures { result ≡ delayed_longer wanted }
{
    if is_by(wanted.delay, wanted.within) {
        None
    } else {
        Some(wanted.delay)
    }
}

/// Returns what would do for a server of this reservation with these sources, or `None` if its reservation and backlog
/// do: then each job is promised, and in time.
pub fn remedy_for(server: Reservation, sources: &[Source], wanted: Wanted) -> Option<Remedy>
    ensures { MatchOption result (IsEnough sources.now wanted server)
        (IsRemedy sources.now wanted server) }
{
    if is_enough(server, sources, wanted) {
        return None;
    }
    Some(Remedy {
        backlog: greater_backlog(server, sources, wanted),
        reservation: proposal_of(propose(sources, wanted)),
        delayed: delayed_longer(wanted),
    })
}
