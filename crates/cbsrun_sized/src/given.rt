//! The reservation of each server: the one that it has, or the one that is proposed for it.

ghost use Rattle.std.specs.Prelude.{◌≡◌, ◌<◌, length, None, IfOk, IfErr};
ghost use Rattle.cbsrun_proposals.specs.Proposals.{rate_of};
ghost use Rattle.cbsrun_sized.specs.Sized.{given_in, IsReservationFor, AreReservations, IsWhyNot};

use crate::not_sized::NotSized;
use cbsrun_loads::{Given, Sketch};
use cbsrun_proposals::Proposal;
use cbsrun_sizing::proposal_for;
use std::alloc::Global;

/// Returns the reservation that a server of a sketch has. Returns `None` if the sketch gives it none, or if all are to be
/// proposed.
pub(crate) fn given_in(sketch: &Sketch, all: bool, server: u16) -> Option<Given>
    requires { server < length sketch.now.servers }
    ensures { result ≡ given_in sketch.now all server }
{
    if all {
        return None;
    }
    sketch.servers()[usize::from(server)].given
}

/// Returns what is proposed for a server of a sketch that has no reservation.
fn proposed_for(
    alloc: Global,
    sketch: &Sketch,
    all: bool,
    server: u16,
) -> Result<Proposal, NotSized>
    requires server { server < length sketch.now.servers }
    requires free { given_in sketch.now all server ≡ None }
    ensures ok { IfOk result (λ p. IsReservationFor sketch.now all server (rate_of p)) }
    ensures err { IfErr result (IsWhyNot sketch.now all) }
{
    match proposal_for(alloc, sketch, server)? {
        Some(reservation) => Ok(Proposal {
            budget: reservation.budget(),
            period: reservation.period(),
        }),
        None => Err(NotSized::NothingProposed { server }),
    }
}

/// Returns the reservation of a server of a sketch.
fn reservation_for(
    alloc: Global,
    sketch: &Sketch,
    all: bool,
    server: u16,
) -> Result<Proposal, NotSized>
    requires { server < length sketch.now.servers }
    ensures ok { IfOk result (λ p. IsReservationFor sketch.now all server (rate_of p)) }
    ensures err { IfErr result (IsWhyNot sketch.now all) }
{
    match given_in(sketch, all, server) {
        Some(given) => Ok(Proposal {
            budget: given.budget,
            period: given.period,
        }),
        None => proposed_for(alloc, sketch, all, server),
    }
}

/// Returns the reservation of each server of a sketch, by number.
pub(crate) fn reservations_of(
    alloc: Global,
    sketch: &Sketch,
    all: bool,
) -> Result<Vec<Proposal>, NotSized>
    ensures ok { IfOk result (λ rates.
        AreReservations sketch.now all (length sketch.now.servers) rates.items) }
    ensures err { IfErr result (IsWhyNot sketch.now all) }
{
    let servers = sketch.servers().len() as u16;
    let mut reservations = Vec::with_capacity(alloc, usize::from(servers))?;
    for server in 0..servers {
        let reservation = reservation_for(alloc, sketch, all, server)?;
        let Ok(()) = reservations.push(reservation) else {
            return Err(NotSized::OutOfMemory);
        };
    }
    Ok(reservations)
}
