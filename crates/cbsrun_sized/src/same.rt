//! Whether a load is a sketch with a reservation for each server.

ghost use Rattle.std.specs.Prelude.{◌≡◌, ◌<◌, ℕ, Bool, true, [], get_or, length, map, string_bytes};
ghost use Rattle.cbs_rules.specs.declared.mode.Mode.TheVariants.{Soft};
ghost use Rattle.cbs_guarantee.specs.Parts.{rate_at};
ghost use Rattle.cbsrun_proposals.specs.Proposals.{rate_of};
ghost use Rattle.cbsrun_sized.specs.Sized.{no_proposal, AreReservations, IsCompleted, IsSameServer};

use cbs_rules::Mode;
use cbsrun_loads::{Load, Sketch};
use cbsrun_proposals::Proposal;
use cbsrun_simulate::{Range, SourceTerms};

/// Returns whether a server of a load has this reservation.
fn is_reserved(load: &Load, server: u16, reservation: Proposal) -> bool
    requires { server < length load.now.plan.rates }
    ensures { result ≡ true → rate_at load.now.plan.rates server ≡ rate_of reservation }
{
    let own = load.plan().get(server).unwrap();
    own.budget() == reservation.budget && own.period() == reservation.period
}

/// Returns the name of a server.
fn name_at(names: &[String], server: u16) -> &str
    requires { server < length names.now }
    ensures { result.now ≡ get_or (map string_bytes names.now) server [] }
{
    names[usize::from(server)].as_str()
}

/// Returns the mode of a server of a load.
fn mode_at(load: &Load, server: u16) -> Mode
    requires { server < length load.now.plan.rates }
    ensures { result ≡ get_or load.now.modes server Soft }
{
    let _names = load.names();
    load.modes().get(server).unwrap()
}

/// Returns whether a server of a load has the name and the mode of a sketch, and this reservation.
fn is_same_server(load: &Load, sketch: &Sketch, server: u16, reservation: Proposal) -> bool
    requires load { server < length load.now.plan.rates }
    requires sketch { server < length sketch.now.servers }
    ensures { result ≡ true → IsSameServer sketch.now load.now server (rate_of reservation) }
{
    is_reserved(load, server, reservation)
        && name_at(load.names(), server) == name_at(sketch.names(), server)
        && mode_at(load, server) == sketch.servers()[usize::from(server)].mode
}

/// Returns whether each server of a load has the name and the mode of a sketch, and its reservation of these.
fn are_same_servers(load: &Load, sketch: &Sketch, reservations: &[Proposal]) -> bool
    requires load { length load.now.plan.rates ≡ length sketch.now.servers }
    requires count { length reservations.now ≡ length sketch.now.servers }
    ensures { result ≡ true → (s : ℕ) → s < length sketch.now.servers
        → IsSameServer sketch.now load.now s (rate_of (get_or reservations.now s no_proposal)) }
{
    for server in 0..load.plan().len() as u16 {
        if !is_same_server(load, sketch, server, reservations[usize::from(server)]) {
            return false;
        }
    }
    true
}

/// Returns whether two ranges are the same.
fn is_same_range(one: Range, other: Range) -> bool
    ensures { result ≡ true → one ≡ other }
{
    one.least() == other.least() && one.greatest() == other.greatest()
}

/// Returns whether two sources are the same.
fn is_same_source(one: SourceTerms, other: SourceTerms) -> bool
    ensures { result ≡ true → one ≡ other }
{
    one.server == other.server
        && one.first == other.first
        && is_same_range(one.every, other.every)
        && one.jitter == other.jitter
        && is_same_range(one.units, other.units)
        && one.jobs == other.jobs
        && one.within == other.within
        && is_same_range(one.overrun, other.overrun)
}

/// Returns whether two lists of sources are the same.
fn are_same_sources(own: &[SourceTerms], others: &[SourceTerms]) -> bool
    ensures { result ≡ true → own.now ≡ others.now }
{
    if own.len() != others.len() {
        return false;
    }
    for (i, terms) in own.iter().enumerate() {
        if !is_same_source(*terms, others[i]) {
            return false;
        }
    }
    true
}

/// Returns whether two lists of ticks are the same.
fn are_same_ticks(own: &[u64], others: &[u64]) -> bool
    ensures { result ≡ true → own.now ≡ others.now }
{
    own == others
}

/// Returns whether the same ticks are listed of each of two lists of sources.
fn are_same_listed(own: &[Vec<u64>], others: &[Vec<u64>]) -> bool
    ensures { result ≡ true → map (λ v. v.items) own.now ≡ map (λ v. v.items) others.now }
{
    if own.len() != others.len() {
        return false;
    }
    for (i, ticks) in own.iter().enumerate() {
        if !are_same_ticks(ticks, &others[i]) {
            return false;
        }
    }
    true
}

/// Returns whether a load has the tick, the bound, the backlog, the end, the seed and the sources of a sketch, and the
/// ticks that are listed of these.
fn is_same_beside(load: &Load, sketch: &Sketch) -> bool
    ensures tick { result ≡ true → load.now.tick ≡ sketch.now.tick }
    ensures bound { result ≡ true → load.now.plan.bound ≡ sketch.now.bound }
    ensures backlog { result ≡ true → load.now.backlog ≡ sketch.now.backlog }
    ensures until { result ≡ true → load.now.until ≡ sketch.now.until }
    ensures seed { result ≡ true → load.now.seed ≡ sketch.now.seed }
    ensures sources { result ≡ true → load.now.sources ≡ sketch.now.sources }
    ensures listed { result ≡ true → load.now.listed ≡ sketch.now.listed }
{
    load.tick() == sketch.tick()
        && load.plan().bound() == sketch.bound()
        && load.backlog() == sketch.backlog()
        && load.until() == sketch.until()
        && load.seed() == sketch.seed()
        && are_same_sources(load.sources(), sketch.sources())
        && are_same_listed(load.listed(), sketch.listed())
}

/// Returns whether a load is a sketch with these reservations.
pub(crate) fn is_completed(load: &Load, sketch: &Sketch, reservations: &[Proposal]) -> bool
    requires { length reservations.now ≡ length sketch.now.servers }
    ensures { (all : Bool) → AreReservations sketch.now all (length sketch.now.servers)
        reservations.now → result ≡ true → IsCompleted sketch.now all load.now }
{
    if load.plan().len() != sketch.servers().len() {
        return false;
    }
    is_same_beside(load, sketch) && are_same_servers(load, sketch, reservations)
}
