//! The figures of the sources of each server of a load.

ghost use Rattle.std.specs.Prelude.{◌≡◌, ℕ, ◌*◌, ◌≤◌, ◌<◌, length, IfOk, MatchResult};
ghost use Rattle.cbs_rate.specs.Limits.{longest_period};
ghost use Rattle.cbs_guarantee.specs.Sources.{ticks_of, IsPromised, IsReason};
ghost use Rattle.cbsrun_proposals.specs.Proposals.{IsProposal};
ghost use Rattle.cbsrun_sizing.specs.ServerLoads.{every_tick, held, at_most, sources_of, is_single_of, repeated_of, once_of, most_charged, all_charges, most_passed, lesser, least_within, wanted_by, wanted_in, wanted_of, is_wanted, kept_within, wants, proposed, AreShort, IsRoomFor, IsServerLoad, AreServerLoads};

use crate::asked::{Asked, asked_by};
use crate::budgets::greatest_budget_at;
use cbs_guarantee::{NotPromised, Source, guaranteed};
use cbs_rate::{Plan, Reservation};
use cbsrun_loads::{Load, Sketch};
use cbsrun_proposals::{Proposal, Remedy, Wanted, propose, remedy_for};
use cbsrun_simulate::SourceTerms;
use std::alloc::{AllocError, Global};

/// The figures of the sources of a server.
#[derive(Clone, Copy, PartialEq, Eq)]
pub struct ServerLoad {
    /// The greatest demand of the sources that give more than one job, all together, if it can be summed exactly.
    pub asked: Option<Asked>,
    /// The most ticks of the jobs of the other sources, each of which gives one job: they are asked for once. At most
    /// 2^64 - 1.
    pub once: u64,
    /// Within how many ticks of its release each of their jobs is finished, whatever the other servers are asked for,
    /// or why that is not promised. A charge of another server may pass a release, so that its job is submitted later:
    /// these ticks count, too.
    pub promised: Result<u64, NotPromised>,
    /// What would do, if the jobs are not promised within the ticks that each source wants.
    pub remedy: Option<Remedy>,
    /// The period of the server, if a source of it wants its jobs finished within that period, and the remedy's
    /// reservation has another. A source that says no `within` follows the period of its server, so it has to say this
    /// number with that reservation.
    pub kept: Option<u64>,
    /// The greatest budget that fits at the period of the remedy's reservation, beside all other servers, or 0 if there is
    /// no such reservation.
    pub room: u64,
}

/// Returns the number, or 2^32 - 1 if the number is greater.
fn held(number: u64) -> u32
    ensures { result ≡ held number }
{
    number.min(u64::from(u32::MAX)) as u32
}

/// Returns a source at its greatest demand, in the form that its guarantee needs.
fn at_most(terms: &SourceTerms) -> Source
    ensures { result ≡ at_most terms.now }
{
    Source {
        units: held(terms.units.greatest()),
        every: terms.distance(),
        overrun: held(terms.overrun.greatest()),
    }
}

/// Returns the sources of a server, each at its greatest demand. The only error is out of memory.
fn sources_of(
    alloc: Global,
    sources: &[SourceTerms],
    server: u16,
) -> Result<Vec<Source>, AllocError>
    ensures value { IfOk result (λ own. own.items ≡ sources_of server sources.now) }
    ensures few { IfOk result (λ own. length own.items ≤ length sources.now) }
{
    let mut own = Vec::new(alloc);
    for terms in sources {
        if terms.server == server {
            own.push(at_most(terms))?;
        }
    }
    Ok(own)
}

/// Returns whether a source gives one job alone, to this server.
fn is_single_of(terms: &SourceTerms, server: u16) -> bool
    ensures { result ≡ is_single_of server terms.now }
{
    terms.server == server && terms.is_single()
}

/// Returns the sources of a server that give more than one job, each at its greatest demand. The only error is out of
/// memory.
fn repeated_of(
    alloc: Global,
    sources: &[SourceTerms],
    server: u16,
) -> Result<Vec<Source>, AllocError>
    ensures value { IfOk result (λ own. own.items ≡ repeated_of server sources.now) }
    ensures few { IfOk result (λ own. length own.items ≤ length sources.now) }
{
    let mut repeated = Vec::new(alloc);
    for terms in sources {
        if terms.server == server && !terms.is_single() {
            repeated.push(at_most(terms))?;
        }
    }
    Ok(repeated)
}

/// Returns the most ticks of a job of a source.
fn job_ticks(terms: &SourceTerms) -> u64
    ensures { result ≡ ticks_of (at_most terms.now) }
{
    let source = at_most(terms);
    u64::from(source.units) * (1 + u64::from(source.overrun))
}

/// Returns the most ticks of the jobs of a server whose sources give one job each, or 2^64 - 1 if these are more.
fn once_of(sources: &[SourceTerms], server: u16) -> u64
    ensures { result ≡ once_of server sources.now }
{
    let mut ticks: u64 = 0;
    for terms in sources {
        if is_single_of(terms, server) {
            ticks = ticks.saturating_add(job_ticks(terms));
        }
    }
    ticks
}

/// Returns the most ticks that a server is charged for one unit: the greatest overrun of its sources.
pub(crate) fn most_charged(sources: &[SourceTerms], server: u16) -> u64
    requires { AreShort sources.now }
    ensures value { result ≡ most_charged sources.now server }
    ensures short { result ≤ longest_period }
{
    let mut most = 0;
    for terms in sources {
        if terms.server == server {
            most = most.max(terms.overrun.greatest());
        }
    }
    most
}

/// Returns the sum of the most ticks that each server is charged for one unit.
pub(crate) fn all_charges(sources: &[SourceTerms], servers: u16) -> u64
    requires { AreShort sources.now }
    ensures value { result ≡ all_charges sources.now servers }
    ensures short { result ≤ servers * longest_period }
{
    let mut charges = 0;
    for server in 0..servers {
        charges += most_charged(sources, server);
    }
    charges
}

/// Returns the most ticks by which a charge of another server may pass a release for this one: the greatest overrun of
/// the other servers' sources.
fn most_passed(sources: &[SourceTerms], server: u16) -> u64
    requires { AreShort sources.now }
    ensures value { result ≡ most_passed sources.now server }
    ensures short { result ≤ longest_period }
{
    let mut passed = 0;
    for terms in sources {
        if terms.server != server {
            passed = passed.max(terms.overrun.greatest());
        }
    }
    passed
}

/// Returns the least number of ticks within which a source of the server wants its jobs finished, or `None` if it has no
/// source.
pub fn least_within(sources: &[SourceTerms], server: u16) -> Option<u64>
    ensures { result ≡ least_within sources.now server }
{
    let mut least = None;
    for terms in sources {
        if terms.server == server {
            least = lesser(least, terms.within);
        }
    }
    least
}

/// Returns the lesser of two numbers, if there are two.
fn lesser(one: Option<u64>, other: Option<u64>) -> Option<u64>
    ensures { result ≡ lesser one other }
{
    match (one, other) {
        (Some(one), Some(other)) => Some(one.min(other)),
        (Some(one), None) => Some(one),
        (None, other) => other,
    }
}

/// Returns what the jobs of one of the servers have to live with, with this backlog. `charges` is the sum of the most
/// ticks that each of the servers is charged for one unit.
fn wanted_by(sources: &[SourceTerms], charges: u64, backlog: u64, server: u16) -> Wanted
    requires lawful { AreShort sources.now }
    requires short { charges ≤ 65535 * longest_period }
    ensures { (servers : ℕ) → charges ≡ all_charges sources.now servers
        → result ≡ wanted_by sources.now servers backlog server }
{
    let charged = charges.saturating_sub(most_charged(sources, server));
    Wanted {
        delay: charged + most_passed(sources, server),
        backlog,
        within: least_within(sources, server),
    }
}

/// Returns what the jobs of a server of a load have to live with. `charges` is the sum of the most ticks that each server
/// is charged for one unit.
fn wanted_of(load: &Load, server: u16, charges: u64) -> Wanted
    requires charges { charges ≡ all_charges load.now.sources (length load.now.plan.rates) }
    requires short { charges ≤ 65535 * longest_period }
    ensures { result ≡ wanted_of load.now server }
{
    wanted_by(load.sources(), charges, load.backlog(), server)
}

/// Returns how many servers a sketch has.
fn servers_in(sketch: &Sketch) -> u16
    ensures { result ≡ length sketch.now.names }
{
    sketch.names().len() as u16
}

/// Returns what the jobs of a server of a sketch have to live with.
fn wanted_in(sketch: &Sketch, server: u16) -> Wanted
    ensures { result ≡ wanted_in sketch.now server }
{
    let sources = sketch.sources();
    let charges = all_charges(sources, servers_in(sketch));
    wanted_by(sources, charges, sketch.backlog(), server)
}

/// Returns the reservation of least share, among those that are looked at, with which the jobs of a server of a sketch are
/// promised in time, or `None` if there is none: see [`propose`]. The only error is out of memory.
pub fn proposal_for(
    alloc: Global,
    sketch: &Sketch,
    server: u16,
) -> Result<Option<Reservation>, AllocError>
    ensures { IfOk result (IsProposal (sources_of server sketch.now.sources)
        (wanted_in sketch.now server)) }
{
    let own = sources_of(alloc, sketch.sources(), server)?;
    Ok(propose(&own, wanted_in(sketch, server)))
}

/// Returns the proposal of a remedy, if there is one.
fn proposed(remedy: Option<Remedy>) -> Option<Proposal>
    ensures { result ≡ proposed remedy }
{
    match remedy {
        Some(remedy) => remedy.reservation,
        None => None,
    }
}

/// Returns whether so many ticks are wanted.
fn is_wanted(ticks: u64, within: Option<u64>) -> bool
    ensures { result ≡ is_wanted ticks within }
{
    match within {
        Some(within) => within == ticks,
        None => false,
    }
}

/// Returns whether a source of the server wants its jobs finished within so many ticks.
fn wants(sources: &[SourceTerms], server: u16, ticks: u64) -> bool
    ensures { result ≡ wants sources.now server ticks }
{
    sources.iter().any(|terms| terms.server == server && is_wanted(ticks, terms.within))
}

/// Returns the period of a server, if a source of it wants its jobs finished within that period, and a proposal has another.
fn kept_within(
    sources: &[SourceTerms],
    server: u16,
    period: u64,
    proposal: Option<Proposal>,
) -> Option<u64>
    ensures { result ≡ kept_within sources.now server period proposal }
{
    match proposal {
        Some(proposal) if proposal.period != period && wants(sources, server, period) => {
            Some(period)
        }
        _ => None,
    }
}

/// Returns the greatest budget that fits at the period of a proposal, beside all other servers of a plan, or 0 if there
/// is no proposal.
fn room_for(plan: &Plan, server: u16, proposal: Option<Proposal>) -> u64
    ensures { IsRoomFor plan.now server proposal result }
{
    match proposal {
        Some(proposal) => greatest_budget_at(plan, server, proposal.period),
        None => 0,
    }
}

/// Returns within how many ticks of its release each job of a server of a sketch is finished, if the server has each tick
/// of the time, or why that is not promised. The only error is out of memory.
pub fn promised_at_best(
    alloc: Global,
    sketch: &Sketch,
    server: u16,
) -> Result<Result<u64, NotPromised>, AllocError>
    ensures { IfOk result (λ promised. let own = sources_of server sketch.now.sources in
        let w = wanted_in sketch.now server in
        MatchResult promised (IsPromised every_tick own w.delay w.backlog)
        (IsReason every_tick own w.delay w.backlog)) }
{
    let own = sources_of(alloc, sketch.sources(), server)?;
    let wanted = wanted_in(sketch, server);
    let every_tick = Reservation::new(1, 1).unwrap();
    Ok(guaranteed(every_tick, &own, wanted.delay, wanted.backlog))
}

/// Returns the figures of a server of a load. `charges` is the sum of the most ticks that each server is charged for
/// one unit. The only error is out of memory.
fn server_load(
    alloc: Global,
    load: &Load,
    server: u16,
    charges: u64,
) -> Result<ServerLoad, AllocError>
    requires server { server < length load.now.plan.rates }
    requires charges { charges ≡ all_charges load.now.sources (length load.now.plan.rates) }
    requires short { charges ≤ 65535 * longest_period }
    ensures { IfOk result (IsServerLoad load.now server) }
{
    let reservation: Reservation = load.plan().get(server).unwrap();
    let own = sources_of(alloc, load.sources(), server)?;
    let repeated = repeated_of(alloc, load.sources(), server)?;
    let wanted = wanted_of(load, server, charges);
    let remedy = remedy_for(reservation, &own, wanted);
    Ok(ServerLoad {
        asked: asked_by(&repeated),
        once: once_of(load.sources(), server),
        promised: guaranteed(reservation, &own, wanted.delay, wanted.backlog),
        remedy,
        kept: kept_within(
            load.sources(),
            server,
            reservation.period(),
            proposed(remedy),
        ),
        room: room_for(load.plan(), server, proposed(remedy)),
    })
}

/// Returns the figures of each server of a load, by the server's number. The only error is out of memory.
pub fn server_loads(alloc: Global, load: &Load) -> Result<Vec<ServerLoad>, AllocError>
    ensures { IfOk result (λ loads. AreServerLoads load.now (length load.now.plan.rates)
        loads.items) }
{
    let servers = load.plan().len() as u16;
    let charges = all_charges(load.sources(), servers);
    let mut loads = Vec::with_capacity(alloc, usize::from(servers))?;
    for server in 0..servers {
        loads.push(server_load(alloc, load, server, charges)?)?;
    }
    Ok(loads)
}
