//! The kinds of moves, as a core makes them.

ghost use Rattle.std.specs.Prelude.{◌≡◌, IfOk, OnErr, None};
ghost use Rattle.cbs_core.specs.Agreement.{Agrees, TellsOf};
ghost use Rattle.cbs_steps.specs.History.{History, faces};
ghost use Rattle.cbsrun_simulate.specs.Loading.{loading, job_of};
ghost use Rattle.cbsrun_simulate.specs.Moves.{submit, run, pass, charge, idle_span, Simulation};
ghost use Rattle.cbsrun_simulate.specs.Releases.{MakesJob};
ghost use Rattle.cbsrun_simulate.specs.Simulating.{DoesMove, owing_told};

use crate::charge::Charge;
use crate::load_job::LoadJob;
use crate::release::Release;
use cbs_core::Core;
use cbs_job::Task;
use cbs_steps::{CoreError, Ran};
use cbsrun_events::Event;
use std::alloc::{AllocError, Allocator};

/// Submits the job of a release. Refuses if out of memory: then the core is unchanged.
#[inline(always)]
pub(crate) fn submit<A: Allocator>(
    core: &mut Core<LoadJob, A>,
    release: Release,
) -> Result<Event, AllocError>
    requires { MakesJob release }
    ensures moves { IfOk result (λ event. (sim : Simulation LoadJob)
        → Agrees loading core.old sim.history
        → DoesMove loading job_of sim (submit release) core.new event sim.owing) }
    ensures unchanged { OnErr result ((M : History LoadJob) → Agrees loading core.old M
        → Agrees loading core.new M) }
{
    let job = LoadJob {
        left: release.units,
        overrun: release.overrun,
    };
    let Ok(task) = Task::new(job) else {
        return Err(AllocError);
    };
    match core.submit(release.server, task) {
        Ok(number) => Ok(Event::Accepted {
            job: release.arrival(),
            number,
            promised: core.promised(release.server),
        }),
        Err(refused) => match refused.error {
            CoreError::OutOfMemory => Err(AllocError),
            error => Ok(Event::NotAccepted {
                job: release.arrival(),
                error,
            }),
        },
    }
}

/// Runs a unit of the chosen server. Returns the event, and the charge that is then owed, if one is.
#[inline(always)]
pub(crate) fn run<A: Allocator>(core: &mut Core<LoadJob, A>) -> (Event, Option<Charge>)
    ensures { (sim : Simulation LoadJob) → Agrees loading core.old sim.history
        → DoesMove loading job_of sim run core.new result.0 result.1 }
{
    let ran = core.run();
    (Event::Ran(ran), owing(core, ran))
}

/// Returns the charge that is owed after a run with this result, if one is.
#[inline(always)]
fn owing<A: Allocator>(core: &Core<LoadJob, A>, ran: Ran) -> Option<Charge>
    ensures { result ≡ owing_told loading core.now ran }
{
    match ran {
        Ran::Unit { server, .. } => Charge::of(server, core.front_output(server)?),
        Ran::Done(done) => Charge::of(done.server, done.result),
        Ran::Idle | Ran::ClockEnd => None,
    }
}

/// Lets this many ticks pass. Returns the event.
pub(crate) fn pass<A: Allocator>(core: &mut Core<LoadJob, A>, ticks: u64) -> Event
    ensures { (sim : Simulation LoadJob) → Agrees loading core.old sim.history
        → DoesMove loading job_of sim (pass ticks) core.new result None }
{
    let _passed = core.advance(ticks);
    Event::Advanced(ticks)
}

/// Charges the server that ran the last unit. Returns the event.
pub(crate) fn charge<A: Allocator>(core: &mut Core<LoadJob, A>, server: u16, ticks: u64) -> Event
    ensures { (sim : Simulation LoadJob) → Agrees loading core.old sim.history
        → DoesMove loading job_of sim (charge server ticks) core.new result None }
{
    let _charged = core.charge(server, ticks);
    Event::Charged { server, ticks }
}

/// Returns for how many ticks no server will be ready, or `None` if one is ready now. It first tests whether a server
/// is ready, since that takes less time than the search for a span.
#[inline(always)]
pub(crate) fn span_if_idle<A: Allocator>(core: &Core<LoadJob, A>) -> Option<u64>
    ensures { TellsOf loading core.now (λ w. result ≡ idle_span w.now (faces loading w)) }
{
    match core.ready() {
        Some(_server) => None,
        None => core.idle_span(),
    }
}
