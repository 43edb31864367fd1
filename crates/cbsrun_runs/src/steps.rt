//! Steps that are made on a core, as a view sees them.

ghost use Rattle.std.specs.Prelude.{◌∷◌, [], IfOk, OnOk, OnErr};
ghost use Rattle.cbs_core.specs.Agreement.{Follows};
ghost use Rattle.cbsrun_runs.specs.Steps.{MakesStep, Shows, Stops};

use cbs_core::{Core, CoreError, Step};
use cbs_job::{Task, Work};
use cbsrun_events::{Arrival, Event, View};
use cbsrun_simulate::seen_by;
use std::alloc::AllocError;

// Inlined, here and below, so that an event that a view takes apart at once is never built.
/// Submits a job, and returns the event. The only error is out of memory: then the core is unchanged.
#[inline(always)]
fn submit<W: Work>(core: &mut Core<W>, server: u16, task: Task<W>) -> Result<Event, AllocError>
    ensures makes { IfOk result (MakesStep W.meaning core.old (Step.Submit server task) core.new) }
    ensures unchanged { OnErr result (Follows W.meaning core.old core.new []) }
{
    let units = task.left();
    let answer = core.submit(server, task);
    let job = Arrival {
        server,
        came: core.now(),
        units,
        within: None,
    };
    match answer {
        Ok(number) => Ok(Event::Accepted {
            job,
            number,
            promised: core.promised(server),
        }),
        Err(refused) => match refused.error {
            CoreError::OutOfMemory => Err(AllocError),
            error => Ok(Event::NotAccepted { job, error }),
        },
    }
}

/// Makes a step, and returns the event. The only error is out of memory: then the core is unchanged.
#[inline(always)]
fn make<W: Work>(core: &mut Core<W>, step: Step<W>) -> Result<Event, AllocError>
    ensures makes { IfOk result (MakesStep W.meaning core.old step core.new) }
    ensures unchanged { OnErr result (Follows W.meaning core.old core.new []) }
{
    match step {
        Step::Submit(server, task) => submit(core, server, task),
        Step::Run => Ok(Event::Ran(core.run())),
        Step::Advance(ticks) => match core.advance(ticks) {
            Ok(()) => Ok(Event::Advanced(ticks)),
            Err(error) => Ok(Event::NotAdvanced(ticks, error)),
        },
        Step::Close(server) => match core.close(server) {
            Ok(()) => Ok(Event::Closed(server)),
            Err(error) => Ok(Event::NotClosed(server, error)),
        },
        Step::Charge(server, ticks) => match core.charge(server, ticks) {
            Ok(()) => Ok(Event::Charged { server, ticks }),
            Err(error) => Ok(Event::NotCharged {
                server,
                ticks,
                error,
            }),
        },
    }
}

/// Makes a step, and shows it to the view. Refuses if out of memory, or if the view fails.
#[inline(always)]
pub(crate) fn show_step<W: Work, C, V: View<C>>(
    core: &mut Core<W>,
    step: Step<W>,
    view: &mut V,
    lent: &mut C,
) -> Result<(), AllocError>
    requires { V.ready view.old lent.old }
    ensures ready { OnOk result (V.ready view.new lent.new) }
    ensures shown { OnOk result (Shows W.meaning V.saw (step ∷ []) core.old core.new
        (view.old, lent.old) (view.new, lent.new)) }
    ensures stopped { OnErr result (Stops W.meaning V.saw V.failed (step ∷ []) core.old core.new
        (view.old, lent.old) (view.new, lent.new)) }
{
    let event = make(core, step)?;
    view.see(lent, seen_by(core, event))
}

/// Makes steps, in order, and shows each to the view. The view has to be ready.
///
/// Refuses if out of memory, or if the view fails. The core has then made the first steps, up to some step. The view saw
/// these, or failed to see the last of these.
pub fn show_steps<W: Work, C, V: View<C>>(
    core: &mut Core<W>,
    steps: Vec<Step<W>>,
    view: &mut V,
    lent: &mut C,
) -> Result<(), AllocError>
    requires { V.ready view.old lent.old }
    ensures shown { OnOk result (Shows W.meaning V.saw steps.items core.old core.new
        (view.old, lent.old) (view.new, lent.new)) }
    ensures stopped { OnErr result (Stops W.meaning V.saw V.failed steps.items core.old core.new
        (view.old, lent.old) (view.new, lent.new)) }
{
    for step in steps {
        show_step(core, step, view, lent)?;
    }
    Ok(())
}
