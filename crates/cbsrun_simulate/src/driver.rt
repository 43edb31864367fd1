//! The driver of a simulation: it makes moves, one after another, up to a tick.

ghost use Rattle.std.specs.Prelude.{◌≡◌, ◌-◌, ◌≤◌, drop, min, slice_get, Some, IfOk, OnOk, OnErr};
ghost use Rattle.cbs_core.specs.Agreement.{HasHistory};
ghost use Rattle.cbsrun_simulate.specs.Driving.{Begun, Made, Owes, StopsBy, move_at};
ghost use Rattle.cbsrun_simulate.specs.Loading.{loading, job_of};
ghost use Rattle.cbsrun_simulate.specs.Moves.{submit, charge};
ghost use Rattle.cbsrun_simulate.specs.Releases.{IsInOrder, MakesJob};
ghost use Rattle.cbsrun_simulate.specs.Simulating.{Stops, Simulates, stop_at};

use crate::charge::Charge;
use crate::load_job::LoadJob;
use crate::moves;
use crate::release::Release;
use crate::releases::Releases;
use crate::seen::seen_by;
use cbs_core::Core;
use cbs_rules::LIMIT;
use cbsrun_events::View;
use std::alloc::{AllocError, Allocator};

/// Submits the next release, and shows it to the view.
#[inline(always)]
fn submit_first<A: Allocator, R: Releases, C, V: View<C>>(
    core: &mut Core<LoadJob, A>,
    releases: &mut R,
    release: Release,
    view: &mut V,
    lent: &mut C,
) -> Result<(), AllocError>
    requires next { slice_get (R.coming releases.old) 0 ≡ Some release }
    requires units { MakesJob release }
    requires ready { V.ready view.old lent.old }
    ensures ready { OnOk result (V.ready view.new lent.new) }
    ensures makes { OnOk result (Made V.saw (submit release) core.old core.new
        (view.old, lent.old) (view.new, lent.new)) }
    ensures rest { OnOk result (R.coming releases.new ≡ drop 1 (R.coming releases.old)) }
    ensures stopped { OnErr result (StopsBy V.saw V.failed (submit release) core.old core.new
        (view.old, lent.old) (view.new, lent.new)) }
{
    let event = moves::submit(core, release)?;
    releases.pass();
    view.see(lent, seen_by(core, event))
}

/// Charges what is owed, but no further than to the tick `until`, and shows it to the view.
fn charge_owed<A: Allocator, C, V: View<C>>(
    core: &mut Core<LoadJob, A>,
    owed: Charge,
    until: u64,
    view: &mut V,
    lent: &mut C,
) -> Result<(), AllocError>
    requires early { core.old.clock ≤ until }
    requires ready { V.ready view.old lent.old }
    ensures ready { OnOk result (V.ready view.new lent.new) }
    ensures makes { OnOk result (Made V.saw (charge owed.server (min owed.ticks
        (until - core.old.clock))) core.old core.new (view.old, lent.old) (view.new, lent.new)) }
    ensures stopped { OnErr result (StopsBy V.saw V.failed (charge owed.server (min owed.ticks
        (until - core.old.clock))) core.old core.new (view.old, lent.old) (view.new, lent.new)) }
{
    let left = until - core.now();
    let event = moves::charge(core, owed.server, owed.ticks.min(left));
    view.see(lent, seen_by(core, event))
}

/// Runs a unit if a server is ready; else lets ticks pass, at most up to the tick `stop`. Shows the move to the view.
/// Returns the charge that is then owed, if one is.
#[inline(always)]
fn go_on<A: Allocator, C, V: View<C>>(
    core: &mut Core<LoadJob, A>,
    stop: u64,
    view: &mut V,
    lent: &mut C,
) -> Result<Option<Charge>, AllocError>
    requires early { core.old.clock ≤ stop }
    requires ready { V.ready view.old lent.old }
    ensures ready { OnOk result (V.ready view.new lent.new) }
    ensures makes { OnOk result (Made V.saw (move_at stop core.old) core.old core.new
        (view.old, lent.old) (view.new, lent.new)) }
    ensures owes { IfOk result (Owes (move_at stop core.old) core.old) }
    ensures stopped { OnErr result (StopsBy V.saw V.failed (move_at stop core.old) core.old
        core.new (view.old, lent.old) (view.new, lent.new)) }
{
    // Each kind of move is shown on a path of its own, so that the view need not test which it is.
    match moves::span_if_idle(core) {
        None => {
            let (event, owing) = moves::run(core);
            view.see(lent, seen_by(core, event))?;
            Ok(owing)
        }
        Some(span) => {
            let left = stop - core.now();
            let event = moves::pass(core, span.min(left));
            view.see(lent, seen_by(core, event))?;
            Ok(None)
        }
    }
}

/// Returns the tick up to which no release comes: the tick of the next release, but no later than `until`.
fn stop_of<R: Releases>(releases: &R, until: u64) -> u64
    ensures { result ≡ stop_at until (R.coming releases.now) }
{
    match releases.next_tick() {
        Some(tick) => tick.min(until),
        None => until,
    }
}

/// Simulates a load up to the tick `until`, and shows each move to the view. At each moment it first charges what
/// the last unit took beyond its first tick, and then submits every release that has come. After these it runs a unit
/// if some server is ready. If none is, it lets ticks pass, up to the next release or until a server may be ready.
///
/// The clock must not be later than `until` or than the first release. `until` must be at most [`LIMIT`], and the
/// view has to be ready.
///
/// Refuses if out of memory, or if the view fails. The core has then made the first moves, up to some move, and no
/// others. The view has seen these moves, but it may have failed to see the last one.
pub fn simulate<A: Allocator, R: Releases, C, V: View<C>>(
    core: &mut Core<LoadJob, A>,
    releases: &mut R,
    until: u64,
    view: &mut V,
    lent: &mut C,
) -> Result<(), AllocError>
    requires end { until ≤ LIMIT }
    requires early { core.old.clock ≤ until }
    requires order { IsInOrder core.old.clock (R.coming releases.old) }
    requires history { HasHistory loading core.old }
    requires ready { V.ready view.old lent.old }
    ensures simulates { OnOk result (Begun core.old (R.coming releases.old) (λ sim.
        Simulates loading job_of until V.saw sim core.new (view.old, lent.old)
        (view.new, lent.new))) }
    ensures stopped { OnErr result (Begun core.old (R.coming releases.old) (λ sim.
        Stops loading job_of until V.saw V.failed sim core.new (view.old, lent.old)
        (view.new, lent.new))) }
{
    let mut owing = None;
    // No release comes before this tick. It is kept, so that the releases are not asked while units run.
    let mut stop = stop_of(releases, until);
    loop {
        match owing {
            None => {
                if core.now() < stop {
                    owing = go_on(core, stop, view, lent)?;
                    continue;
                }
            }
            Some(owed) => {
                if core.now() < until {
                    charge_owed(core, owed, until, view, lent)?;
                    owing = None;
                    continue;
                }
            }
        }
        match releases.first() {
            Some(release) if release.tick < until => {
                submit_first(core, releases, release, view, lent)?;
                stop = stop_of(releases, until);
            }
            _ => return Ok(()),
        }
    }
}
