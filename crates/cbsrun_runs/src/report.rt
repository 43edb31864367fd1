//! The report of a run.

ghost use Rattle.std.specs.Prelude.{◌≡◌, ◌≤◌, ◌<◌, IfOk, OnOk, length, map, slice_get, string_bytes, Some};
ghost use Rattle.std.specs.Bool.{OnTrue};
ghost use Rattle.cbsrun_figures.specs.Figures.{told, total, AreAllFigures};
ghost use Rattle.cbsrun_figures.specs.Tallies.{ticks_idle};
ghost use Rattle.cbsrun_runs.specs.Runs.{IsReportOf, SameServers};

use crate::progress::{Progress, Telling};
use crate::run::Run;
use cbsrun_figures::{Figures, Report};
use cbsrun_report_text::{RunReport, ServerReport};
use std::alloc::{AllocError, Global};

/// The outcome of a run: the figures of the servers, in how many ticks nobody ran, and the tick at which it ended.
#[derive(Drop)]
struct Outcome {
    figures: Vec<Figures>,
    idle: u64,
    end: u64,
}

/// Returns the outcome of a run, whose steps it makes. The only error is out of memory.
fn outcome_of<R: Run, P: Progress>(
    alloc: Global,
    run: &mut R,
    progress: &mut P,
) -> Result<Outcome, AllocError>
    ensures figures { IfOk result (λ o. AreAllFigures (map (λ rate.
        rate.budget) (R.run run.old).plan.rates) (R.run run.old).end
        (R.run run.old).seen o.figures.items) }
    ensures idle { IfOk result (λ o. o.idle ≡ told (total (λ o.
        ticks_idle o.event) (R.run run.old).seen)) }
    ensures end { IfOk result (λ o. o.end ≡ (R.run run.old).end) }
    ensures lawful { OnOk result (R.lawful run.old) }
    ensures servers { OnOk result (SameServers (R.run run.old) (R.run run.new)) }
    ensures leaves { OnTrue R.repeats (run.new ≡ run.old) }
{
    let report = Report::new(alloc, run.plan())?;
    let mut telling = Telling::new(report, run.until());
    let shown = run.show(alloc, &mut telling, progress);
    progress.end();
    let end = shown?;
    let idle = telling.view.idle();
    let figures = telling.view.figures(alloc, end)?;
    Ok(Outcome { figures, idle, end })
}

/// Returns the report of one server of a run, with these figures. The only error is out of memory.
fn server_report<R: Run>(
    alloc: Global,
    run: &R,
    server: u16,
    figures: Figures,
) -> Result<ServerReport, AllocError>
    requires { server < length (R.run run.now).plan.rates }
    ensures name { IfOk result (λ r. Some (string_bytes r.name)
        ≡ slice_get (R.run run.now).names server) }
    ensures mode { IfOk result (λ r. Some r.mode ≡ slice_get (R.run run.now).modes server) }
    ensures reservation { IfOk result (λ r. Some r.reservation
        ≡ slice_get (R.run run.now).plan.rates server) }
    ensures within { IfOk result (λ r. r.within ≡ (R.run run.now).within server) }
    ensures figures { IfOk result (λ r. r.figures ≡ figures) }
{
    Ok(ServerReport {
        name: run.name(alloc, server)?,
        mode: run.modes().get(server).unwrap(),
        reservation: run.plan().get(server).unwrap(),
        within: run.within(server),
        figures,
    })
}

/// Returns the report of a run, whose steps it makes. The report names the file `file`. Reports to `progress` now and
/// then how far the run is, if its end is known. A load is unchanged. The only error is out of memory.
pub fn report_of<R: Run, P: Progress>(
    alloc: Global,
    file: &str,
    run: &mut R,
    progress: &mut P,
) -> Result<RunReport, AllocError>
    ensures report { IfOk result (IsReportOf file.now (R.run run.old)) }
    ensures lawful { OnOk result (R.lawful run.old) }
    ensures few { IfOk result (λ r. length r.servers.items ≤ 64) }
    ensures leaves { OnTrue R.repeats (run.new ≡ run.old) }
{
    let outcome = outcome_of(alloc, run, progress)?;
    let mut servers = Vec::with_capacity(alloc, outcome.figures.len())?;
    for server in 0..run.plan().len() as u16 {
        let figures = outcome.figures[usize::from(server)];
        servers.push(server_report(alloc, run, server, figures)?)?;
    }
    Ok(RunReport {
        file: String::from_str(alloc, file)?,
        tick: run.tick(),
        seed: run.seed(),
        clock: outcome.end,
        idle: outcome.idle,
        backlog: run.backlog(),
        bound: run.plan().bound(),
        reserved: run.plan().bandwidth(),
        servers,
    })
}
