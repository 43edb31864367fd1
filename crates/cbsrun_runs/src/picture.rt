//! The picture of a run.

ghost use Rattle.std.specs.Prelude.{◌≡◌, ◌≤◌, ◌<◌, IfOk, OnOk, Some, length, slice_get, string_bytes};
ghost use Rattle.std.specs.Bool.{OnTrue};
ghost use Rattle.cbsrun_chart.specs.Charts.{IsChart};
ghost use Rattle.cbsrun_runs.specs.Runs.{AreInOrder, IsChartPicture, IsPictureOf, SameServers};

use crate::progress::{Progress, Telling};
use crate::run::Run;
use cbsrun_chart::{Chart, ChartView, Drawn, Picture, ServerChart, Window};
use std::alloc::{AllocError, Global};

/// Returns what a window shows of a run, whose steps it makes. The only error is out of memory.
fn chart_of<R: Run, P: Progress>(
    alloc: Global,
    run: &mut R,
    window: Window,
    progress: &mut P,
) -> Result<Chart, AllocError>
    ensures window { IfOk result (λ chart. chart.window ≡ window) }
    ensures end { IfOk result (λ chart. chart.end ≡ (R.run run.old).end) }
    ensures chart { IfOk result (IsChart (R.run run.old).plan.rates (R.run run.old).end
        (R.run run.old).seen) }
    ensures in_order { OnOk result (AreInOrder (R.run run.old)) }
    ensures servers { OnOk result (SameServers (R.run run.old) (R.run run.new)) }
    ensures leaves { OnTrue R.repeats (run.new ≡ run.old) }
{
    let view = ChartView::new(alloc, window, run.plan())?;
    let mut telling = Telling::new(view, run.until());
    let shown = run.show(alloc, &mut telling, progress);
    progress.end();
    let end = shown?;
    telling.view.into_chart(alloc, end)
}

/// Returns a server of a run, with what a chart shows of it. The only error is out of memory.
fn drawn<R: Run>(
    alloc: Global,
    run: &R,
    server: u16,
    chart: ServerChart,
) -> Result<Drawn, AllocError>
    requires { server < length (R.run run.now).plan.rates }
    ensures name { IfOk result (λ d. Some (string_bytes d.name)
        ≡ slice_get (R.run run.now).names server) }
    ensures mode { IfOk result (λ d. Some d.mode ≡ slice_get (R.run run.now).modes server) }
    ensures reservation { IfOk result (λ d. Some d.reservation
        ≡ slice_get (R.run run.now).plan.rates server) }
    ensures chart { IfOk result (λ d. d.chart ≡ chart) }
{
    Ok(Drawn {
        name: run.name(alloc, server)?,
        mode: run.modes().get(server).unwrap(),
        reservation: run.plan().get(server).unwrap(),
        chart,
    })
}

/// Returns the picture of a chart of a run. The picture names the file `file`. The only error is out of memory.
fn picture_of_chart<R: Run>(
    alloc: Global,
    file: &str,
    run: &R,
    chart: Chart,
) -> Result<Picture, AllocError>
    requires { length chart.servers.items ≡ length (R.run run.now).plan.rates }
    ensures picture { IfOk result (IsChartPicture file.now (R.run run.now) chart) }
    ensures few { IfOk result (λ p. length p.servers.items ≤ 64) }
{
    let Chart {
        window,
        end,
        idle,
        servers: charts,
    } = chart;
    // Reading the modes gives the proof that each server has a name, and a mode.
    let _modes = run.modes();
    let mut servers = Vec::with_capacity(alloc, run.plan().len())?;
    for chart in charts {
        let server = servers.len() as u16;
        servers.push(drawn(alloc, run, server, chart)?)?;
    }
    Ok(Picture {
        file: String::from_str(alloc, file)?,
        reserved: run.plan().bandwidth(),
        window,
        end,
        tick: run.tick(),
        idle,
        servers,
        others: 0,
    })
}

/// Returns the picture of a window of a run, whose steps it makes. The picture names the file `file`. Reports to
/// `progress` now and then how far the run is, if its end is known. A load is unchanged. The only error is out of
/// memory.
///
/// Ticks outside of the window take no memory. [`shown_of`](crate::shown_of) returns a window that ends with the run.
pub fn picture_of<R: Run, P: Progress>(
    alloc: Global,
    file: &str,
    run: &mut R,
    window: Window,
    progress: &mut P,
) -> Result<Picture, AllocError>
    ensures picture { IfOk result (IsPictureOf file.now (R.run run.old) window) }
    ensures few { IfOk result (λ p. length p.servers.items ≤ 64) }
    ensures leaves { OnTrue R.repeats (run.new ≡ run.old) }
{
    let chart = chart_of(alloc, run, window, progress)?;
    picture_of_chart(alloc, file, run, chart)
}
