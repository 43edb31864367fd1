//! Pictures of loads.

use cbsrun_chart::{Chart, ChartView, Drawn, Picture, Window};
use cbsrun_loads::{Load, read_load};
use cbsrun_runs::show_load;
use std::alloc::Global;
use std::process::Abort;

/// Returns what a window shows of a load.
fn chart_of(rt: &impl Abort, alloc: Global, load: &Load, from: u64, to: u64) -> Chart {
    let window = Window::new(from, to).ok().expect(rt, "a window");
    let mut view = ChartView::new(alloc, window, load.plan())
        .ok()
        .expect(rt, "memory");
    show_load(alloc, load, load.seed(), &mut view, &mut ())
        .ok()
        .expect(rt, "memory");
    view.into_chart(alloc, load.until())
        .ok()
        .expect(rt, "memory")
}

/// Returns the picture of a load for the ticks from `from` up to `to`.
pub(crate) fn picture_of(
    rt: &impl Abort,
    alloc: Global,
    file: &str,
    text: &str,
    from: u64,
    to: u64,
) -> Picture {
    let load = read_load(alloc, text.as_bytes()).ok().expect(rt, "a load");
    let chart = chart_of(rt, alloc, &load, from, to);
    let mut servers = Vec::new(alloc);
    let mut number = 0u16;
    for chart in chart.servers {
        let name = load.names().get(usize::from(number)).expect(rt, "a name");
        let drawn = Drawn {
            name: name.clone().ok().expect(rt, "memory"),
            mode: load.modes().get(number).expect(rt, "a mode"),
            reservation: load.plan().get(number).expect(rt, "a reservation"),
            chart,
        };
        servers.push(drawn).ok().expect(rt, "memory");
        number = number.saturating_add(1);
    }
    Picture {
        file: String::from_str(alloc, file).ok().expect(rt, "memory"),
        reserved: load.plan().bandwidth(),
        window: chart.window,
        end: chart.end,
        tick: None,
        idle: chart.idle,
        servers,
        others: 0,
    }
}
