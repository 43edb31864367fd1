//! A picture that is made by hand.

use cbs_rate::{Bandwidth, Reservation};
use cbs_rules::Mode;
use cbsrun_chart::{ChartJob, Corner, Drawn, Kind, Picture, ServerChart, Stretch, Window};
use std::alloc::{AllocError, Global};
use std::process::Abort;

/// Returns what a throttled server does in 20 ticks: it runs, is throttled and charged, refuses a release, and is late.
fn chart(alloc: Global) -> Result<ServerChart, AllocError> {
    let stretch = |kind, from, to| Stretch { kind, from, to };
    let job = ChartJob {
        number: 0,
        came: 1,
        units: 2,
        within: Some(8),
        promised: None,
        finish: Some(12),
    };
    Ok(ServerChart {
        spans: vec![in alloc;
            stretch(Kind::Runs(0), 2, 3),
            stretch(Kind::Throttled, 3, 11),
            stretch(Kind::Runs(0), 11, 12),
            stretch(Kind::Charged, 12, 14),
        ]?,
        refused: vec![in alloc; stretch(Kind::Refused, 4, 6)]?,
        refusals: 3,
        late: vec![in alloc; stretch(Kind::Late, 9, 12)]?,
        jobs: vec![in alloc; job]?,
        arrivals: vec![in alloc; 1]?,
        completions: vec![in alloc; 12]?,
        deadlines: vec![in alloc; 11]?,
        opening: 1,
        corners: vec![in alloc;
            Corner { tick: 2, budget: 1 },
            Corner { tick: 3, budget: 0 },
            Corner {
                tick: 11,
                budget: 1
            },
        ]?,
    })
}

/// Returns the picture of that server, with this name, in a window.
fn picture(
    alloc: Global,
    name: &str,
    window: Window,
    reservation: Reservation,
) -> Result<Picture, AllocError> {
    let drawn = Drawn {
        name: String::from_str(alloc, name)?,
        mode: Mode::Throttled,
        reservation,
        chart: chart(alloc)?,
    };
    let mut servers = Vec::new(alloc);
    servers.push(drawn)?;
    Ok(Picture {
        file: String::from_str(alloc, "HAND.toml")?,
        reserved: Bandwidth { ticks: 1, of: 10 },
        window,
        end: 20,
        tick: None,
        idle: Vec::new(alloc),
        servers,
        others: 0,
    })
}

/// Returns the picture of a server with this name, for the ticks from `from` up to `to`.
pub(crate) fn by_hand(rt: &impl Abort, alloc: Global, name: &str, from: u64, to: u64) -> Picture {
    let window = Window::new(from, to).ok().expect(rt, "a window");
    let reservation = Reservation::new(1, 10).ok().expect(rt, "a reservation");
    picture(alloc, name, window, reservation)
        .ok()
        .expect(rt, "memory")
}
