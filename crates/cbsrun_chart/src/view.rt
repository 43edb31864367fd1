//! The collector of a chart: a view of steps.

ghost use Rattle.std.specs.Prelude.{◌≡◌, ◌∷◌, List, IfOk, OnOk};
ghost use Rattle.cbs_rate.specs.Rate.{Rate};
ghost use Rattle.cbsrun_events.specs.declared.seen.Seen.{Seen};
ghost use Rattle.cbsrun_chart.specs.Charts.{IsChart, Kept, kept_seen, kept_with, new_kept};

use crate::chart::Chart;
use crate::row::Row;
use crate::steps::stretch_of;
use cbs_rate::Plan;
use cbsrun_events::{Seen, View};
use cbsrun_window::{Stretch, Stretches, Window};
use std::alloc::{AllocError, Global};
use std::marker::Model;

/// What a window shows of the servers of a plan, collected from the steps that it sees.
///
/// It keeps what the window shows, and a job for each unfinished one.
#[derive(Drop)]
pub struct ChartView {
    window: Window,
    rows: Vec<Row>,
    idle: Stretches,
}

impl Model for ChartView {
    ghost use Rattle.cbsrun_chart.specs.Charts.{Kept};

    ghost Value = { Kept };

    ghost view = { λ c. record { window = c.window; rows = c.rows.items; idle = c.idle } };
}

impl ChartView {
    /// Returns the view of the servers of a plan, before the first step. The only error is out of memory.
    pub fn new(alloc: Global, window: Window, plan: &Plan) -> Result<ChartView, AllocError>
        ensures { IfOk result (λ view. view ≡ new_kept window plan.now.rates) }
    {
        let mut rows = Vec::with_capacity(alloc, plan.len())?;
        for server in 0..plan.len() as u16 {
            let reservation = plan.get(server).unwrap();
            rows.push(Row::new(alloc, reservation))?;
        }
        Ok(ChartView {
            window,
            rows,
            idle: Stretches::new(alloc),
        })
    }

    /// Adds a step of the server with this number, or of no server. Refuses if out of memory.
    #[inline]
    fn add(&mut self, server: Option<u16>, seen: &Seen) -> Result<(), AllocError>
        ensures { OnOk result (self.new ≡ kept_with server seen.now self.old) }
    {
        let Some(server) = server else {
            return self.idle.add(self.window, stretch_of(seen));
        };
        let index = usize::from(server);
        if index < self.rows.len() {
            self.rows[index].add(self.window, seen)?;
        }
        Ok(())
    }

    /// Returns what the window shows of a run that ends at the tick `end`. The only error is out of memory.
    pub fn into_chart(self, alloc: Global, end: u64) -> Result<Chart, AllocError>
        ensures window { IfOk result (λ chart. chart.window ≡ self.window) }
        ensures end { IfOk result (λ chart. chart.end ≡ end) }
        ensures chart { IfOk result (λ chart. (rates : List Rate) (seen : List Seen)
            → self ≡ kept_seen (new_kept self.window rates) seen
            → IsChart rates end seen chart) }
    {
        let window = self.window;
        let idle = self.idle.into_all()?;
        let mut servers = Vec::with_capacity(alloc, self.rows.len())?;
        for row in self.rows {
            servers.push(row.into_chart(alloc, window, end)?)?;
        }
        Ok(Chart {
            window,
            end,
            idle,
            servers,
        })
    }
}

impl View<()> for ChartView {
    ghost use Rattle.cbsrun_chart.specs.Charts.{kept_seen};

    ghost saw = { λ first now seen. now.0 ≡ kept_seen first.0 seen };

    #[inline]
    fn see(&mut self, _lent: &mut (), seen: Seen) -> Result<(), AllocError> {
        self.add(seen.event.server(), &seen)
    }
}
