//! What a window shows of a run.

ghost use Rattle.std.specs.Prelude.{◌≡◌, IfOk};
ghost use Rattle.cbsrun_chart.specs.Charts.{IsRowChart, LateCovered};

use crate::course::Corner;
use crate::jobs::{ChartJob, completions_of};
use crate::row::Row;
use cbsrun_window::{Stretch, Stretches, Window};
use std::alloc::{AllocError, Global};

/// What a window shows of one server.
#[derive(Drop)]
pub struct ServerChart {
    /// The stretches of what the server does, in order. In all other ticks it has no job and is not throttled.
    pub spans: Vec<Stretch>,
    /// The ticks in which releases are refused.
    pub refused: Vec<Stretch>,
    /// How many releases are refused.
    pub refusals: u64,
    /// The ticks in which a job is late.
    pub late: Vec<Stretch>,
    /// The jobs that are unfinished in some tick of the window. First come those that are finished by the end of the
    /// run, then the others.
    pub jobs: Vec<ChartJob>,
    /// The ticks at which accepted jobs come.
    pub arrivals: Vec<u64>,
    /// The ticks at which jobs end, each after its last unit and all that is charged for that unit.
    pub completions: Vec<u64>,
    /// The deadlines that the server gets.
    pub deadlines: Vec<u64>,
    /// The budget at the first tick of the window.
    pub opening: u64,
    /// The budget after that: straight lines from corner to corner.
    pub corners: Vec<Corner>,
}

/// What a window shows of a run.
#[derive(Drop)]
pub struct Chart {
    /// The window.
    pub window: Window,
    /// The clock at the end of the run.
    pub end: u64,
    /// The ticks in which nobody runs.
    pub idle: Vec<Stretch>,
    /// The servers, by number.
    pub servers: Vec<ServerChart>,
}

/// Returns the ticks of a window in which jobs are late, in a run that ends at the tick `end`. The only error is out of
/// memory.
fn late_of(
    alloc: Global,
    window: Window,
    end: u64,
    jobs: &[ChartJob],
) -> Result<Vec<Stretch>, AllocError>
    ensures { IfOk result (λ late. LateCovered window end jobs.now late.items) }
{
    let mut stretches = Vec::with_capacity(alloc, jobs.len())?;
    for job in jobs {
        stretches.push(job.late(end))?;
    }
    stretches.sort_by_key(|stretch| stretch.from)?;
    let mut late = Stretches::new(alloc);
    for stretch in &stretches {
        late.add(window, *stretch)?;
    }
    late.into_all()
}

impl Row {
    /// Returns what a window shows of the server, in a run that ends at the tick `end`. The only error is out of
    /// memory.
    pub fn into_chart(
        mut self,
        alloc: Global,
        window: Window,
        end: u64,
    ) -> Result<ServerChart, AllocError>
        ensures { IfOk result (λ chart. IsRowChart window end self chart) }
    {
        self.add_end(window, end)?;
        let Row {
            reservation: _,
            last: _,
            spans,
            refused,
            refusals,
            arrivals,
            jobs,
            deadlines,
            course,
        } = self;
        let jobs = jobs.into_all(window)?;
        let late = late_of(alloc, window, end, &jobs)?;
        let completions = completions_of(alloc, window, &jobs)?;
        let (opening, corners) = course.into_parts();
        Ok(ServerChart {
            spans: spans.into_all()?,
            refused: refused.into_all()?,
            refusals,
            late,
            jobs,
            arrivals,
            completions,
            deadlines,
            opening,
            corners,
        })
    }
}
