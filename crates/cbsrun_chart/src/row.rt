//! What is collected of one server.

ghost use Rattle.std.specs.Prelude.{◌≡◌, OnOk};
ghost use Rattle.cbsrun_chart.specs.Charts.{row_after, row_until, new_row};
ghost use Rattle.cbsrun_chart.specs.Rows.{refused_after, spans_until};

use crate::course::Course;
use crate::deadlines::{add_deadlines, add_renewed};
use crate::jobs::Jobs;
use crate::marks::{add_arrival, refusals_after};
use crate::steps::{came_of, stretch_of};
use crate::waits::Last;
use cbs_rate::Reservation;
use cbsrun_events::{Event, Seen};
use cbsrun_window::{Kind, Stretch, Stretches, Window};
use std::alloc::{AllocError, Global};
use std::marker::Model;

/// What is collected of one server.
#[derive(Drop)]
pub(crate) struct Row {
    pub(crate) reservation: Reservation,
    pub(crate) last: Option<Last>,
    pub(crate) spans: Stretches,
    pub(crate) refused: Stretches,
    pub(crate) refusals: u64,
    pub(crate) arrivals: Vec<u64>,
    pub(crate) jobs: Jobs,
    pub(crate) deadlines: Vec<u64>,
    pub(crate) course: Course,
}

impl Model for Row {
    ghost use Rattle.cbsrun_chart.specs.Charts.{RowSeen};

    ghost Value = { RowSeen };

    ghost view = { λ r. record {
      reservation = r.reservation;
      last = r.last;
      spans = r.spans;
      refused = r.refused;
      refusals = r.refusals;
      arrivals = r.arrivals.items;
      jobs = r.jobs;
      deadlines = r.deadlines.items;
      course = r.course;
    } };
}

/// Adds the stretches from a server's last step up to its next one, at the tick `to`. The job that the next one accepts,
/// if it accepts one, came at `came`.
#[inline]
fn add_spans(
    window: Window,
    last: Option<Last>,
    came: Option<u64>,
    to: u64,
    spans: &mut Stretches,
) -> Result<(), AllocError>
    ensures { OnOk result (spans.new ≡ spans_until window last came to spans.old) }
{
    let Some(last) = last else {
        return Ok(());
    };
    spans.add(window, last.resting(came, to))?;
    spans.add(window, last.throttled(came, to))?;
    spans.add(window, last.waiting(came, to))
}

/// Adds the tick of a refused release, if the step is a refusal.
#[inline]
fn add_refused(window: Window, event: &Event, refused: &mut Stretches) -> Result<(), AllocError>
    ensures { OnOk result (refused.new ≡ refused_after window event.now refused.old) }
{
    if let Event::NotAccepted { job, .. } = event {
        let tick = Stretch {
            kind: Kind::Refused,
            from: job.came,
            to: job.came.saturating_add(1),
        };
        refused.add(window, tick)?;
    }
    Ok(())
}

impl Row {
    /// Returns what is collected of a server before its first step: nothing.
    pub fn new(alloc: Global, reservation: Reservation) -> Row
        ensures { result ≡ new_row reservation }
    {
        Row {
            reservation,
            last: Some(Last::at_start()),
            spans: Stretches::new(alloc),
            refused: Stretches::new(alloc),
            refusals: 0,
            arrivals: Vec::new(alloc),
            jobs: Jobs::new(alloc),
            deadlines: Vec::new(alloc),
            course: Course::new(alloc),
        }
    }

    /// Adds a step of the server. Refuses if out of memory.
    #[inline]
    pub fn add(&mut self, window: Window, seen: &Seen) -> Result<(), AllocError>
        ensures { OnOk result (self.new ≡ row_after window seen.now self.old) }
    {
        let last = self.last;
        let came = came_of(&seen.event);
        add_spans(window, last, came, seen.begun(), &mut self.spans)?;
        self.spans.add(window, stretch_of(seen))?;
        add_refused(window, &seen.event, &mut self.refused)?;
        self.refusals = refusals_after(window, &seen.event, self.refusals);
        add_arrival(window, &seen.event, &mut self.arrivals)?;
        self.jobs.add(window, seen.clock, seen.event)?;
        add_deadlines(window, self.reservation, last, seen, &mut self.deadlines)?;
        self.course.add(window, self.reservation, last, seen)?;
        self.last = Last::of(seen.clock, seen.view);
        Ok(())
    }

    /// Adds what goes on after the last step of the server, up to the tick `to`. Refuses if out of memory.
    pub fn add_end(&mut self, window: Window, to: u64) -> Result<(), AllocError>
        ensures { OnOk result (self.new ≡ row_until window to self.old) }
    {
        let last = self.last;
        add_spans(window, last, None, to, &mut self.spans)?;
        add_renewed(window, self.reservation, last, to, &mut self.deadlines)?;
        self.course.add_renewed(window, self.reservation, last, to)
    }
}
