//! The course of a server's budget.

ghost use Rattle.std.specs.Prelude.{◌≡◌, OnOk};
ghost use Rattle.cbsrun_chart.specs.Courses.{budget_at, course_after, course_until, fallen, no_course, spent, with_corner};

use crate::waits::Last;
use cbs_rate::Reservation;
use cbsrun_events::{Event, Seen};
use cbsrun_window::Window;
use std::alloc::{AllocError, Global};
use std::marker::Model;

/// A tick, and the budget of a server at that tick.
#[derive(Clone, Copy)]
pub struct Corner {
    /// The tick.
    pub tick: u64,
    /// The budget.
    pub budget: u64,
}

/// The budget of a server in a window: straight lines from corner to corner.
#[derive(Drop)]
pub(crate) struct Course {
    /// The budget at the first tick of the window.
    opening: u64,
    /// The corners after that tick.
    corners: Vec<Corner>,
}

impl Model for Course {
    ghost use Rattle.cbsrun_chart.specs.Courses.{CourseSeen};

    ghost Value = { CourseSeen };

    ghost view = { λ c. record { opening = c.opening; corners = c.corners.items } };
}

/// Returns the budget of a server at the tick `to`, before a step of its own.
fn budget_at(reservation: Reservation, last: Option<Last>, to: u64) -> u64
    ensures { result ≡ budget_at reservation last to }
{
    let Some(last) = last else {
        return 0;
    };
    if last.is_renewed(to) {
        return reservation.budget();
    }
    last.view.budget
}

/// Returns what a step leaves of a budget, before the budget is renewed.
fn spent(event: &Event, budget: u64) -> u64
    ensures { result ≡ spent event.now budget }
{
    match event {
        Event::Ran(_) => budget.saturating_sub(event.ticks()),
        _ => budget,
    }
}

impl Course {
    /// Returns the course of a server before its first step.
    pub fn new(alloc: Global) -> Course
        ensures { result ≡ no_course }
    {
        Course {
            opening: 0,
            corners: Vec::new(alloc),
        }
    }

    /// Adds a corner if the window shows it. A corner at or before the window's first tick becomes the opening budget
    /// instead.
    fn add_corner(&mut self, window: Window, tick: u64, budget: u64) -> Result<(), AllocError>
        ensures { OnOk result (self.new ≡ with_corner window tick budget self.old) }
    {
        if tick <= window.from {
            self.opening = budget;
        } else if tick <= window.to {
            self.corners.push(Corner { tick, budget })?;
        }
        Ok(())
    }

    /// Adds the corners of a step: with the budget at its beginning, what it leaves of that budget, and the budget
    /// after it.
    fn add_fall(
        &mut self,
        window: Window,
        seen: &Seen,
        before: u64,
        after: u64,
    ) -> Result<(), AllocError>
        ensures { OnOk result (self.new ≡ fallen window seen.now before after self.old) }
    {
        let left = spent(&seen.event, before);
        if left == before && after == before {
            return Ok(());
        }
        self.add_corner(window, seen.begun(), before)?;
        self.add_corner(window, seen.clock, left)?;
        self.add_corner(window, seen.clock, after)
    }

    /// Adds the corners of a replenishment at or before the tick `to`, if the server has one since its last step.
    pub fn add_renewed(
        &mut self,
        window: Window,
        reservation: Reservation,
        last: Option<Last>,
        to: u64,
    ) -> Result<(), AllocError>
        ensures { OnOk result (self.new ≡ course_until window reservation last to self.old) }
    {
        let Some(last) = last else {
            return Ok(());
        };
        if last.is_renewed(to) {
            let tick = last.view.deadline as u64;
            self.add_corner(window, tick, last.view.budget)?;
            self.add_corner(window, tick, reservation.budget())?;
        }
        Ok(())
    }

    /// Adds a step of the server. Refuses if out of memory.
    #[inline]
    pub fn add(
        &mut self,
        window: Window,
        reservation: Reservation,
        last: Option<Last>,
        seen: &Seen,
    ) -> Result<(), AllocError>
        ensures { OnOk result (self.new ≡ course_after window reservation last seen.now self.old) }
    {
        let begun = seen.begun();
        self.add_renewed(window, reservation, last, begun)?;
        let Some(view) = seen.view else {
            return Ok(());
        };
        self.add_fall(
            window,
            seen,
            budget_at(reservation, last, begun),
            view.budget,
        )
    }

    /// Returns the budget at the first tick of the window, and the corners after it.
    pub fn into_parts(self) -> (u64, Vec<Corner>)
        ensures opening { result.0 ≡ self.opening }
        ensures corners { result.1.items ≡ self.corners }
    {
        let Course { opening, corners } = self;
        (opening, corners)
    }
}
