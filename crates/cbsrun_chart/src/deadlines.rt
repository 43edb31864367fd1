//! The deadlines that a server gets.

ghost use Rattle.std.specs.Prelude.{◌≡◌, ◌++◌, ◌∷◌, ◌≤◌, OnOk};
ghost use Rattle.cbsrun_chart.specs.Marks.{deadline_at, deadlines_after, deadlines_until, is_renewed, renewed_deadline, with_deadline};

use crate::waits::Last;
use cbs_rate::Reservation;
use cbsrun_events::Seen;
use cbsrun_window::Window;
use std::alloc::AllocError;

impl Last {
    /// Returns whether the server, which makes no step until the tick `to`, is replenished at or before that tick.
    pub fn is_renewed(&self, to: u64) -> bool
        ensures { result ≡ is_renewed self.now to }
    {
        self.view.throttled && self.view.deadline <= u128::from(to)
    }
}

/// Returns the deadline of a server after its replenishment.
fn renewed_deadline(reservation: Reservation, last: &Last) -> u128
    requires { last.now.view.deadline ≤ 18446744073709551615 }
    ensures { result ≡ renewed_deadline reservation last.now }
{
    last.view.deadline + u128::from(reservation.period())
}

/// Returns the deadline of a server at the tick `to`, before a step of its own.
fn deadline_at(reservation: Reservation, last: Option<Last>, to: u64) -> u128
    ensures { result ≡ deadline_at reservation last to }
{
    let Some(last) = last else {
        return 0;
    };
    if last.is_renewed(to) {
        return renewed_deadline(reservation, &last);
    }
    last.view.deadline
}

/// Adds a deadline if the window shows it.
fn add_deadline(window: Window, deadline: u128, deadlines: &mut Vec<u64>) -> Result<(), AllocError>
    ensures { OnOk result (deadlines.new.items
        ≡ with_deadline window deadline deadlines.old.items) }
{
    if u128::from(window.from) <= deadline && deadline <= u128::from(window.to) {
        deadlines.push(deadline as u64)?;
    }
    Ok(())
}

/// Adds the deadline that a server gets by a replenishment at or before the tick `to`, if it has one since its last
/// step.
pub(crate) fn add_renewed(
    window: Window,
    reservation: Reservation,
    last: Option<Last>,
    to: u64,
    deadlines: &mut Vec<u64>,
) -> Result<(), AllocError>
    ensures { OnOk result (deadlines.new.items
        ≡ deadlines_until window reservation last to deadlines.old.items) }
{
    let Some(last) = last else {
        return Ok(());
    };
    if last.is_renewed(to) {
        add_deadline(window, renewed_deadline(reservation, &last), deadlines)?;
    }
    Ok(())
}

/// Adds the deadlines that a server gets before a step of its own, and by that step.
#[inline]
pub(crate) fn add_deadlines(
    window: Window,
    reservation: Reservation,
    last: Option<Last>,
    seen: &Seen,
    deadlines: &mut Vec<u64>,
) -> Result<(), AllocError>
    ensures { OnOk result (deadlines.new.items
        ≡ deadlines_after window reservation last seen.now deadlines.old.items) }
{
    let begun = seen.begun();
    add_renewed(window, reservation, last, begun, deadlines)?;
    let Some(view) = seen.view else {
        return Ok(());
    };
    if seen.clock > window.to || view.deadline == deadline_at(reservation, last, begun) {
        return Ok(());
    }
    add_deadline(window, view.deadline, deadlines)
}
