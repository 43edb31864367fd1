//! The sign of a column, for what a server does in it, and the mark above it.

ghost use Rattle.std.specs.Prelude.{◌≡◌, ◌+◌, ◌<◌, ◌≤◌};
ghost use Rattle.std.specs.List.{find, list_any};
ghost use Rattle.cbsrun_window.specs.Stretches.{takes};
ghost use Rattle.cbsrun_timeline.specs.Signs.{column_mark, column_sign, count_mark, count_sign, is_among, is_used_up, kind_sign, letter_of, mark_of, run_sign, stretch_sign, tick_mark, tick_sign};

use crate::grid::Grid;
use cbsrun_chart::{Corner, Counts, Kind, ServerChart, Stretch};

/// Nothing.
pub(crate) const BLANK: char = ' ';
/// The server has a job, and another runs.
pub(crate) const WAITS: char = '.';
/// The server has a job, and is throttled.
pub(crate) const THROTTLED: char = '/';
/// The server is charged for its last unit.
pub(crate) const CHARGED: char = '$';
/// The server runs in all ticks of a column.
pub(crate) const ALL: char = '#';
/// The server runs in fewer than a tenth of the ticks of a column.
pub(crate) const FEWER: char = '+';
/// A job comes.
pub(crate) const COMES: char = '^';
/// A deadline of the server.
pub(crate) const DEADLINE: char = 'v';
/// A job comes at a deadline.
pub(crate) const BOTH: char = '*';
/// A release is refused.
pub(crate) const REFUSED: char = 'x';
/// A job is late.
pub(crate) const LATE: char = '!';
/// The mark of each tenth column of a block.
pub(crate) const TEN: char = '|';
/// The mark of each fifth column of a block.
pub(crate) const FIVE: char = '\'';

/// Returns whether a stretch takes a tick.
fn takes(tick: u64, stretch: &Stretch) -> bool
    ensures { result ≡ takes tick stretch.now }
{
    stretch.from <= tick && tick < stretch.to
}

/// Returns whether a unit that ends at a tick used up the budget.
fn is_used_up(tick: u64, corners: &[Corner]) -> bool
    ensures { result ≡ is_used_up tick corners.now }
{
    corners
        .iter()
        .any(|corner| corner.tick == tick && corner.budget == 0)
}

/// Returns the letter of a job: a capital if its unit used up the budget.
fn letter_of(job: u64, used_up: bool) -> char
    ensures value { result ≡ letter_of job used_up }
    ensures ascii { result < 128 }
{
    let place = (job % 26) as u8;
    let first = if used_up { b'A' } else { b'a' };
    (first + place) as char
}

/// Returns the sign of a tick in a stretch of this kind.
fn kind_sign(kind: Kind, used_up: bool) -> char
    ensures value { result ≡ kind_sign kind used_up }
    ensures ascii { result < 128 }
{
    match kind {
        Kind::Runs(job) => letter_of(job, used_up),
        Kind::Charged => CHARGED,
        Kind::Throttled => THROTTLED,
        Kind::Waits => WAITS,
        Kind::Resting | Kind::Refused | Kind::Late | Kind::Idle => BLANK,
    }
}

/// Returns the stretch that takes a tick, if there is one.
fn stretch_at(tick: u64, stretches: &[Stretch]) -> Option<Stretch>
    ensures { result ≡ find (takes tick) stretches.now }
{
    stretches
        .iter()
        .copied()
        .find(|stretch| takes(tick, stretch))
}

/// Returns the sign of a tick that this stretch takes, or a blank if none takes it.
fn stretch_sign(stretch: Option<Stretch>, used_up: bool) -> char
    ensures value { result ≡ stretch_sign stretch used_up }
    ensures ascii { result < 128 }
{
    match stretch {
        Some(stretch) => kind_sign(stretch.kind, used_up),
        None => BLANK,
    }
}

/// Returns the sign of what a server does in a tick.
fn tick_sign(chart: &ServerChart, tick: u64) -> char
    ensures value { result ≡ tick_sign chart.now tick }
    ensures ascii { result < 128 }
{
    let used_up = is_used_up(tick.saturating_add(1), &chart.corners);
    stretch_sign(stretch_at(tick, &chart.spans), used_up)
}

/// Returns the mark of a tick, by whether a job comes at it and whether it is a deadline of the server.
fn mark_of(comes: bool, deadline: bool) -> char
    ensures value { result ≡ mark_of comes deadline }
    ensures ascii { result < 128 }
{
    match (comes, deadline) {
        (true, true) => BOTH,
        (true, false) => COMES,
        (false, true) => DEADLINE,
        (false, false) => BLANK,
    }
}

/// Returns whether a tick is among these ticks.
fn is_among(tick: u64, ticks: &[u64]) -> bool
    ensures { result ≡ is_among tick ticks.now }
{
    ticks.iter().any(|one| *one == tick)
}

/// Returns whether one of the stretches takes a tick.
fn is_taken(tick: u64, stretches: &[Stretch]) -> bool
    ensures { result ≡ list_any (takes tick) stretches.now }
{
    stretches.iter().any(|stretch| takes(tick, stretch))
}

/// Returns the mark above a tick.
fn tick_mark(chart: &ServerChart, tick: u64) -> char
    ensures value { result ≡ tick_mark chart.now tick }
    ensures ascii { result < 128 }
{
    if is_taken(tick, &chart.refused) {
        return REFUSED;
    }
    mark_of(
        is_among(tick, &chart.arrivals),
        is_among(tick, &chart.deadlines),
    )
}

/// Returns the sign of a column with this many ticks, of which the server ran in `runs`.
fn run_sign(runs: u64, ticks: u64) -> char
    requires { ticks ≤ 20000 }
    ensures value { result ≡ run_sign runs ticks }
    ensures ascii { result < 128 }
{
    if runs >= ticks {
        return ALL;
    }
    if runs * 10 < ticks {
        return FEWER;
    }
    let tenths = runs * 10 / ticks;
    (b'0' + tenths as u8) as char
}

/// Returns the sign of a column with this many ticks, by their counts.
fn count_sign(ticks: u64, counts: &Counts) -> char
    requires { ticks ≤ 20000 }
    ensures value { result ≡ count_sign ticks counts.now }
    ensures ascii { result < 128 }
{
    if counts.runs > 0 {
        return run_sign(counts.runs, ticks);
    }
    if counts.throttled > 0 {
        return THROTTLED;
    }
    if counts.waits > 0 {
        return WAITS;
    }
    BLANK
}

/// Returns the mark above a column, by how many of its ticks have a refused release, have a late job, and are charged.
fn count_mark(refused: u64, late: u64, charged: u64) -> char
    ensures value { result ≡ count_mark refused late charged }
    ensures ascii { result < 128 }
{
    if refused > 0 {
        return REFUSED;
    }
    if late > 0 {
        return LATE;
    }
    if charged > 0 {
        return CHARGED;
    }
    BLANK
}

/// Returns the sign of what a server does in a column.
pub(crate) fn column_sign(grid: &Grid, chart: &ServerChart, column: u64) -> char
    requires { column < 200000 }
    ensures value { result ≡ column_sign grid.now chart.now column }
    ensures ascii { result < 128 }
{
    let from = grid.tick(column);
    if grid.is_fine() {
        return tick_sign(chart, from);
    }
    let to = grid.end(column);
    count_sign(to.saturating_sub(from), &Counts::of(&chart.spans, from, to))
}

/// Returns the mark above a column.
pub(crate) fn column_mark(grid: &Grid, chart: &ServerChart, column: u64) -> char
    requires { column < 200000 }
    ensures value { result ≡ column_mark grid.now chart.now column }
    ensures ascii { result < 128 }
{
    let from = grid.tick(column);
    if grid.is_fine() {
        return tick_mark(chart, from);
    }
    let to = grid.end(column);
    count_mark(
        Counts::of(&chart.refused, from, to).refused,
        Counts::of(&chart.late, from, to).late,
        Counts::of(&chart.spans, from, to).charged,
    )
}
