//! The tables of a report.

ghost use Rattle.std.specs.Prelude.{◌≡◌, ◌≤◌, ◌++◌, IfOk, OnOk, length};
ghost use Rattle.cbsrun_text.specs.Columns.{plain, rows_of};
ghost use Rattle.cbsrun_report_text.specs.Cells.{cell_of};
ghost use Rattle.cbsrun_report_text.specs.Tables.{late_cell, jobs_row, jobs_total, jobs_table, ticks_row, ticks_total, ticks_table, within_text, rank_cells, response_row, response_table, early_text, early_row, early_table, charges_row, charges_total, charges_table};

use crate::cells::Shown;
use crate::numbers::{Mean, Percent};
use crate::report::{RunReport, ServerReport};
use crate::totals::Total;
use cbsrun_text::{Cell, add_cells, cells};
use std::alloc::{AllocError, Global};

/// Returns what a cell shows of the late jobs of a server: their number, or `-` if no time is wanted.
fn late_shown(server: &ServerReport) -> Shown<'static>
    ensures { cell_of result ≡ late_cell server.now.figures server.now.within }
{
    match &server.within {
        Some(_) => {
            let late = server.late();
            Shown::Marked(late, late > 0)
        }
        None => Shown::Word("-"),
    }
}

/// Returns the row of a server in the table of jobs.
fn jobs_row(alloc: Global, backlog: u64, server: &ServerReport) -> Result<Vec<Cell>, AllocError>
    ensures { IfOk result (λ row. row.items ≡ jobs_row backlog server.now) }
{
    let figures = &server.figures;
    let refused = u128::from(figures.refused);
    cells(
        alloc,
        &[
            Shown::Word(&server.name),
            Shown::Sum(server.released()),
            Shown::Marked(refused, refused > 0),
            Shown::Number(figures.finished),
            Shown::Number(figures.unfinished),
            late_shown(server),
            Shown::Pair(figures.greatest_backlog, " of ", backlog),
        ],
    )
}

/// Returns the last row of the table of jobs.
fn jobs_total(alloc: Global, servers: &[ServerReport]) -> Result<Vec<Cell>, AllocError>
    requires { length servers.now ≤ 64 }
    ensures { IfOk result (λ row. row.items ≡ jobs_total servers.now) }
{
    cells(
        alloc,
        &[
            Shown::Word("all"),
            Shown::Sum(Total::Released.of(servers)),
            Shown::Sum(Total::Refused.of(servers)),
            Shown::Sum(Total::Finished.of(servers)),
            Shown::Sum(Total::Unfinished.of(servers)),
            Shown::Sum(Total::Late.of(servers)),
        ],
    )
}

/// Returns the table of jobs: how many jobs of each server came, were refused, are finished, and are late.
#[tactic(auto, unfolding(crate::specs::Tables::jobs_table))]
pub(crate) fn jobs_table(alloc: Global, report: &RunReport) -> Result<Vec<Vec<Cell>>, AllocError>
    requires { length report.now.servers.items ≤ 64 }
    ensures { IfOk result (λ table. rows_of table.items ≡ jobs_table report.now) }
{
    let heading = cells(
        alloc,
        &[
            "JOBS",
            "released",
            "refused",
            "finished",
            "unfinished",
            "late",
            "backlog",
        ],
    )?;
    let mut table = vec![in alloc; heading]?;
    for server in &report.servers {
        table.push(jobs_row(alloc, report.backlog, server)?)?;
    }
    table.push(jobs_total(alloc, &report.servers)?)?;
    Ok(table)
}

/// Returns the row of a server in the table of ticks.
fn ticks_row(
    alloc: Global,
    tick: Option<u64>,
    clock: u64,
    server: &ServerReport,
) -> Result<Vec<Cell>, AllocError>
    ensures { IfOk result (λ row. row.items ≡ ticks_row tick clock server.now) }
{
    let figures = &server.figures;
    let budget = server.reservation.budget();
    let period = server.reservation.period();
    let asked = Percent::new(u128::from(figures.asked), clock);
    cells(
        alloc,
        &[
            Shown::Word(&server.name),
            Shown::Reserved(tick, budget, period),
            Shown::Percent(Percent::new(u128::from(budget), period)),
            Shown::MarkedPercent(asked, server.is_asked_too_much(clock)),
            Shown::Percent(Percent::new(u128::from(figures.run), clock)),
            Shown::Number(figures.run),
            Shown::Number(figures.used_up),
            Shown::Number(figures.throttled),
        ],
    )
}

/// Returns the last row of the table of ticks.
fn ticks_total(alloc: Global, report: &RunReport) -> Result<Vec<Cell>, AllocError>
    requires { length report.now.servers.items ≤ 64 }
    ensures { IfOk result (λ row. row.items ≡ ticks_total report.now) }
{
    let reserved = Percent::new(u128::from(report.reserved.ticks), report.reserved.of);
    let servers = &report.servers;
    let run = Total::Run.of(servers);
    let asked = Percent::new(Total::Asked.of(servers), report.clock);
    cells(
        alloc,
        &[
            Shown::Word("all"),
            Shown::Word(""),
            Shown::Percent(reserved),
            Shown::Percent(asked),
            Shown::Percent(Percent::new(run, report.clock)),
            Shown::Sum(run),
            Shown::Sum(Total::UsedUp.of(servers)),
            Shown::Sum(Total::Throttled.of(servers)),
        ],
    )
}

/// Returns the table of ticks: what each server has, was asked for, and ran.
#[tactic(auto, unfolding(crate::specs::Tables::ticks_table))]
pub(crate) fn ticks_table(alloc: Global, report: &RunReport) -> Result<Vec<Vec<Cell>>, AllocError>
    requires { length report.now.servers.items ≤ 64 }
    ensures { IfOk result (λ table. rows_of table.items ≡ ticks_table report.now) }
{
    let heading = cells(
        alloc,
        &[
            "TICKS",
            "budget",
            "reserved",
            "asked",
            "got",
            "run",
            "used up",
            "throttled",
        ],
    )?;
    let mut table = vec![in alloc; heading]?;
    for server in &report.servers {
        table.push(ticks_row(alloc, report.tick, report.clock, server)?)?;
    }
    table.push(ticks_total(alloc, report)?)?;
    Ok(table)
}

/// Returns what a cell shows of the ticks within which the jobs are wanted: them, or `-` if there are none.
fn within_shown(tick: Option<u64>, server: &ServerReport) -> Shown<'static>
    ensures { cell_of result ≡ plain (within_text tick server.now.within) }
{
    let Some(within) = &server.within else {
        return Shown::Word("-");
    };
    let least = within.least();
    let greatest = within.greatest();
    if least == greatest {
        return Shown::Time(tick, least);
    }
    Shown::TimeRange(tick, least, greatest)
}

/// Adds the cells of a server's response times.
fn add_ranks(
    alloc: Global,
    tick: Option<u64>,
    row: &mut Vec<Cell>,
    server: &ServerReport,
) -> Result<(), AllocError>
    ensures { OnOk result (row.new.items ≡ row.old.items
        ++ rank_cells tick server.now.figures server.now.figures.responses) }
{
    let figures = &server.figures;
    let Some(ranks) = figures.responses else {
        return add_cells(alloc, row, &[Shown::Word("-"); 6]);
    };
    let mean = Mean {
        total: figures.response_total,
        count: figures.finished,
    };
    add_cells(
        alloc,
        row,
        &[
            Shown::Time(tick, ranks.least),
            Shown::Mean(tick, mean),
            Shown::Time(tick, ranks.median),
            Shown::Time(tick, ranks.p95),
            Shown::Time(tick, ranks.p99),
            Shown::MarkedTime(tick, ranks.greatest, server.late() > 0),
        ],
    )
}

/// Returns the row of a server in the table of response times.
fn response_row(
    alloc: Global,
    tick: Option<u64>,
    server: &ServerReport,
) -> Result<Vec<Cell>, AllocError>
    ensures { IfOk result (λ row. row.items ≡ response_row tick server.now) }
{
    let mut row = cells(alloc, &[Shown::Word(&server.name)])?;
    add_ranks(alloc, tick, &mut row, server)?;
    add_cells(alloc, &mut row, &[within_shown(tick, server)])?;
    Ok(row)
}

/// Returns the table of response times: how long each server's jobs took.
#[tactic(auto, unfolding(crate::specs::Tables::response_table))]
pub(crate) fn response_table(
    alloc: Global,
    tick: Option<u64>,
    servers: &[ServerReport],
) -> Result<Vec<Vec<Cell>>, AllocError>
    ensures { IfOk result (λ table. rows_of table.items ≡ response_table tick servers.now) }
{
    let heading = cells(
        alloc,
        &[
            "RESPONSE", "least", "mean", "median", "95 %", "99 %", "greatest", "within",
        ],
    )?;
    let mut table = vec![in alloc; heading]?;
    for server in servers {
        table.push(response_row(alloc, tick, server)?)?;
    }
    Ok(table)
}

/// Returns what a cell shows of a great number of ticks: it, or `-` if there is none.
fn early_shown(tick: Option<u64>, ticks: Option<u128>) -> Shown<'static>
    ensures { cell_of result ≡ plain (early_text tick ticks) }
{
    match ticks {
        Some(ticks) => Shown::GreatTime(tick, ticks),
        None => Shown::Word("-"),
    }
}

/// Returns the row of a server in the table of how early its jobs were finished.
fn early_row(
    alloc: Global,
    tick: Option<u64>,
    server: &ServerReport,
) -> Result<Vec<Cell>, AllocError>
    ensures { IfOk result (λ row. row.items ≡ early_row tick server.now) }
{
    let mean = Mean {
        total: server.figures.early_total,
        count: server.figures.early_count,
    };
    cells(
        alloc,
        &[
            Shown::Word(&server.name),
            early_shown(tick, server.figures.early_least),
            Shown::Mean(tick, mean),
        ],
    )
}

/// Returns the table of how many ticks earlier than promised jobs were finished.
#[tactic(auto, unfolding(crate::specs::Tables::early_table))]
pub(crate) fn early_table(
    alloc: Global,
    tick: Option<u64>,
    servers: &[ServerReport],
) -> Result<Vec<Vec<Cell>>, AllocError>
    ensures { IfOk result (λ table. rows_of table.items ≡ early_table tick servers.now) }
{
    let heading = cells(alloc, &["EARLY", "least", "mean"])?;
    let mut table = vec![in alloc; heading]?;
    for server in servers {
        table.push(early_row(alloc, tick, server)?)?;
    }
    Ok(table)
}

/// Returns the row of a server in the table of charges.
fn charges_row(alloc: Global, server: &ServerReport) -> Result<Vec<Cell>, AllocError>
    ensures { IfOk result (λ row. row.items ≡ charges_row server.now) }
{
    cells(
        alloc,
        &[
            Shown::Word(&server.name),
            Shown::Number(server.figures.charged),
            Shown::Number(server.figures.greatest_charge),
        ],
    )
}

/// Returns the last row of the table of charges.
fn charges_total(alloc: Global, servers: &[ServerReport]) -> Result<Vec<Cell>, AllocError>
    requires { length servers.now ≤ 64 }
    ensures { IfOk result (λ row. row.items ≡ charges_total servers.now) }
{
    let charged = Total::Charged.of(servers);
    cells(alloc, &[Shown::Word("all"), Shown::Sum(charged)])
}

/// Returns the table of charges: what each server was charged.
#[tactic(auto, unfolding(crate::specs::Tables::charges_table))]
pub(crate) fn charges_table(
    alloc: Global,
    servers: &[ServerReport],
) -> Result<Vec<Vec<Cell>>, AllocError>
    requires { length servers.now ≤ 64 }
    ensures { IfOk result (λ table. rows_of table.items ≡ charges_table servers.now) }
{
    let heading = cells(alloc, &["CHARGES", "ticks", "greatest"])?;
    let mut table = vec![in alloc; heading]?;
    for server in servers {
        table.push(charges_row(alloc, server)?)?;
    }
    table.push(charges_total(alloc, servers)?)?;
    Ok(table)
}
