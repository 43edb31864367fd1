//! The table of the servers.

ghost use Rattle.std.specs.Prelude.{◌≡◌, ◌<◌, IfOk, length, map, string_bytes};
ghost use Rattle.cbsrun_text.specs.Columns.{plain, rows_of};
ghost use Rattle.cbsrun_sweep_texts.specs.Tables.{cell_of, response_cell, row_at, seed_cell, server_row, sweep_heading, sweep_table};

use crate::cells::Shown;
use cbsrun_sweeps::{ServerSweep, Worst};
use cbsrun_text::{Cell, cells};
use std::alloc::{AllocError, Global};

/// Returns what a cell shows of the worst response: it, or `-` if there is none.
fn response_shown(tick: Option<u64>, worst: Option<Worst>) -> Shown<'static>
    ensures { cell_of result ≡ response_cell tick worst }
{
    match worst {
        Some(worst) => Shown::Time(tick, worst.response),
        None => Shown::Word("-"),
    }
}

/// Returns what a cell shows of the seed of the worst response: it, or `-` if there is none.
fn seed_shown(worst: Option<Worst>) -> Shown<'static>
    ensures { cell_of result ≡ seed_cell worst }
{
    match worst {
        Some(worst) => Shown::Number(worst.seed),
        None => Shown::Word("-"),
    }
}

/// Returns the heading of the table. The only error is out of memory.
fn heading(alloc: Global) -> Result<Vec<Cell>, AllocError>
    ensures { IfOk result (λ row. row.items ≡ sweep_heading) }
{
    cells(
        alloc,
        &[
            "RUNS",
            "late in",
            "late jobs",
            "refused in",
            "refused jobs",
            "greatest response",
            "of seed",
        ],
    )
}

/// Returns the row of a server. The only error is out of memory.
fn server_row(
    alloc: Global,
    tick: Option<u64>,
    name: &str,
    sweep: ServerSweep,
) -> Result<Vec<Cell>, AllocError>
    ensures { IfOk result (λ row. row.items ≡ server_row tick name.now sweep) }
{
    cells(
        alloc,
        &[
            Shown::Word(name),
            Shown::Bad(sweep.late_in),
            Shown::Number(sweep.late),
            Shown::Bad(sweep.refused_in),
            Shown::Number(sweep.refused),
            response_shown(tick, sweep.worst),
            seed_shown(sweep.worst),
        ],
    )
}

/// Returns the row of the server with this number. The only error is out of memory.
fn row_at(
    alloc: Global,
    tick: Option<u64>,
    names: &[String],
    sweeps: &[ServerSweep],
    server: usize,
) -> Result<Vec<Cell>, AllocError>
    requires named { server < length names.now }
    requires counted { server < length sweeps.now }
    ensures { IfOk result (λ row. row.items
        ≡ row_at tick (map string_bytes names.now) sweeps.now server) }
{
    server_row(alloc, tick, names[server].as_str(), sweeps[server])
}

/// Returns the rows of the table. The only error is out of memory.
pub(crate) fn rows(
    alloc: Global,
    tick: Option<u64>,
    names: &[String],
    sweeps: &[ServerSweep],
) -> Result<Vec<Vec<Cell>>, AllocError>
    requires { length names.now ≡ length sweeps.now }
    ensures { IfOk result (λ rows. rows_of rows.items
        ≡ sweep_table tick (map string_bytes names.now) sweeps.now) }
{
    let mut rows = Vec::new(alloc);
    rows.push(heading(alloc)?)?;
    for server in 0..sweeps.len() {
        rows.push(row_at(alloc, tick, names, sweeps, server)?)?;
    }
    Ok(rows)
}
