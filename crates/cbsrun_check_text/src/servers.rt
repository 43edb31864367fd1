//! The table of the servers.

ghost use Rattle.std.specs.Prelude.{◌≡◌, ◌<◌, ◌++◌, length, map, IfOk, OnOk, string_bytes};
ghost use Rattle.cbsrun_text.specs.Columns.{columns_text, rows_of};
ghost use Rattle.cbsrun_check_text.specs.Tables.{server_row, row_at, servers_heading, total_row, servers_table};

use crate::cells::Shown;
use crate::fractions::Share;
use cbs_rate::{Plan, Reservation};
use cbs_rules::{Mode, Modes};
use cbsrun_text::{Cell, append_columns, cells, mode_word};
use std::alloc::{AllocError, Global};

/// Returns the heading of the table.
fn heading(alloc: Global) -> Result<Vec<Cell>, AllocError>
    ensures { IfOk result (λ row. row.items ≡ servers_heading) }
{
    cells(
        alloc,
        &[
            "SERVER",
            "mode",
            "budget",
            "period",
            "share",
            "",
            "greatest budget",
        ],
    )
}

/// Returns the row of a server.
fn server_row(
    alloc: Global,
    tick: Option<u64>,
    name: &str,
    mode: Mode,
    rate: Reservation,
    greatest: u64,
) -> Result<Vec<Cell>, AllocError>
    ensures { IfOk result (λ row. row.items ≡ server_row tick name.now mode rate greatest) }
{
    let share = Share::new(rate.budget(), rate.period());
    cells(
        alloc,
        &[
            Shown::Word(name),
            Shown::Word(mode_word(mode)),
            Shown::Time(tick, rate.budget()),
            Shown::Time(tick, rate.period()),
            Shown::Fraction(share),
            Shown::Percent(share),
            Shown::Time(tick, greatest),
        ],
    )
}

/// Returns the row for all servers together.
fn total_row(alloc: Global, plan: &Plan) -> Result<Vec<Cell>, AllocError>
    ensures { IfOk result (λ row. row.items ≡ total_row plan.now.rates) }
{
    let reserved = plan.bandwidth();
    let share = Share::new(reserved.ticks, reserved.of);
    cells(
        alloc,
        &[
            Shown::Word("all"),
            Shown::Word(""),
            Shown::Word(""),
            Shown::Word(""),
            Shown::Fraction(share),
            Shown::Percent(share),
        ],
    )
}

/// Returns the row of the server with this number.
fn row_at(
    alloc: Global,
    tick: Option<u64>,
    names: &[String],
    modes: &Modes,
    plan: &Plan,
    budgets: &[u64],
    server: u16,
) -> Result<Vec<Cell>, AllocError>
    requires named { length names.now ≡ length plan.now.rates }
    requires moded { length modes.now ≡ length plan.now.rates }
    requires counted { length budgets.now ≡ length plan.now.rates }
    requires held { server < length plan.now.rates }
    ensures { IfOk result (λ row. row.items ≡ row_at tick (map string_bytes names.now) modes.now
        plan.now.rates budgets.now server) }
{
    let name = names[usize::from(server)].as_str();
    let mode = modes.get(server).unwrap();
    let rate = plan.get(server).unwrap();
    server_row(alloc, tick, name, mode, rate, budgets[usize::from(server)])
}

/// Returns the rows of the table.
#[tactic(auto, unfolding(crate::specs::Tables::servers_table))]
fn rows(
    alloc: Global,
    tick: Option<u64>,
    names: &[String],
    modes: &Modes,
    plan: &Plan,
    budgets: &[u64],
) -> Result<Vec<Vec<Cell>>, AllocError>
    requires named { length names.now ≡ length plan.now.rates }
    requires moded { length modes.now ≡ length plan.now.rates }
    requires counted { length budgets.now ≡ length plan.now.rates }
    ensures { IfOk result (λ rows. rows_of rows.items
        ≡ servers_table tick (map string_bytes names.now) modes.now plan.now.rates budgets.now) }
{
    let servers = plan.len() as u16;
    let mut rows = Vec::with_capacity(alloc, usize::from(servers) + 2)?;
    rows.push(heading(alloc)?)?;
    for server in 0..servers {
        rows.push(row_at(alloc, tick, names, modes, plan, budgets, server)?)?;
    }
    rows.push(total_row(alloc, plan)?)?;
    Ok(rows)
}

/// Appends the table of the servers of a plan, with these names, modes and greatest budgets. Times are in milliseconds, if
/// the nanoseconds of a tick are known. The only error is out of memory.
pub(crate) fn append_servers(
    alloc: Global,
    text: &mut String,
    tick: Option<u64>,
    names: &[String],
    modes: &Modes,
    plan: &Plan,
    budgets: &[u64],
) -> Result<(), AllocError>
    requires named { length names.now ≡ length plan.now.rates }
    requires moded { length modes.now ≡ length plan.now.rates }
    requires counted { length budgets.now ≡ length plan.now.rates }
    ensures { OnOk result (string_bytes text.new ≡ string_bytes text.old
        ++ columns_text (servers_table tick (map string_bytes names.now) modes.now plan.now.rates
        budgets.now)) }
{
    let rows = rows(alloc, tick, names, modes, plan, budgets)?;
    append_columns(alloc, text, &rows)
}
