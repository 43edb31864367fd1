//! The whole report as text.

ghost use Rattle.std.specs.Prelude.{◌≡◌, ◌≤◌, ◌++◌, IfOk, OnOk, length, string_bytes};
ghost use Rattle.cbsrun_text.specs.Columns.{rows_of};
ghost use Rattle.cbsrun_report_text.specs.Texts.{charged_text, summary_text, table_text, charges_text, tables_text, report_text};

use crate::notes::append_notes;
use crate::numbers::Percent;
use crate::report::RunReport;
use crate::tables::{charges_table, early_table, jobs_table, response_table, ticks_table};
use crate::totals::Total;
use crate::verdict::append_verdict;
use cbsrun_sizing::ServerLoad;
use cbsrun_text::{Cell, append_columns};
use std::alloc::{AllocError, Global};
use std::fmt::Write;

/// Appends how many ticks were charged, if any were.
fn append_charged(text: &mut String, charged: u128) -> Result<(), AllocError>
    ensures { OnOk result (string_bytes text.new ≡ string_bytes text.old ++ charged_text charged) }
{
    if charged == 0 {
        return Ok(());
    }
    write!(text, "{charged} charged, ")
}

/// Appends the summary: the file, and how many ticks were run, charged and idle.
#[tactic(auto, unfolding(crate::specs::Texts::summary_text))]
fn append_summary(text: &mut String, report: &RunReport) -> Result<(), AllocError>
    requires { length report.now.servers.items ≤ 64 }
    ensures { OnOk result (string_bytes text.new ≡ string_bytes text.old
        ++ summary_text report.now) }
{
    let file = &report.file;
    let clock = report.clock;
    let idle = report.idle;
    let run = Total::Run.of(&report.servers);
    let got = Percent::new(run, clock);
    write!(text, "{file}, ticks 0 to {clock}: {run} run ({got}), ")?;
    append_charged(text, Total::Charged.of(&report.servers))?;
    writeln!(text, "{idle} idle")
}

/// Appends an empty line and a table.
#[tactic(auto, unfolding(crate::specs::Texts::table_text))]
fn append_table(alloc: Global, text: &mut String, table: &[Vec<Cell>]) -> Result<(), AllocError>
    ensures { OnOk result (string_bytes text.new ≡ string_bytes text.old
        ++ table_text (rows_of table.now)) }
{
    text.push_str("\n")?;
    append_columns(alloc, text, table)
}

/// Appends the table of charges, if any tick was charged.
fn append_charges(alloc: Global, text: &mut String, report: &RunReport) -> Result<(), AllocError>
    requires { length report.now.servers.items ≤ 64 }
    ensures { OnOk result (string_bytes text.new ≡ string_bytes text.old
        ++ charges_text report.now) }
{
    if Total::Charged.of(&report.servers) == 0 {
        return Ok(());
    }
    append_table(alloc, text, &charges_table(alloc, &report.servers)?)
}

/// Appends the tables.
fn append_tables(alloc: Global, text: &mut String, report: &RunReport) -> Result<(), AllocError>
    requires { length report.now.servers.items ≤ 64 }
    ensures { OnOk result (string_bytes text.new ≡ string_bytes text.old
        ++ tables_text report.now) }
{
    append_table(alloc, text, &jobs_table(alloc, report)?)?;
    append_table(alloc, text, &ticks_table(alloc, report)?)?;
    append_table(
        alloc,
        text,
        &response_table(alloc, report.tick, &report.servers)?,
    )?;
    append_table(
        alloc,
        text,
        &early_table(alloc, report.tick, &report.servers)?,
    )?;
    append_charges(alloc, text, report)
}

/// Returns a report as text: a verdict, a summary, tables, and notes on the servers that are not in time.
///
/// `loads` has the figures of each server of a load, as `check` tells them, and is empty for a task file. The note of a
/// server with figures says what would do for it, as `check` says it. The note of another says which budget would cover
/// what the server was asked for. The only error is out of memory.
pub fn report_text(
    alloc: Global,
    report: &RunReport,
    loads: &[ServerLoad],
) -> Result<String, AllocError>
    requires few { length report.now.servers.items ≤ 64 }
    ensures { IfOk result (λ text. string_bytes text ≡ report_text report.now loads.now) }
{
    let mut text = String::new(alloc);
    append_verdict(&mut text, &report.servers)?;
    text.push_str("\n")?;
    append_summary(&mut text, report)?;
    append_tables(alloc, &mut text, report)?;
    append_notes(&mut text, report.tick, report.clock, &report.servers, loads)?;
    Ok(text)
}
