//! The table of the sources.

ghost use Rattle.std.specs.Prelude.{◌≡◌, ◌++◌, ◌<◌, ◌≤◌, length, IfOk, OnOk, string_bytes};
ghost use Rattle.cbsrun_simulate.specs.Released.{distance};
ghost use Rattle.cbsrun_text.specs.Columns.{plain, rows_of};
ghost use Rattle.cbsrun_sizing.specs.Asked.{most_ticks};
ghost use Rattle.cbsrun_check_text.specs.Cells.{cell_of};
ghost use Rattle.cbsrun_check_text.specs.Tables.{asks_cell, jittered_text, optional_text, range_text, every_text, in_time_text, greatest_job, is_asking_too_much, source_row, row_of, sources_heading, sources_table, sources_text};

use crate::cells::Shown;
use crate::fractions::Share;
use cbs_guarantee::NotPromised;
use cbs_rate::Reservation;
use cbsrun_loads::Load;
use cbsrun_simulate::{Range, SourceTerms};
use cbsrun_sizing::{ServerLoad, is_within};
use cbsrun_text::{Cell, append_columns, cells};
use std::alloc::{AllocError, Global};

/// Returns what a cell shows of a range of ticks. A range of one number is shown as that number.
fn range_shown(tick: Option<u64>, range: Range) -> Shown<'static>
    ensures { cell_of result ≡ plain (range_text tick range) }
{
    let least = range.least();
    let greatest = range.greatest();
    if least == greatest {
        return Shown::Time(tick, least);
    }
    Shown::Range(tick, least, greatest)
}

/// Returns what a cell shows of the ticks from one job of a source to the next: with its jitter, if it has one.
fn jittered_shown(tick: Option<u64>, terms: &SourceTerms) -> Shown<'static>
    ensures { cell_of result ≡ plain (jittered_text tick terms.now) }
{
    if terms.jitter == 0 {
        return range_shown(tick, terms.every);
    }
    let every = terms.every;
    Shown::Jittered(tick, every.least(), every.greatest(), terms.jitter)
}

/// Returns the same, or `-` if the source releases one job at most.
fn every_shown(tick: Option<u64>, terms: &SourceTerms) -> Shown<'static>
    ensures { cell_of result ≡ plain (every_text tick terms.now) }
{
    if terms.is_single() {
        return Shown::Word("-");
    }
    jittered_shown(tick, terms)
}

/// Returns what a cell shows of a number of ticks: it, or `-` if there is no number.
fn ticks_shown(tick: Option<u64>, ticks: Option<u64>) -> Shown<'static>
    ensures { cell_of result ≡ plain (optional_text tick ticks) }
{
    match ticks {
        Some(ticks) => Shown::Time(tick, ticks),
        None => Shown::Word("-"),
    }
}

/// Returns what a cell shows of whether each job is promised to be finished within the wanted ticks.
fn promise_shown(
    tick: Option<u64>,
    promised: Result<u64, NotPromised>,
    within: Option<u64>,
) -> Shown<'static>
    ensures { cell_of result ≡ plain (in_time_text tick promised within) }
{
    match promised {
        Ok(time) if is_within(time, within) => Shown::InTime(tick, time),
        Ok(time) => Shown::TooLate(tick, time),
        Err(_) => Shown::Word("not promised"),
    }
}

/// Returns the most ticks of a job of a source: its units, and what they may overrun.
fn greatest_job(terms: &SourceTerms) -> u64
    requires { greatest_job terms.now ≤ most_ticks }
    ensures { result ≡ greatest_job terms.now }
{
    let ticks = 1 + u128::from(terms.overrun.greatest());
    (u128::from(terms.units.greatest()) * ticks) as u64
}

/// Returns whether a source may ask for more than the share of its server.
fn is_asking_too_much(rate: Reservation, terms: &SourceTerms) -> bool
    requires { greatest_job terms.now ≤ most_ticks }
    ensures { result ≡ is_asking_too_much rate terms.now }
{
    u128::from(rate.budget()) * u128::from(terms.distance())
        < u128::from(greatest_job(terms)) * u128::from(rate.period())
}

/// Returns what a cell shows of what a source may ask for, of a server with this reservation.
fn asks_shown(tick: Option<u64>, rate: Reservation, terms: &SourceTerms) -> Shown<'static>
    requires apart { 0 < distance terms.now }
    requires short { greatest_job terms.now ≤ most_ticks }
    ensures { cell_of result ≡ asks_cell tick rate terms.now }
{
    if terms.is_single() {
        return Shown::Once(tick, greatest_job(terms));
    }
    let asked = Share::new(greatest_job(terms), terms.distance());
    Shown::MarkedFraction(asked, is_asking_too_much(rate, terms))
}

/// Returns the heading of the table.
fn heading(alloc: Global) -> Result<Vec<Cell>, AllocError>
    ensures { IfOk result (λ row. row.items ≡ sources_heading) }
{
    cells(
        alloc,
        &[
            "SOURCE OF",
            "units",
            "every",
            "asks",
            "share",
            "within",
            "in time always",
        ],
    )
}

/// Returns the row of a source, with the name and the reservation of its server, and the ticks that are promised.
fn source_row(
    alloc: Global,
    tick: Option<u64>,
    name: &str,
    rate: Reservation,
    promised: Result<u64, NotPromised>,
    terms: &SourceTerms,
) -> Result<Vec<Cell>, AllocError>
    requires apart { 0 < distance terms.now }
    requires short { greatest_job terms.now ≤ most_ticks }
    ensures { IfOk result (λ row. row.items ≡ source_row tick name.now rate promised terms.now) }
{
    let reserved = Share::new(rate.budget(), rate.period());
    cells(
        alloc,
        &[
            Shown::Word(name),
            range_shown(tick, terms.units),
            every_shown(tick, terms),
            asks_shown(tick, rate, terms),
            Shown::Fraction(reserved),
            ticks_shown(tick, terms.within),
            promise_shown(tick, promised, terms.within),
        ],
    )
}

/// Returns the row of a source of a load.
fn row_of(
    alloc: Global,
    load: &Load,
    loads: &[ServerLoad],
    terms: &SourceTerms,
) -> Result<Vec<Cell>, AllocError>
    requires counted { length loads.now ≡ length load.now.plan.rates }
    requires held { terms.now.server < length load.now.plan.rates }
    requires apart { 0 < distance terms.now }
    requires short { greatest_job terms.now ≤ most_ticks }
    ensures { IfOk result (λ row. row.items ≡ row_of load.now.tick load.now.names load.now.plan.rates loads.now
        terms.now) }
{
    let server = usize::from(terms.server);
    let name = load.names()[server].as_str();
    let rate = load.plan().get(terms.server).unwrap();
    source_row(
        alloc,
        load.tick(),
        name,
        rate,
        loads[server].promised,
        terms,
    )
}

/// Returns the rows of the table.
fn rows(alloc: Global, load: &Load, loads: &[ServerLoad]) -> Result<Vec<Vec<Cell>>, AllocError>
    requires { length loads.now ≡ length load.now.plan.rates }
    ensures { IfOk result (λ rows. rows_of rows.items
        ≡ sources_table load.now.tick load.now.names load.now.plan.rates loads.now load.now.sources) }
{
    let mut rows = Vec::new(alloc);
    rows.push(heading(alloc)?)?;
    for terms in load.sources() {
        rows.push(row_of(alloc, load, loads, terms)?)?;
    }
    Ok(rows)
}

/// Appends an empty line and the table of the sources of a load, if it has sources. `loads` has the figures of the
/// sources by server. The only error is out of memory.
pub(crate) fn append_sources(
    alloc: Global,
    text: &mut String,
    load: &Load,
    loads: &[ServerLoad],
) -> Result<(), AllocError>
    requires { length loads.now ≡ length load.now.plan.rates }
    ensures { OnOk result (string_bytes text.new ≡ string_bytes text.old
        ++ sources_text load.now.tick load.now.names load.now.plan.rates loads.now load.now.sources) }
{
    if load.sources().is_empty() {
        return Ok(());
    }
    let rows = rows(alloc, load, loads)?;
    text.push_str("\n")?;
    append_columns(alloc, text, &rows)
}
