//! The words of a picture that stand around its rows.

ghost use Rattle.std.specs.Prelude.{◌≡◌, ◌+◌, ◌≤◌, ◌++◌, IfOk, OnOk, count_by, string_bytes};
ghost use Rattle.cbsrun_svg.specs.Heads.{all_charged, all_units, came_text, charges_text, column_text, figures_text, heading_text, hidden_part, is_late, left_out_part, sentence_text, servers_text, summary_text, tenths_of, times_part, was_charged_text, who_text};

use crate::row::{charged_of, terms_text, units_of};
use cbs_rate::Bandwidth;
use cbsrun_chart::{ChartJob, Counts, Drawn, Hidden, LeftOut, Picture, Window};
use cbsrun_figures::exceeds;
use cbsrun_svg_shapes::append_from_to;
use cbsrun_text::mode_word;
use cbsrun_time_texts::append_ticks;
use std::alloc::{AllocError, Global};
use std::fmt::Write;

/// Appends the ticks that are shown in milliseconds, too, if the nanoseconds of a tick are known.
fn append_times(
    text: &mut String,
    nanoseconds: Option<u64>,
    window: Window,
) -> Result<(), AllocError>
    ensures { OnOk result (string_bytes text.new ≡ string_bytes text.old
        ++ times_part nanoseconds window) }
{
    if nanoseconds.is_none() {
        return Ok(());
    }
    text.push_str(", ")?;
    append_from_to(text, nanoseconds, window.from, window.to)
}

/// Returns the heading: the name of a file, and the ticks that are shown.
#[tactic(auto, unfolding(crate::specs::Heads::heading_text))]
pub(crate) fn heading_text(
    alloc: Global,
    nanoseconds: Option<u64>,
    file: &str,
    window: Window,
) -> Result<String, AllocError>
    ensures { IfOk result (λ text. string_bytes text ≡ heading_text nanoseconds file.now window) }
{
    let mut text = String::from_str(alloc, file)?;
    text.push_str(", ")?;
    append_from_to(&mut text, None, window.from, window.to)?;
    append_times(&mut text, nanoseconds, window)?;
    Ok(text)
}

/// Appends how many servers there are.
fn append_servers(text: &mut String, count: usize) -> Result<(), AllocError>
    ensures { OnOk result (string_bytes text.new ≡ string_bytes text.old ++ servers_text count) }
{
    if count == 1 {
        return text.push_str("1 server");
    }
    write!(text, "{count} servers")
}

/// Returns the reserved share of the time in tenths of a per cent, rounded, a half upward.
fn tenths_of(reserved: Bandwidth) -> u128
    ensures { result ≡ tenths_of reserved }
{
    let ticks = u128::from(reserved.ticks);
    let of = u128::from(reserved.of);
    (2000 * ticks + of) / (2 * of).max(1)
}

/// Returns how many units of all servers ran in a window.
fn all_units(window: Window, servers: &[Drawn]) -> u64
    ensures { result ≡ all_units window servers.now }
{
    let mut units = 0u64;
    for server in servers {
        units = units.saturating_add(units_of(window, &server.chart));
    }
    units
}

/// Returns how many ticks all servers were charged in a window.
pub(crate) fn all_charged(window: Window, servers: &[Drawn]) -> u64
    ensures { result ≡ all_charged window servers.now }
{
    let mut charged = 0u64;
    for server in servers {
        charged = charged.saturating_add(charged_of(window, &server.chart));
    }
    charged
}

/// Appends how many ticks were charged, if there are any.
#[tactic(auto, unfolding(crate::specs::Heads::charges_text))]
fn append_charges(
    text: &mut String,
    nanoseconds: Option<u64>,
    charged: u64,
) -> Result<(), AllocError>
    ensures { OnOk result (string_bytes text.new ≡ string_bytes text.old
        ++ charges_text nanoseconds charged) }
{
    if charged == 0 {
        return Ok(());
    }
    append_ticks(text, nanoseconds, charged)?;
    text.push_str(" charged, ")
}

/// Appends how many servers there are, what share of the time is reserved, how many units ran, and how many ticks were
/// charged and idle.
#[tactic(auto, unfolding(crate::specs::Heads::figures_text))]
fn append_figures(
    text: &mut String,
    nanoseconds: Option<u64>,
    servers: usize,
    reserved: Bandwidth,
    units: u64,
    charged: u64,
    idle: u64,
) -> Result<(), AllocError>
    ensures { OnOk result (string_bytes text.new ≡ string_bytes text.old
        ++ figures_text nanoseconds servers reserved units charged idle) }
{
    append_servers(text, servers)?;
    let tenths = tenths_of(reserved);
    let whole = tenths / 10;
    let tenth = tenths % 10;
    write!(
        text,
        " with {whole}.{tenth} % of the time reserved. {units} units run, "
    )?;
    append_charges(text, nanoseconds, charged)?;
    append_ticks(text, nanoseconds, idle)?;
    text.push_str(" idle.")
}

/// Appends how many ticks of the run are not shown, if there are any.
fn append_hidden(text: &mut String, hidden: Option<Hidden>) -> Result<(), AllocError>
    ensures { OnOk result (string_bytes text.new ≡ string_bytes text.old ++ hidden_part hidden) }
{
    match hidden {
        Some(hidden) => write!(text, " {hidden}"),
        None => Ok(()),
    }
}

/// Appends how many servers are not drawn, if there are any.
fn append_left_out(text: &mut String, left_out: Option<LeftOut>) -> Result<(), AllocError>
    ensures { OnOk result (string_bytes text.new ≡ string_bytes text.old
        ++ left_out_part left_out) }
{
    match left_out {
        Some(left_out) => write!(text, " {left_out}"),
        None => Ok(()),
    }
}

/// Appends how many ticks a column has, if it has more than one.
#[tactic(auto, unfolding(crate::specs::Heads::column_text))]
fn append_column(text: &mut String, nanoseconds: Option<u64>, cell: u64) -> Result<(), AllocError>
    ensures { OnOk result (string_bytes text.new ≡ string_bytes text.old
        ++ column_text nanoseconds cell) }
{
    if cell <= 1 {
        return Ok(());
    }
    text.push_str(" Each column is ")?;
    append_ticks(text, nanoseconds, cell)?;
    text.push_str(".")
}

/// Returns the line below the heading: the figures of the run, and what is not shown of it.
#[tactic(auto, unfolding(crate::specs::Heads::summary_text))]
pub(crate) fn summary_text(
    alloc: Global,
    picture: &Picture,
    cell: u64,
) -> Result<String, AllocError>
    ensures { IfOk result (λ text. string_bytes text ≡ summary_text picture.now cell) }
{
    let window = picture.window;
    let units = all_units(window, &picture.servers);
    let charged = all_charged(window, &picture.servers);
    let idle = Counts::of(&picture.idle, window.from, window.to).idle;
    let mut text = String::new(alloc);
    append_figures(
        &mut text,
        picture.tick,
        picture.servers.len(),
        picture.reserved,
        units,
        charged,
        idle,
    )?;
    append_hidden(&mut text, picture.hidden())?;
    append_left_out(&mut text, picture.left_out())?;
    append_column(&mut text, picture.tick, cell)?;
    Ok(text)
}

/// Returns whether a job was finished late in the window.
fn is_late(window: Window, job: &ChartJob) -> bool
    ensures { result ≡ is_late window job.now }
{
    match job.finish {
        Some(finish) => {
            window.ends(finish) && exceeds(finish.saturating_sub(job.came), job.within)
        }
        None => false,
    }
}

/// Returns how many jobs were finished late in the window.
fn late_jobs(window: Window, jobs: &[ChartJob]) -> usize
    ensures { result ≡ count_by (is_late window) jobs.now }
{
    jobs.iter().filter(|job| is_late(window, job)).count()
}

/// Appends how many ticks a server was charged, if there are any.
#[tactic(auto, unfolding(crate::specs::Heads::was_charged_text))]
fn append_was_charged(
    text: &mut String,
    nanoseconds: Option<u64>,
    charged: u64,
) -> Result<(), AllocError>
    ensures { OnOk result (string_bytes text.new ≡ string_bytes text.old
        ++ was_charged_text nanoseconds charged) }
{
    if charged == 0 {
        return Ok(());
    }
    text.push_str(", was charged ")?;
    append_ticks(text, nanoseconds, charged)
}

/// Appends a server's name, mode and reservation, how many of its units ran, and how many ticks it was charged.
#[tactic(auto, unfolding(crate::specs::Heads::who_text))]
fn append_who(
    text: &mut String,
    nanoseconds: Option<u64>,
    name: &str,
    mode: &str,
    terms: &str,
    units: u64,
    charged: u64,
) -> Result<(), AllocError>
    ensures { OnOk result (string_bytes text.new ≡ string_bytes text.old
        ++ who_text nanoseconds name.now mode.now terms.now units charged) }
{
    write!(text, "{name}, {mode}, {terms}: ran {units} units")?;
    append_was_charged(text, nanoseconds, charged)
}

/// Appends how many of a server's jobs came, were refused, were finished, and were late.
#[tactic(auto, unfolding(crate::specs::Heads::came_text))]
fn append_came(
    text: &mut String,
    came: u64,
    refused: u64,
    finished: usize,
    late: usize,
) -> Result<(), AllocError>
    ensures { OnOk result (string_bytes text.new ≡ string_bytes text.old
        ++ came_text came refused finished late) }
{
    writeln!(
        text,
        "; {came} jobs came, {refused} refused, {finished} finished, {late} of those late."
    )
}

/// Appends the sentence that says what a picture shows of a server.
#[tactic(auto, unfolding(crate::specs::Heads::sentence_text))]
pub(crate) fn append_sentence(
    alloc: Global,
    text: &mut String,
    nanoseconds: Option<u64>,
    window: Window,
    name: &str,
    drawn: &Drawn,
) -> Result<(), AllocError>
    ensures { OnOk result (string_bytes text.new ≡ string_bytes text.old
        ++ sentence_text nanoseconds window name.now drawn.now) }
{
    let chart = &drawn.chart;
    let terms = terms_text(alloc, nanoseconds, drawn.reservation)?;
    append_who(
        text,
        nanoseconds,
        name,
        mode_word(drawn.mode),
        &terms,
        units_of(window, chart),
        charged_of(window, chart),
    )?;
    let came = (chart.arrivals.len() as u64).saturating_add(chart.refusals);
    let late = late_jobs(window, &chart.jobs);
    append_came(text, came, chart.refusals, chart.completions.len(), late)
}
