//! The explanation of a server that takes the plan over its bound: by how much, and what would fit.

ghost use Rattle.std.specs.Prelude.{◌≡◌, ℕ, ◌++◌, ◌<◌, map, IfOk, MatchOption, Some, string_bytes};
ghost use Rattle.toml.specs.View.{view};
ghost use Rattle.cbs_rate.specs.Bound.{IsBound};
ghost use Rattle.cbs_rate.specs.Plan.{admit_refusal};
ghost use Rattle.cbs_rate.specs.Rate.{IsRate};
ghost use Rattle.cbs_rate.specs.Room.{IsLeastPeriod};
ghost use Rattle.cbs_rate.specs.declared.error.AdmitError.TheVariants.{OverBound};
ghost use Rattle.cbsrun_check_text.specs.Fractions.{fraction_text, percent_text};
ghost use Rattle.cbsrun_refusal_texts.specs.Over.{row, before_label, own_label, fraction_length, columns_for, before_row, own_row, rows_text, sum_text, IsHelp, IsHelpThat, TellsGreatest, TellsLeast, TellsLeastIfAny, server_word, separator, servers_text, part_line, alone_words, IsPartsText, TellsSplit, AreHelps, IsOverText, IsShare, IsShort, IsShortened};
ghost use Rattle.cbsrun_refusal_texts.specs.Pages.{Appends, AppendsA};
ghost use Rattle.cbsrun_refusal_texts.specs.Refusals.{IsSpotLine};

use crate::page::Page;
use cbs_guarantee::{Part, SplitError, split};
use cbs_rate::{Bandwidth, Bound, Plan, Ratio, Reservation};
use cbsrun_check_text::{append_fraction, append_percent};
use cbsrun_faults::{Document, Refused, Spot, reservations};
use cbsrun_sizing::greatest_common_divisor;
use cbsrun_time_texts::append_time;
use std::alloc::{AllocError, Global};

/// The columns before the bar.
const MARGIN: usize = 3;

/// The least columns of the labels of a sum.
const LABEL: usize = 24;

/// The least columns of the fractions of a sum.
const FRACTION: usize = 10;

/// Returns a bound as a fraction.
fn ratio_of_bound(bound: Bound) -> Ratio
    ensures value { result ≡ record { part = bound.num; whole = bound.den } }
    ensures lawful { IsBound bound.num bound.den }
{
    Ratio {
        part: u128::from(bound.num()),
        whole: u128::from(bound.den()),
    }
}

/// Returns the bandwidth of a reservation as a fraction.
fn ratio_of(reservation: Reservation) -> Ratio
    ensures value { result ≡ record { part = reservation.budget; whole = reservation.period } }
    ensures lawful { IsRate reservation.budget reservation.period }
{
    Ratio {
        part: u128::from(reservation.budget()),
        whole: u128::from(reservation.period()),
    }
}

/// Returns the bandwidth of a plan as a fraction.
fn ratio_of_bandwidth(bandwidth: Bandwidth) -> Ratio
    ensures { result ≡ record { part = bandwidth.ticks; whole = bandwidth.of } }
{
    Ratio {
        part: u128::from(bandwidth.ticks),
        whole: u128::from(bandwidth.of),
    }
}

/// Returns the same fraction, shortened.
fn shortened(ratio: Ratio) -> Ratio
    requires { 0 < ratio.whole }
    ensures { IsShortened ratio result }
{
    let divisor = greatest_common_divisor(ratio.part, ratio.whole);
    Ratio {
        part: ratio.part / divisor,
        whole: ratio.whole / divisor,
    }
}

/// Returns a share as a shortened fraction. The only error is out of memory.
fn fraction_of(alloc: Global, ratio: Ratio) -> Result<String, AllocError>
    requires { 0 < ratio.whole }
    ensures { IfOk result (λ text. string_bytes text ≡ fraction_text ratio.part ratio.whole) }
{
    let mut text = String::new(alloc);
    append_fraction(&mut text, "", ratio.part, ratio.whole)?;
    Ok(text)
}

/// Returns a share in per cent. The only error is out of memory.
fn percent_of(alloc: Global, ratio: Ratio) -> Result<String, AllocError>
    requires { IsShare ratio }
    ensures { IfOk result (λ text. string_bytes text ≡ percent_text ratio.part ratio.whole) }
{
    let mut text = String::new(alloc);
    append_percent(&mut text, ratio.part, ratio.whole)?;
    Ok(text)
}

/// The columns of the sum.
#[derive(Clone, Copy)]
struct Columns {
    /// How wide the labels are.
    label: usize,
    /// How wide the fractions are.
    fraction: usize,
}

/// Returns how long a fraction is, as it is written. The only error is out of memory.
fn fraction_length(alloc: Global, ratio: Ratio) -> Result<usize, AllocError>
    requires { 0 < ratio.whole }
    ensures { IfOk result (λ columns. columns ≡ fraction_length ratio) }
{
    let text = fraction_of(alloc, ratio)?;
    Ok(text.as_str().len())
}

/// Returns the columns of the sum of the servers before this one, this server, and what is too much. The only error is
/// out of memory.
fn columns_for(
    alloc: Global,
    tick: Option<u64>,
    together: Ratio,
    own: Ratio,
    excess: Ratio,
) -> Result<Columns, AllocError>
    requires together { 0 < together.whole }
    requires own { IsShort own }
    requires excess { 0 < excess.whole }
    ensures { IfOk result (λ columns. columns ≡ columns_for tick together own excess) }
{
    let label = own_label(alloc, tick, own)?;
    let fraction = FRACTION
        .max(fraction_length(alloc, together)?)
        .max(fraction_length(alloc, own)?)
        .max(fraction_length(alloc, excess)?);
    Ok(Columns {
        label: LABEL.max(label.as_str().len()),
        fraction,
    })
}

/// Appends a row of the sum.
fn append_row(page: &mut Page, columns: Columns, label: &str, ratio: Ratio, end: &str)
    requires { IsShare ratio }
    ensures { Appends page.old page.new (row columns label.now ratio.part ratio.whole end.now) }
{
    let fraction = fraction_of(page.alloc(), ratio);
    let Some(fraction) = page.accept(fraction) else {
        return;
    };
    let percent = percent_of(page.alloc(), ratio);
    let Some(percent) = page.accept(percent) else {
        return;
    };
    page.push("   | ");
    page.push_left(columns.label, label);
    page.push("  ");
    page.push_right(columns.fraction, &fraction);
    page.push("  ");
    page.push_right(7, &percent);
    page.push_all(&[end, "\n"]);
}

/// Returns the label of the servers before this one, of which there are some. The only error is out of memory.
fn before_label(alloc: Global, number: usize) -> Result<String, AllocError>
    requires { 0 < number }
    ensures { IfOk result (λ label. string_bytes label ≡ before_label number) }
{
    if number == 1 {
        return String::from_str(alloc, "server 0");
    }
    let last = number - 1;
    format!(in alloc; "servers 0 to {last}")
}

/// Returns the label of this server. The only error is out of memory.
fn own_label(alloc: Global, tick: Option<u64>, own: Ratio) -> Result<String, AllocError>
    requires { IsShort own }
    ensures { IfOk result (λ label. string_bytes label ≡ own_label tick own) }
{
    let mut label = String::from_str(alloc, "budget = ")?;
    append_time(&mut label, tick, own.part as u64)?;
    label.push_str(", period = ")?;
    append_time(&mut label, tick, own.whole as u64)?;
    Ok(label)
}

/// Appends a row for the servers before this one, if there are any.
#[tactic(auto, unfolding(crate::specs::Over::before_row))]
fn append_before(page: &mut Page, columns: Columns, number: usize, together: Ratio)
    requires { IsShare together }
    ensures { Appends page.old page.new (before_row columns number together) }
{
    if number == 0 {
        return;
    }
    let label = before_label(page.alloc(), number);
    let Some(label) = page.accept(label) else {
        return;
    };
    append_row(page, columns, &label, together, "");
}

/// Appends the row of this server, with its own share.
#[tactic(auto, unfolding(crate::specs::Over::own_row))]
fn append_own(page: &mut Page, columns: Columns, tick: Option<u64>, own: Ratio)
    requires { IsShort own }
    ensures { Appends page.old page.new (own_row columns tick own) }
{
    let label = own_label(page.alloc(), tick, own);
    let Some(label) = page.accept(label) else {
        return;
    };
    append_row(page, columns, &label, own, "");
}

/// Appends the rows of the sum: the servers before this one, this server with its own share, and by how much they are
/// over the bound.
fn append_rows(
    page: &mut Page,
    columns: Columns,
    tick: Option<u64>,
    number: usize,
    together: Ratio,
    own: Ratio,
    excess: Ratio,
)
    requires together { IsShare together }
    requires own { IsShort own }
    requires excess { IsShare excess }
    ensures { Appends page.old page.new (rows_text columns tick number together own excess) }
{
    page.push_bar(MARGIN);
    append_before(page, columns, number, together);
    append_own(page, columns, tick, own);
    append_row(page, columns, "", excess, "  too much");
    page.push_bar(MARGIN);
}

/// Appends the sum, in columns that are wide enough.
fn append_sum(page: &mut Page, refused: &Refused, own: Ratio, excess: Ratio)
    requires own { IsShort own }
    requires excess { IsShare excess }
    ensures { Appends page.old page.new
        (sum_text refused.now.tick refused.now.number refused.now.plan.rates own excess) }
{
    let together = ratio_of_bandwidth(refused.plan.bandwidth());
    let tick = refused.tick;
    let columns = columns_for(page.alloc(), tick, together, own, excess);
    let Some(columns) = page.accept(columns) else {
        return;
    };
    append_rows(page, columns, tick, refused.number, together, own, excess);
}

/// Returns the words on the greatest budget that a plan takes at a period. The only error is out of memory.
fn greatest_words(
    alloc: Global,
    tick: Option<u64>,
    plan: &Plan,
    period: u64,
) -> Result<String, AllocError>
    ensures { IfOk result (λ words. TellsGreatest tick plan.now period (string_bytes words)) }
{
    let budget = plan.greatest_budget(period);
    let mut words = String::from_str(alloc, "at period ")?;
    append_time(&mut words, tick, period)?;
    if budget == 0 {
        words.push_str(" no budget fits")?;
        return Ok(words);
    }
    words.push_str(" a budget of ")?;
    append_time(&mut words, tick, budget)?;
    words.push_str(" fits, and no greater one")?;
    Ok(words)
}

/// Returns the words on the least period at which a plan takes a budget, or `None` if there is none. The only error is
/// out of memory.
fn least_words(
    alloc: Global,
    tick: Option<u64>,
    plan: &Plan,
    budget: u64,
) -> Result<Option<String>, AllocError>
    ensures { IfOk result (λ words. MatchOption words
        ((period : ℕ) → ¬ (IsLeastPeriod plan.now budget period))
        (λ words. TellsLeast tick plan.now budget (string_bytes words))) }
{
    let Some(period) = plan.least_period(budget) else {
        return Ok(None);
    };
    let mut words = String::from_str(alloc, "a budget of ")?;
    append_time(&mut words, tick, budget)?;
    words.push_str(" fits at period ")?;
    append_time(&mut words, tick, period)?;
    Ok(Some(words))
}

/// Appends the greatest budget at this period.
fn append_greatest(page: &mut Page, refused: &Refused)
    ensures { AppendsA (IsHelpThat (TellsGreatest refused.now.tick refused.now.plan
        refused.now.reservation.period)) page.old page.new }
{
    let period = refused.reservation.period();
    let words = greatest_words(page.alloc(), refused.tick, &refused.plan, period);
    page.push_note(MARGIN, "help", words);
}

/// Appends the least period for this budget, if there is one.
fn append_least(page: &mut Page, refused: &Refused)
    ensures { AppendsA (TellsLeastIfAny refused.now.tick refused.now.plan
        refused.now.reservation.budget) page.old page.new }
{
    let budget = refused.reservation.budget();
    match least_words(page.alloc(), refused.tick, &refused.plan, budget) {
        Ok(Some(words)) => page.push_note(MARGIN, "help", Ok(words)),
        Ok(None) => {}
        Err(AllocError) => page.fail(),
    }
}

/// Appends the name of a server, or its number if it has no name.
fn append_server(page: &mut Page, document: Document<'_>, server: usize)
    ensures { Appends page.old page.new (server_word (map view document.entry.servers.now) server) }
{
    match document.server_name(server) {
        Some(name) => page.push_printable(name),
        None => page.push_number("server ", server as u64),
    }
}

/// Returns what stands before the element at this place of a list.
fn separator(place: usize) -> &'static str
    ensures { result.now ≡ separator place }
{
    if place > 0 { ", " } else { "" }
}

/// Appends the servers of a part of a split, with commas between them.
fn append_servers(page: &mut Page, document: Document<'_>, servers: &[usize])
    ensures { Appends page.old page.new (servers_text (map view document.entry.servers.now)
        servers.now) }
{
    for place in 0..servers.len() {
        page.push(separator(place));
        append_server(page, document, servers[place]);
    }
}

/// Appends a part of a split, with its number, its servers and their sum.
fn append_part(page: &mut Page, document: Document<'_>, number: u64, part: &Part)
    ensures { Appends page.old page.new
        (part_line (map view document.entry.servers.now) number part.now.servers.items
        part.now.plan.rates) }
{
    page.push_number("           ", number);
    page.push(": ");
    append_servers(page, document, &part.servers);
    page.push_fraction("  (", ratio_of_bandwidth(part.plan.bandwidth()));
    page.push(")\n");
}

/// Appends on how many executors all servers fit, and which servers each of these has.
fn append_parts(page: &mut Page, document: Document<'_>, parts: &[Part])
    ensures { AppendsA (IsPartsText (map view document.entry.servers.now) parts.now) page.old
        page.new }
{
    let executors = parts.len();
    let count = document.servers.len();
    let words = format!(in page.alloc(); "on {executors} executors all {count} servers fit:");
    page.push_note(MARGIN, "help", words);
    for place in 0..parts.len() {
        append_part(page, document, place as u64 + 1, &parts[place]);
    }
}

/// Appends that a server is over the bound even alone.
fn append_alone(page: &mut Page, server: usize)
    ensures { AppendsA (IsHelp (alone_words server)) page.old page.new }
{
    let words = format!(in page.alloc(); "server {server} is over the bound even alone");
    page.push_note(MARGIN, "help", words);
}

/// Appends a split of all servers, in a file with this tick, over several executors, or that one of them is over the bound even alone. A split has
/// as few executors as the first-fit method finds.
fn append_split(page: &mut Page, document: Document<'_>, tick: Option<u64>, bound: Bound)
    ensures { AppendsA (TellsSplit tick bound (map view document.entry.servers.now)) page.old
        page.new }
{
    let all = reservations(page.alloc(), tick, document.servers);
    let Some(all) = page.accept(all) else {
        return;
    };
    let Some(all) = all else {
        return;
    };
    match split(page.alloc(), bound, &all) {
        Ok(parts) => append_parts(page, document, &parts),
        Err(SplitError::OverBound { server }) => append_alone(page, server),
        Err(SplitError::OutOfMemory) => page.fail(),
    }
}

/// Appends what would fit in place of a server that is refused: the greatest budget at its period, the least period for
/// its budget, and a split of all servers.
fn append_helps(page: &mut Page, document: Document<'_>, refused: &Refused)
    ensures { AppendsA (AreHelps (map view document.entry.servers.now) refused.now) page.old
        page.new }
{
    append_greatest(page, refused);
    append_least(page, refused);
    append_split(page, document, refused.tick, refused.plan.bound());
}

/// Appends the explanation of a server that takes the plan over its bound.
pub(crate) fn append_over(page: &mut Page, spot: &Spot<'_>, refused: &Refused)
    requires { admit_refusal refused.now.plan refused.now.reservation ≡ Some OverBound }
    ensures { let entries = map view spot.now.document.servers.now in
        AppendsA (IsOverText (IsSpotLine spot.now) entries refused.now) page.old page.new }
{
    let total = refused.plan.total_with(refused.reservation);
    let own = ratio_of(refused.reservation);
    let bound = ratio_of_bound(refused.plan.bound());
    let Some(excess) = refused.plan.excess_with(refused.reservation) else {
        return;
    };
    page.push_fraction("error: over the bound: ", total);
    page.push_number(" of the time with server ", refused.number as u64);
    page.push_fraction(", and the bound is ", bound);
    page.push_spot(spot);
    append_sum(page, refused, own, shortened(excess));
    append_helps(page, spot.document, refused);
}
