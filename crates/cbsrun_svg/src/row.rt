//! The row of a server.

ghost use Rattle.std.specs.Prelude.{◌≡◌, ◌≤◌, ◌++◌, IfOk, OnOk, string_bytes};
ghost use Rattle.cbsrun_svg.specs.Rows.{band_text, bars_text, charged_of, charged_text, dense_text, fine_text, inside_text, lates_text, layer_shape, layer_text, line_text, marks_text, names_text, row_text, short_terms_text, spans_text, terms_text, text_line, units_of, units_text, units_title};

use cbs_rate::Reservation;
use cbs_rules::Mode;
use cbsrun_chart::{Counts, Drawn, ServerChart, Stretch, Window};
use cbsrun_svg_shapes::{
    Axis, Layer, Layout, Place, append_arrivals, append_budget, append_columns, append_completions,
    append_deadlines, append_from_to, append_label, append_late, append_pale, append_path,
    append_refused, append_span, append_titled, bar_class, cell_counts, heights_of,
};
use cbsrun_text::mode_word;
use cbsrun_time_texts::append_time;
use std::alloc::{AllocError, Global};
use std::fmt::Write;

/// Returns how many units ran in a window.
pub(crate) fn units_of(window: Window, chart: &ServerChart) -> u64
    ensures { result ≡ units_of window chart.now }
{
    Counts::of(&chart.spans, window.from, window.to).runs
}

/// Returns how many ticks a server was charged in a window.
pub(crate) fn charged_of(window: Window, chart: &ServerChart) -> u64
    ensures { result ≡ charged_of window chart.now }
{
    Counts::of(&chart.spans, window.from, window.to).charged
}

/// Returns how far down the texts beside a bar stand.
fn text_line(layout: &Layout) -> u64
    ensures value { result ≡ text_line layout.now }
    ensures small { result ≤ 20000 }
{
    let bottom = layout.bar + layout.height;
    if layout.compact {
        return bottom - 30;
    }
    bottom - 400
}

/// Returns a reservation in its long form.
#[tactic(auto, unfolding(crate::specs::Rows::terms_text))]
pub(crate) fn terms_text(
    alloc: Global,
    tick: Option<u64>,
    reservation: Reservation,
) -> Result<String, AllocError>
    ensures { IfOk result (λ text. string_bytes text ≡ terms_text tick reservation) }
{
    let mut text = String::new(alloc);
    append_time(&mut text, tick, reservation.budget())?;
    text.push_str(" in every ")?;
    append_time(&mut text, tick, reservation.period())?;
    Ok(text)
}

/// Returns a reservation and a mode in their short form.
#[tactic(auto, unfolding(crate::specs::Rows::short_terms_text))]
pub(crate) fn short_terms_text(
    alloc: Global,
    tick: Option<u64>,
    reservation: Reservation,
    mode: Mode,
) -> Result<String, AllocError>
    ensures { IfOk result (λ text. string_bytes text ≡ short_terms_text tick reservation mode) }
{
    let mut text = String::new(alloc);
    append_time(&mut text, tick, reservation.budget())?;
    text.push_str(" in ")?;
    append_time(&mut text, tick, reservation.period())?;
    text.push_str(" ")?;
    text.push_str(mode_word(mode))?;
    Ok(text)
}

/// Appends the name, the reservation and the mode of a server.
#[tactic(auto, unfolding(crate::specs::Rows::names_text))]
fn append_names(
    alloc: Global,
    text: &mut String,
    place: &Place<'_>,
    reservation: Reservation,
) -> Result<(), AllocError>
    ensures { OnOk result (string_bytes text.new ≡ string_bytes text.old
        ++ names_text place.now.tick place.now.axis place.now.layout place.now.name.now reservation
        place.now.mode) }
{
    if place.layout.compact {
        let y = text_line(&place.layout);
        append_label(text, "k", 1600, y, place.name)?;
        let terms = short_terms_text(alloc, place.tick, reservation, place.mode)?;
        return append_label(
            text,
            "m r",
            place.axis.left().saturating_sub(1200),
            y,
            &terms,
        );
    }
    append_label(text, "n", 1600, 2100, place.name)?;
    let terms = terms_text(alloc, place.tick, reservation)?;
    append_label(text, "m", 1600, 3600, &terms)?;
    append_label(text, "m", 1600, 5000, mode_word(place.mode))
}

/// Appends how many units ran, and below that how many ticks were charged, if there are any.
#[tactic(auto, unfolding(crate::specs::Rows::units_text))]
pub(crate) fn append_units(
    alloc: Global,
    text: &mut String,
    axis: &Axis,
    layout: &Layout,
    units: u64,
    charged: u64,
) -> Result<(), AllocError>
    ensures { OnOk result (string_bytes text.new ≡ string_bytes text.old
        ++ units_text axis.now layout.now units charged) }
{
    let x = axis.right() + 5700;
    let y = text_line(layout);
    let label = units.to_string(alloc)?;
    if charged == 0 {
        return append_label(text, "u", x, y, &label);
    }
    append_label(text, "u", x, y.saturating_sub(600), &label)?;
    let below = format!(in alloc; "+ {charged}")?;
    append_label(text, "m r", x, y + 500, &below)
}

/// Appends the line of a row.
#[tactic(auto, unfolding(crate::specs::Rows::line_text))]
fn append_line(text: &mut String, axis: &Axis, layout: &Layout) -> Result<(), AllocError>
    ensures { OnOk result (string_bytes text.new ≡ string_bytes text.old
        ++ line_text axis.now layout.now) }
{
    let class = if layout.compact { "line" } else { "axis" };
    let left = axis.left();
    let line = layout.line;
    let right = axis.right();
    writeln!(
        text,
        "<path class=\"{class}\" d=\"M{left} {line}H{right}\"/>"
    )
}

/// Appends all stretches of what a server does, drawn tick by tick.
#[tactic(auto, unfolding(crate::specs::Rows::spans_text))]
fn append_spans(
    alloc: Global,
    text: &mut String,
    place: &Place<'_>,
    chart: &ServerChart,
) -> Result<(), AllocError>
    ensures { OnOk result (string_bytes text.new ≡ string_bytes text.old
        ++ spans_text place.now.tick place.now.axis place.now.layout place.now.name.now
        place.now.mode chart.now) }
{
    for span in &chart.spans {
        append_span(alloc, text, place, &chart.jobs, span)?;
    }
    Ok(())
}

/// Appends all ticks in which a job is late.
#[tactic(auto, unfolding(crate::specs::Rows::lates_text))]
fn append_lates(
    alloc: Global,
    text: &mut String,
    place: &Place<'_>,
    lates: &[Stretch],
) -> Result<(), AllocError>
    ensures { OnOk result (string_bytes text.new ≡ string_bytes text.old
        ++ lates_text place.now.tick place.now.axis place.now.layout place.now.name.now lates.now) }
{
    for late in lates {
        append_late(alloc, text, place, late)?;
    }
    Ok(())
}

/// Appends the marks of a server: refused and finished jobs, jobs that come, and deadlines.
#[tactic(auto, unfolding(crate::specs::Rows::marks_text))]
fn append_marks(
    alloc: Global,
    text: &mut String,
    axis: &Axis,
    layout: &Layout,
    chart: &ServerChart,
) -> Result<(), AllocError>
    ensures { OnOk result (string_bytes text.new ≡ string_bytes text.old
        ++ marks_text axis.now layout.now chart.now) }
{
    append_refused(alloc, text, axis, layout, &chart.refused)?;
    append_completions(alloc, text, axis, layout, &chart.completions)?;
    append_arrivals(alloc, text, axis, layout, &chart.arrivals)?;
    append_deadlines(alloc, text, axis, layout, &chart.deadlines)
}

/// Appends a row that is drawn tick by tick.
#[tactic(auto, unfolding(crate::specs::Rows::fine_text))]
fn append_fine(
    alloc: Global,
    text: &mut String,
    place: &Place<'_>,
    drawn: &Drawn,
) -> Result<(), AllocError>
    ensures { OnOk result (string_bytes text.new ≡ string_bytes text.old
        ++ fine_text place.now.tick place.now.axis place.now.layout place.now.name.now
        place.now.mode drawn.now) }
{
    let axis = &place.axis;
    let layout = &place.layout;
    let chart = &drawn.chart;
    append_pale(alloc, text, axis, layout, &chart.spans)?;
    let whole = drawn.reservation.budget();
    append_budget(
        alloc,
        text,
        place.tick,
        axis,
        layout,
        whole,
        chart.opening,
        &chart.corners,
    )?;
    append_line(text, axis, layout)?;
    append_spans(alloc, text, place, chart)?;
    append_lates(alloc, text, place, &chart.late)?;
    append_marks(alloc, text, axis, layout, chart)
}

/// Returns the shape of a layer's columns. They stand on the line `base`, and are at most `whole` high.
#[tactic(auto, unfolding(crate::specs::Rows::layer_shape))]
pub(crate) fn layer_shape(
    alloc: Global,
    axis: &Axis,
    base: u64,
    whole: u64,
    layer: Layer,
    counts: &[Counts],
) -> Result<String, AllocError>
    requires { whole ≤ 10000 }
    ensures { IfOk result (λ shape. string_bytes shape
        ≡ layer_shape axis.now base whole layer counts.now) }
{
    let heights = heights_of(alloc, axis, whole, layer, counts)?;
    let mut shape = String::new(alloc);
    append_columns(&mut shape, axis, base, &heights)?;
    Ok(shape)
}

/// Appends the columns of a layer.
#[tactic(auto, unfolding(crate::specs::Rows::layer_text))]
pub(crate) fn append_layer(
    alloc: Global,
    text: &mut String,
    axis: &Axis,
    base: u64,
    whole: u64,
    layer: Layer,
    class: &str,
    counts: &[Counts],
) -> Result<(), AllocError>
    requires { whole ≤ 10000 }
    ensures { OnOk result (string_bytes text.new ≡ string_bytes text.old
        ++ layer_text axis.now base whole layer class.now counts.now) }
{
    let shape = layer_shape(alloc, axis, base, whole, layer, counts)?;
    append_path(text, class, &shape)
}

/// Appends the columns of charged ticks, if there are any.
#[tactic(auto, unfolding(crate::specs::Rows::charged_text))]
fn append_charged(
    alloc: Global,
    text: &mut String,
    place: &Place<'_>,
    window: Window,
    chart: &ServerChart,
    counts: &[Counts],
) -> Result<(), AllocError>
    ensures { OnOk result (string_bytes text.new ≡ string_bytes text.old
        ++ charged_text place.now.axis place.now.layout window chart.now counts.now) }
{
    if charged_of(window, chart) == 0 {
        return Ok(());
    }
    let height = place.layout.height;
    let base = place.layout.bar + height;
    append_layer(
        alloc,
        text,
        &place.axis,
        base,
        height,
        Layer::Charged,
        "fee",
        counts,
    )
}

/// Returns the title of a server's units: its name, how many units ran, and in which ticks.
#[tactic(auto, unfolding(crate::specs::Rows::units_title))]
fn units_title(
    alloc: Global,
    tick: Option<u64>,
    name: &str,
    units: u64,
    window: Window,
) -> Result<String, AllocError>
    ensures { IfOk result (λ title. string_bytes title ≡ units_title tick name.now units window) }
{
    let mut title = format!(in alloc; "{name}: {units} units in ")?;
    append_from_to(&mut title, tick, window.from, window.to)?;
    Ok(title)
}

/// Appends what a server does, drawn in columns.
#[tactic(auto, unfolding(crate::specs::Rows::bars_text))]
fn append_bars(
    alloc: Global,
    text: &mut String,
    place: &Place<'_>,
    window: Window,
    chart: &ServerChart,
    counts: &[Counts],
) -> Result<(), AllocError>
    ensures { let p = place.now in
        OnOk result (string_bytes text.new ≡ string_bytes text.old
        ++ bars_text p.tick p.axis p.layout window p.name.now p.mode chart.now counts.now) }
{
    let axis = &place.axis;
    let height = place.layout.height;
    let base = place.layout.bar + height;
    append_layer(
        alloc,
        text,
        axis,
        base,
        height,
        Layer::Active,
        "wait",
        counts,
    )?;
    append_layer(
        alloc,
        text,
        axis,
        base,
        height,
        Layer::Throttled,
        "hatch",
        counts,
    )?;
    append_charged(alloc, text, place, window, chart, counts)?;
    let shape = layer_shape(alloc, axis, base, height, Layer::Runs, counts)?;
    let title = units_title(
        alloc,
        place.tick,
        place.name,
        units_of(window, chart),
        window,
    )?;
    append_titled(text, bar_class(place.mode, true), &shape, &title)
}

/// Appends a band over the cells that stretches take, and nothing if there is no stretch.
#[tactic(auto, unfolding(crate::specs::Rows::band_text))]
fn append_band(
    alloc: Global,
    text: &mut String,
    axis: &Axis,
    base: u64,
    whole: u64,
    layer: Layer,
    stretches: &[Stretch],
) -> Result<(), AllocError>
    requires { whole ≤ 10000 }
    ensures { OnOk result (string_bytes text.new ≡ string_bytes text.old
        ++ band_text axis.now base whole layer stretches.now) }
{
    if stretches.is_empty() {
        return Ok(());
    }
    let counts = cell_counts(alloc, axis, stretches)?;
    append_layer(alloc, text, axis, base, whole, layer, "band", &counts)
}

/// Appends a row that is drawn in columns. Refused releases are above the bars, and late jobs are below them.
#[tactic(auto, unfolding(crate::specs::Rows::dense_text))]
fn append_dense(
    alloc: Global,
    text: &mut String,
    place: &Place<'_>,
    window: Window,
    chart: &ServerChart,
) -> Result<(), AllocError>
    ensures { OnOk result (string_bytes text.new ≡ string_bytes text.old
        ++ dense_text place.now.tick place.now.axis place.now.layout window place.now.name.now
        place.now.mode chart.now) }
{
    let axis = &place.axis;
    let layout = &place.layout;
    let counts = cell_counts(alloc, axis, &chart.spans)?;
    append_bars(alloc, text, place, window, chart, &counts)?;
    append_line(text, axis, layout)?;
    append_band(
        alloc,
        text,
        axis,
        layout.bar - 100,
        300,
        Layer::Refused,
        &chart.refused,
    )?;
    let base = layout.bar + layout.height + layout.lane;
    append_band(
        alloc,
        text,
        axis,
        base,
        layout.lane,
        Layer::Late,
        &chart.late,
    )
}

/// Appends the content of a row, drawn in columns or tick by tick.
fn append_inside(
    alloc: Global,
    text: &mut String,
    place: &Place<'_>,
    window: Window,
    drawn: &Drawn,
) -> Result<(), AllocError>
    ensures { OnOk result (string_bytes text.new ≡ string_bytes text.old
        ++ inside_text place.now.tick place.now.axis place.now.layout window place.now.name.now
        place.now.mode drawn.now) }
{
    if place.layout.dense {
        return append_dense(alloc, text, place, window, &drawn.chart);
    }
    append_fine(alloc, text, place, drawn)
}

/// Appends the row of a server, whose top edge is at `top`.
#[tactic(auto, unfolding(crate::specs::Rows::row_text))]
pub(crate) fn append_row(
    alloc: Global,
    text: &mut String,
    place: &Place<'_>,
    window: Window,
    top: u64,
    drawn: &Drawn,
) -> Result<(), AllocError>
    ensures { OnOk result (string_bytes text.new ≡ string_bytes text.old
        ++ row_text place.now.tick place.now.axis place.now.layout window top place.now.name.now
        place.now.mode drawn.now) }
{
    writeln!(text, "<g transform=\"translate(0 {top})\">")?;
    append_names(alloc, text, place, drawn.reservation)?;
    append_units(
        alloc,
        text,
        &place.axis,
        &place.layout,
        units_of(window, &drawn.chart),
        charged_of(window, &drawn.chart),
    )?;
    append_inside(alloc, text, place, window, drawn)?;
    text.push_str("</g>\n")
}
