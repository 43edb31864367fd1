//! The whole picture.

ghost use Rattle.std.specs.Prelude.{◌≡◌, ◌≤◌, ◌++◌, IfOk, OnOk, length, string_bytes};
ghost use Rattle.cbsrun_svg.specs.Heads.{heading_text, summary_text};
ghost use Rattle.cbsrun_svg.specs.Pictures.{body_text, budget_legend, charged_legend, description_text, drawn_text, fine_legend, grid_text, idle_boxes, idle_shape, idle_text, left_of, legend_text, opening_text, page_text, rows_text, scale_of, sentences_text, server_row, server_sentence, svg_text, title_text, top_text, units_heading, words_text, words_width};
ghost use Rattle.cbsrun_svg_shapes.specs.Shapes.{escaped};
ghost use Rattle.cbsrun_window.specs.Windows.{IsShort};

use crate::head::{all_charged, append_sentence, heading_text, summary_text};
use crate::row::{append_layer, append_row, short_terms_text, terms_text};
use crate::scale::{append_numbers, append_scale, append_uprights, ticks_of};
use crate::style::{
    BUDGET_LEGEND, CHARGED_FILL_LEGEND, CHARGED_LEGEND, COLUMN_LEGEND, LEGEND, STYLE,
};
use cbsrun_chart::{Counts, Drawn, Picture, Stretch, Window};
use cbsrun_svg_shapes::{
    Axis, Layer, Layout, Place, append_label, append_path, append_stretch, cell_counts, escaped,
};
use std::alloc::{AllocError, Global};
use std::fmt::Write;

/// Returns the width of a server's words, at most 100,000.
fn words_width(
    alloc: Global,
    nanoseconds: Option<u64>,
    servers: usize,
    drawn: &Drawn,
) -> Result<u64, AllocError>
    ensures value { IfOk result (λ width. width ≡ words_width nanoseconds servers drawn.now) }
    ensures small { IfOk result (λ width. width ≤ 100000) }
{
    let letters = (drawn.name.len() as u64).min(40);
    if servers > 8 {
        let terms = short_terms_text(alloc, nanoseconds, drawn.reservation, drawn.mode)?;
        return Ok(2800 + 800 * letters + 620 * (terms.len() as u64).min(40));
    }
    let terms = terms_text(alloc, nanoseconds, drawn.reservation)?;
    Ok((2400 + 870 * letters).max(4000 + 620 * (terms.len() as u64).min(40)))
}

/// Returns the left edge of the axis, which leaves room for the widest words.
fn left_of(alloc: Global, nanoseconds: Option<u64>, servers: &[Drawn]) -> Result<u64, AllocError>
    ensures value { IfOk result (λ left. left
        ≡ left_of nanoseconds (length servers.now) servers.now) }
    ensures small { IfOk result (λ left. left ≤ 100000) }
{
    let mut left = 15_000;
    for server in servers {
        left = words_width(alloc, nanoseconds, servers.len(), server)?.max(left);
    }
    Ok(left)
}

/// Appends the opening tag of the document.
#[tactic(auto, unfolding(crate::specs::Pictures::opening_text))]
fn append_opening(text: &mut String, left: u64, scale: u64) -> Result<(), AllocError>
    requires left { left ≤ 100000 }
    requires scale { scale ≤ 1000000 }
    ensures { OnOk result (string_bytes text.new ≡ string_bytes text.old
        ++ opening_text left scale) }
{
    let width = left + 107_300;
    let height = scale + 4200;
    let wide = width / 100;
    let high = height / 100;
    writeln!(
        text,
        "<svg xmlns=\"http://www.w3.org/2000/svg\" viewBox=\"0 0 {width} {height}\" width=\"{wide}\" height=\"{high}\" role=\"img\" aria-labelledby=\"what how\">"
    )
}

/// Appends the page: a rectangle behind everything.
#[tactic(auto, unfolding(crate::specs::Pictures::page_text))]
fn append_page(text: &mut String, left: u64, scale: u64) -> Result<(), AllocError>
    requires left { left ≤ 100000 }
    requires scale { scale ≤ 1000000 }
    ensures { OnOk result (string_bytes text.new ≡ string_bytes text.old ++ page_text left scale) }
{
    let width = left + 107_300;
    let height = scale + 4200;
    writeln!(
        text,
        "<rect class=\"page\" width=\"{width}\" height=\"{height}\"/>"
    )
}

/// Appends the title, which is read aloud.
#[tactic(auto, unfolding(crate::specs::Pictures::title_text))]
fn append_title(text: &mut String, heading: &str) -> Result<(), AllocError>
    ensures { OnOk result (string_bytes text.new ≡ string_bytes text.old
        ++ title_text heading.now) }
{
    writeln!(text, "<title id=\"what\">{heading}</title>")
}

/// Appends the sentence of a server.
fn append_server_sentence(
    alloc: Global,
    text: &mut String,
    nanoseconds: Option<u64>,
    window: Window,
    drawn: &Drawn,
) -> Result<(), AllocError>
    ensures { OnOk result (string_bytes text.new ≡ string_bytes text.old
        ++ server_sentence nanoseconds window drawn.now) }
{
    let name = escaped(alloc, &drawn.name)?;
    append_sentence(alloc, text, nanoseconds, window, &name, drawn)
}

/// Appends the sentences of all servers.
#[tactic(auto, unfolding(crate::specs::Pictures::sentences_text))]
fn append_sentences(
    alloc: Global,
    text: &mut String,
    nanoseconds: Option<u64>,
    window: Window,
    servers: &[Drawn],
) -> Result<(), AllocError>
    ensures { OnOk result (string_bytes text.new ≡ string_bytes text.old
        ++ sentences_text nanoseconds window servers.now) }
{
    for server in servers {
        append_server_sentence(alloc, text, nanoseconds, window, server)?;
    }
    Ok(())
}

/// Appends the description of what a picture shows, which is read aloud.
#[tactic(auto, unfolding(crate::specs::Pictures::description_text))]
fn append_description(
    alloc: Global,
    text: &mut String,
    summary: &str,
    picture: &Picture,
) -> Result<(), AllocError>
    ensures { OnOk result (string_bytes text.new ≡ string_bytes text.old
        ++ description_text picture.now summary.now) }
{
    writeln!(text, "<desc id=\"how\">{summary}")?;
    append_sentences(alloc, text, picture.tick, picture.window, &picture.servers)?;
    writeln!(text, "</desc>")
}

/// Appends the opening tag, the title, the description, the style and the page.
#[tactic(auto, unfolding(crate::specs::Pictures::words_text))]
fn append_words(
    alloc: Global,
    text: &mut String,
    left: u64,
    scale: u64,
    heading: &str,
    summary: &str,
    picture: &Picture,
) -> Result<(), AllocError>
    requires left { left ≤ 100000 }
    requires scale { scale ≤ 1000000 }
    ensures { OnOk result (string_bytes text.new ≡ string_bytes text.old
        ++ words_text left scale heading.now summary.now picture.now) }
{
    append_opening(text, left, scale)?;
    append_title(text, heading)?;
    append_description(alloc, text, summary, picture)?;
    text.push_str(STYLE)?;
    append_page(text, left, scale)
}

/// Appends the legend of the course of a budget, if budgets are drawn.
#[tactic(auto, unfolding(crate::specs::Pictures::budget_legend))]
fn append_budget_legend(text: &mut String, layout: &Layout) -> Result<(), AllocError>
    ensures { OnOk result (string_bytes text.new ≡ string_bytes text.old
        ++ budget_legend layout.now) }
{
    if !layout.budgets {
        return Ok(());
    }
    text.push_str(BUDGET_LEGEND)
}

/// Returns the legend of charged ticks, as they are drawn.
fn charged_legend(axis: &Axis) -> &'static str
    ensures { result.now ≡ charged_legend axis.now }
{
    if axis.is_wide() {
        CHARGED_LEGEND
    } else {
        CHARGED_FILL_LEGEND
    }
}

/// Appends the legend of the shapes that are drawn tick by tick.
#[tactic(auto, unfolding(crate::specs::Pictures::fine_legend))]
fn append_fine_legend(text: &mut String, axis: &Axis, layout: &Layout) -> Result<(), AllocError>
    ensures { OnOk result (string_bytes text.new ≡ string_bytes text.old
        ++ fine_legend axis.now layout.now) }
{
    text.push_str(LEGEND)?;
    text.push_str(charged_legend(axis))?;
    append_budget_legend(text, layout)
}

/// Appends the legend of the shapes.
fn append_legend(text: &mut String, axis: &Axis, layout: &Layout) -> Result<(), AllocError>
    ensures { OnOk result (string_bytes text.new ≡ string_bytes text.old
        ++ legend_text axis.now layout.now) }
{
    if layout.dense {
        return text.push_str(COLUMN_LEGEND);
    }
    append_fine_legend(text, axis, layout)
}

/// Appends the heading, the summary and the legend.
#[tactic(auto, unfolding(crate::specs::Pictures::top_text))]
fn append_top(
    text: &mut String,
    axis: &Axis,
    layout: &Layout,
    heading: &str,
    summary: &str,
) -> Result<(), AllocError>
    ensures { OnOk result (string_bytes text.new ≡ string_bytes text.old
        ++ top_text axis.now layout.now heading.now summary.now) }
{
    append_label(text, "h", 1600, 3000, heading)?;
    append_label(text, "m", 1600, 5000, summary)?;
    append_legend(text, axis, layout)
}

/// Appends the heading of the units, and of charged ticks if there are any. That one is longer, and stands above the
/// numbers.
#[tactic(auto, unfolding(crate::specs::Pictures::units_heading))]
fn append_units_heading(text: &mut String, axis: &Axis, charged: u64) -> Result<(), AllocError>
    ensures { OnOk result (string_bytes text.new ≡ string_bytes text.old
        ++ units_heading axis.now charged) }
{
    let x = axis.right() + 5700;
    if charged == 0 {
        return append_label(text, "m r", x, 10_200, "units");
    }
    append_label(text, "m r", x, 9000, "units + charged")
}

/// Appends faint lines through all rows at the numbered ticks, and the heading of the units. If there are many rows,
/// appends the numbers once more above them.
#[tactic(auto, unfolding(crate::specs::Pictures::grid_text))]
fn append_grid(
    alloc: Global,
    text: &mut String,
    nanoseconds: Option<u64>,
    axis: &Axis,
    layout: &Layout,
    scale: u64,
    ticks: &[u64],
    charged: u64,
) -> Result<(), AllocError>
    ensures { OnOk result (string_bytes text.new ≡ string_bytes text.old
        ++ grid_text nanoseconds axis.now layout.now scale ticks.now charged) }
{
    let mut shape = String::new(alloc);
    append_uprights(&mut shape, axis, 10_500, scale, ticks)?;
    append_path(text, "grid", &shape)?;
    append_units_heading(text, axis, charged)?;
    if layout.compact {
        append_numbers(alloc, text, nanoseconds, axis, 10_200, ticks)?;
    }
    Ok(())
}

/// Appends the row of a server.
fn append_server_row(
    alloc: Global,
    text: &mut String,
    nanoseconds: Option<u64>,
    axis: &Axis,
    layout: &Layout,
    window: Window,
    top: u64,
    drawn: &Drawn,
) -> Result<(), AllocError>
    ensures { OnOk result (string_bytes text.new ≡ string_bytes text.old
        ++ server_row nanoseconds axis.now layout.now window top drawn.now) }
{
    let name = escaped(alloc, &drawn.name)?;
    let place = Place {
        axis: *axis,
        layout: *layout,
        mode: drawn.mode,
        name: &name,
        tick: nanoseconds,
    };
    append_row(alloc, text, &place, window, top, drawn)
}

/// Appends all rows, one below another.
fn append_rows(
    alloc: Global,
    text: &mut String,
    nanoseconds: Option<u64>,
    axis: &Axis,
    layout: &Layout,
    window: Window,
    servers: &[Drawn],
) -> Result<(), AllocError>
    requires { length servers.now ≤ 64 }
    ensures { OnOk result (string_bytes text.new ≡ string_bytes text.old
        ++ rows_text nanoseconds axis.now layout.now window 11000 servers.now) }
{
    let mut top = 11_000u64;
    for server in servers {
        append_server_row(alloc, text, nanoseconds, axis, layout, window, top, server)?;
        top += layout.row;
    }
    Ok(())
}

/// Appends the ticks in which nobody runs, drawn tick by tick.
#[tactic(auto, unfolding(crate::specs::Pictures::idle_boxes))]
fn append_idle_boxes(
    alloc: Global,
    text: &mut String,
    axis: &Axis,
    scale: u64,
    idle: &[Stretch],
) -> Result<(), AllocError>
    ensures { OnOk result (string_bytes text.new ≡ string_bytes text.old
        ++ idle_boxes axis.now scale idle.now) }
{
    let mut shape = String::new(alloc);
    for stretch in idle {
        append_stretch(&mut shape, axis, scale.saturating_sub(900), 600, stretch)?;
    }
    append_path(text, "idle", &shape)
}

/// Appends the ticks in which nobody runs, drawn in columns if there are many ticks.
fn append_idle_shape(
    alloc: Global,
    text: &mut String,
    axis: &Axis,
    layout: &Layout,
    scale: u64,
    idle: &[Stretch],
) -> Result<(), AllocError>
    ensures { OnOk result (string_bytes text.new ≡ string_bytes text.old
        ++ idle_shape axis.now layout.now scale idle.now) }
{
    if !layout.dense {
        return append_idle_boxes(alloc, text, axis, scale, idle);
    }
    let counts = cell_counts(alloc, axis, idle)?;
    append_layer(
        alloc,
        text,
        axis,
        scale.saturating_sub(300),
        600,
        Layer::Idle,
        "idle",
        &counts,
    )
}

/// Appends the line of the ticks in which nobody runs.
#[tactic(auto, unfolding(crate::specs::Pictures::idle_text))]
fn append_idle(
    alloc: Global,
    text: &mut String,
    axis: &Axis,
    layout: &Layout,
    window: Window,
    scale: u64,
    idle: &[Stretch],
) -> Result<(), AllocError>
    ensures { OnOk result (string_bytes text.new ≡ string_bytes text.old
        ++ idle_text axis.now layout.now window scale idle.now) }
{
    let y = scale.saturating_sub(400);
    append_label(text, "m", 1600, y, "idle")?;
    let ticks = Counts::of(idle, window.from, window.to)
        .idle
        .to_string(alloc)?;
    append_label(text, "u", axis.right() + 5700, y, &ticks)?;
    append_idle_shape(alloc, text, axis, layout, scale, idle)
}

/// Appends all rows, and the grid, idle line and scale around them.
#[tactic(auto, unfolding(crate::specs::Pictures::body_text))]
fn append_body(
    alloc: Global,
    text: &mut String,
    axis: &Axis,
    layout: &Layout,
    scale: u64,
    ticks: &[u64],
    picture: &Picture,
) -> Result<(), AllocError>
    requires few { length picture.now.servers.items ≤ 64 }
    requires scale { scale ≤ 1000000 }
    ensures { OnOk result (string_bytes text.new ≡ string_bytes text.old
        ++ body_text axis.now layout.now picture.now.window scale ticks.now picture.now) }
{
    let window = picture.window;
    let charged = all_charged(window, &picture.servers);
    let tick = picture.tick;
    append_grid(alloc, text, tick, axis, layout, scale, ticks, charged)?;
    append_rows(alloc, text, tick, axis, layout, window, &picture.servers)?;
    append_idle(alloc, text, axis, layout, window, scale, &picture.idle)?;
    append_scale(alloc, text, tick, axis, scale, ticks)?;
    text.push_str("</svg>\n")
}

/// Returns how far down the line of the scale stands, below this many rows.
fn scale_of(servers: usize, layout: &Layout) -> u64
    requires { servers ≤ 64 }
    ensures value { result ≡ scale_of servers layout.now }
    ensures small { result ≤ 1000000 }
{
    12_400 + servers as u64 * layout.row
}

/// Returns the text of a picture on an axis.
#[tactic(auto, unfolding(crate::specs::Pictures::drawn_text))]
fn drawn_text(
    alloc: Global,
    axis: &Axis,
    layout: &Layout,
    heading: &str,
    summary: &str,
    picture: &Picture,
) -> Result<String, AllocError>
    requires few { length picture.now.servers.items ≤ 64 }
    ensures { IfOk result (λ text. string_bytes text
        ≡ drawn_text axis.now layout.now heading.now summary.now picture.now) }
{
    let scale = scale_of(picture.servers.len(), layout);
    let ticks = ticks_of(alloc, picture.tick, axis, picture.window)?;
    let mut text = String::new(alloc);
    append_words(
        alloc,
        &mut text,
        axis.left(),
        scale,
        heading,
        summary,
        picture,
    )?;
    append_top(&mut text, axis, layout, heading, summary)?;
    append_body(alloc, &mut text, axis, layout, scale, &ticks, picture)?;
    Ok(text)
}

/// Returns a picture of a short window as the text of an SVG document. The only error is out of memory.
pub fn svg_text(alloc: Global, picture: &Picture) -> Result<String, AllocError>
    requires few { length picture.now.servers.items ≤ 64 }
    requires short { IsShort picture.now.window }
    ensures { IfOk result (λ text. string_bytes text ≡ svg_text picture.now) }
{
    let axis = Axis::of(
        picture.window,
        left_of(alloc, picture.tick, &picture.servers)?,
    );
    let layout = Layout::of(picture.servers.len(), &axis);
    let file = escaped(alloc, &picture.file)?;
    let heading = heading_text(alloc, picture.tick, &file, picture.window)?;
    let summary = summary_text(alloc, picture, axis.cell())?;
    drawn_text(alloc, &axis, &layout, &heading, &summary, picture)
}
