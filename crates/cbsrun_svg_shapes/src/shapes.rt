//! The elements of a picture, and their shapes.

ghost use Rattle.std.specs.Prelude.{◌≡◌, ◌≤◌, ◌++◌, OnOk, string_bytes};
ghost use Rattle.cbsrun_svg_shapes.specs.Shapes.{arrow_down_text, arrow_up_text, box_text, cross_text, label_text, lines_text, path_text, stretch_text, titled_text, upright_text, width_of};

use crate::axis::Axis;
use cbsrun_chart::Stretch;
use std::alloc::AllocError;
use std::fmt::Write;

/// Appends a box, by its left edge, its top, its width and its height.
#[tactic(auto, unfolding(crate::specs::Shapes::box_text))]
pub(crate) fn append_box(
    shape: &mut String,
    x: u64,
    y: u64,
    width: u64,
    height: u64,
) -> Result<(), AllocError>
    ensures { OnOk result (string_bytes shape.new ≡ string_bytes shape.old
        ++ box_text x y width height) }
{
    write!(shape, "M{x} {y}h{width}v{height}h-{width}z")
}

/// Returns the width of a stretch.
pub(crate) fn width_of(axis: &Axis, stretch: &Stretch) -> u64
    ensures value { result ≡ width_of axis.now stretch.now }
    ensures small { result ≤ 100100000 }
{
    axis.x(stretch.to).saturating_sub(axis.x(stretch.from))
}

/// Appends the box of a stretch, by its top and its height.
pub fn append_stretch(
    shape: &mut String,
    axis: &Axis,
    y: u64,
    height: u64,
    stretch: &Stretch,
) -> Result<(), AllocError>
    ensures { OnOk result (string_bytes shape.new ≡ string_bytes shape.old
        ++ stretch_text axis.now y height stretch.now) }
{
    append_box(
        shape,
        axis.x(stretch.from),
        y,
        width_of(axis, stretch),
        height,
    )
}

/// Appends an arrow with a head that points up, from one height to another.
#[tactic(auto, unfolding(crate::specs::Shapes::arrow_up_text))]
pub(crate) fn append_arrow_up(
    shape: &mut String,
    x: u64,
    from: u64,
    to: u64,
    half: u64,
    high: u64,
) -> Result<(), AllocError>
    ensures { OnOk result (string_bytes shape.new ≡ string_bytes shape.old
        ++ arrow_up_text x from to half high) }
{
    write!(
        shape,
        "M{x} {from}V{to}m-{half} {high}l{half}-{high}l{half} {high}"
    )
}

/// Appends an arrow with a head that points down, from one height to another.
#[tactic(auto, unfolding(crate::specs::Shapes::arrow_down_text))]
pub(crate) fn append_arrow_down(
    shape: &mut String,
    x: u64,
    from: u64,
    to: u64,
    half: u64,
    high: u64,
) -> Result<(), AllocError>
    ensures { OnOk result (string_bytes shape.new ≡ string_bytes shape.old
        ++ arrow_down_text x from to half high) }
{
    write!(
        shape,
        "M{x} {from}V{to}m-{half}-{high}l{half} {high}l{half}-{high}"
    )
}

/// Appends an upright line, from one height to another.
#[tactic(auto, unfolding(crate::specs::Shapes::upright_text))]
pub fn append_upright(shape: &mut String, x: u64, from: u64, to: u64) -> Result<(), AllocError>
    ensures { OnOk result (string_bytes shape.new ≡ string_bytes shape.old
        ++ upright_text x from to) }
{
    write!(shape, "M{x} {from}V{to}")
}

/// Appends a stem with a cross at its upper end.
#[tactic(auto, unfolding(crate::specs::Shapes::cross_text))]
pub(crate) fn append_cross(
    shape: &mut String,
    x: u64,
    from: u64,
    top: u64,
) -> Result<(), AllocError>
    requires { top ≤ 10000 }
    ensures { OnOk result (string_bytes shape.new ≡ string_bytes shape.old
        ++ cross_text x from top) }
{
    let middle = top + 250;
    let bottom = top + 500;
    let left = x.saturating_sub(250);
    write!(
        shape,
        "M{x} {from}V{middle}M{left} {top}l500 500M{left} {bottom}l500-500"
    )
}

/// Appends a shape of a class, unless the shape is empty.
#[tactic(auto, unfolding(crate::specs::Shapes::path_text))]
pub fn append_path(text: &mut String, class: &str, shape: &str) -> Result<(), AllocError>
    ensures { OnOk result (string_bytes text.new ≡ string_bytes text.old
        ++ path_text class.now shape.now) }
{
    if shape.is_empty() {
        return Ok(());
    }
    writeln!(text, "<path class=\"{class}\" d=\"{shape}\"/>")
}

/// Appends a shape of a class, with lines of this width, unless the shape is empty.
#[tactic(auto, unfolding(crate::specs::Shapes::lines_text))]
pub(crate) fn append_lines(
    text: &mut String,
    class: &str,
    stroke: u64,
    shape: &str,
) -> Result<(), AllocError>
    ensures { OnOk result (string_bytes text.new ≡ string_bytes text.old
        ++ lines_text class.now stroke shape.now) }
{
    if shape.is_empty() {
        return Ok(());
    }
    writeln!(
        text,
        "<path class=\"{class}\" stroke-width=\"{stroke}\" d=\"{shape}\"/>"
    )
}

/// Appends a shape of a class, with a title.
#[tactic(auto, unfolding(crate::specs::Shapes::titled_text))]
pub fn append_titled(
    text: &mut String,
    class: &str,
    shape: &str,
    title: &str,
) -> Result<(), AllocError>
    ensures { OnOk result (string_bytes text.new ≡ string_bytes text.old
        ++ titled_text class.now shape.now title.now) }
{
    writeln!(
        text,
        "<path class=\"{class}\" d=\"{shape}\"><title>{title}</title></path>"
    )
}

/// Appends a text of a class, at a place.
#[tactic(auto, unfolding(crate::specs::Shapes::label_text))]
pub fn append_label(
    text: &mut String,
    class: &str,
    x: u64,
    y: u64,
    label: &str,
) -> Result<(), AllocError>
    ensures { OnOk result (string_bytes text.new ≡ string_bytes text.old
        ++ label_text class.now x y label.now) }
{
    writeln!(
        text,
        "<text class=\"{class}\" x=\"{x}\" y=\"{y}\">{label}</text>"
    )
}
