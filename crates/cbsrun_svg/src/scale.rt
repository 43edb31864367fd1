//! The scale of ticks.

ghost use Rattle.std.specs.Prelude.{◌≡◌, ◌≤◌, ◌++◌, IfOk, OnOk, string_bytes};
ghost use Rattle.std.specs.List.{find};
ghost use Rattle.cbsrun_svg.specs.Heads.{axis_text, has_room, letters_of, multiple, multiples, multiples_from, number_text, numbered_ticks, numbers_text, scale_text, small_mark, small_marks, step_of, ticks_numbered, unit_word, uprights_text};

use cbsrun_chart::Window;
use cbsrun_svg_shapes::{Axis, append_label, append_upright};
use cbsrun_text::digits_of;
use cbsrun_time_texts::{append_amount, append_milliseconds};
use std::alloc::{AllocError, Global};
use std::fmt::Write;

/// The steps at which ticks are numbered.
pub(crate) const STEPS: [u64; 15] = [
    1, 2, 5, 10, 20, 50, 100, 200, 500, 1000, 2000, 5000, 10_000, 20_000, 50_000,
];

/// Returns whether labels with this many letters have room if one stands every `step` ticks.
fn has_room(axis: &Axis, letters: u64, step: u64) -> bool
    requires { letters ≤ 100 }
    ensures { result ≡ has_room axis.now letters step }
{
    700 * letters + 2000 <= step.saturating_mul(axis.width()) / axis.cell().max(1)
}

/// Returns the first of these steps at which labels with this many letters have room, if there is one.
fn first_step(axis: &Axis, letters: u64, steps: &[u64]) -> Option<u64>
    requires { letters ≤ 100 }
    ensures { result ≡ find (has_room axis.now letters) steps.now }
{
    steps
        .iter()
        .copied()
        .find(|step| has_room(axis, letters, *step))
}

/// Returns the least step, in ticks, at which labels with this many letters have room.
fn step_of(axis: &Axis, letters: u64) -> u64
    requires { letters ≤ 100 }
    ensures { result ≡ step_of axis.now letters }
{
    first_step(axis, letters, &STEPS).unwrap_or(50_000)
}

/// Returns how many multiples of a step a window has. Its end counts too.
fn multiples(window: Window, step: u64) -> u64
    ensures { result ≡ multiples window step }
{
    let step = step.max(1);
    (window.to / step)
        .saturating_add(1)
        .saturating_sub(window.from.div_ceil(step))
}

/// Returns a multiple of a step, by its place after the first multiple.
fn multiple(first: u64, step: u64, place: u64) -> u64
    ensures { result ≡ multiple first step place }
{
    first.saturating_add(place).saturating_mul(step)
}

/// Returns this many multiples of a step, from the first one on.
#[tactic(auto, unfolding(crate::specs::Heads::multiples_from))]
fn multiples_from(alloc: Global, first: u64, step: u64, count: u64) -> Result<Vec<u64>, AllocError>
    ensures { IfOk result (λ ticks. ticks.items ≡ multiples_from first step count) }
{
    let mut ticks = Vec::new(alloc);
    for place in 0..count {
        ticks.push(multiple(first, step, place))?;
    }
    Ok(ticks)
}

/// Returns the multiples of a step in a window. Its end counts too.
fn numbered_ticks(alloc: Global, window: Window, step: u64) -> Result<Vec<u64>, AllocError>
    ensures { IfOk result (λ ticks. ticks.items ≡ numbered_ticks window step) }
{
    let first = window.from.div_ceil(step.max(1));
    multiples_from(alloc, first, step, multiples(window, step))
}

/// Returns how many letters the number of a tick up to `to` has at most, which are at most 40. In milliseconds these are the
/// digits of the whole ones at `to`, and the letters of one tick after its first.
fn letters_of(alloc: Global, nanoseconds: Option<u64>, to: u64) -> Result<u64, AllocError>
    ensures value { IfOk result (λ letters. letters ≡ letters_of nanoseconds to) }
    ensures few { IfOk result (λ letters. letters ≤ 40) }
{
    let Some(nanoseconds) = nanoseconds else {
        return digits_of(alloc, to);
    };
    let mut one = String::new(alloc);
    append_milliseconds(&mut one, nanoseconds, 1)?;
    let more = (one.len() as u64).saturating_sub(1).min(20);
    let whole = u128::from(nanoseconds) * u128::from(to) / 1_000_000;
    Ok(digits_of(alloc, u64::try_from(whole).unwrap_or(u64::MAX))? + more)
}

/// Returns the ticks of a window that are numbered.
pub(crate) fn ticks_of(
    alloc: Global,
    nanoseconds: Option<u64>,
    axis: &Axis,
    window: Window,
) -> Result<Vec<u64>, AllocError>
    ensures { IfOk result (λ ticks. ticks.items ≡ ticks_numbered nanoseconds axis.now window) }
{
    let letters = letters_of(alloc, nanoseconds, window.to)?;
    numbered_ticks(alloc, window, step_of(axis, letters))
}

/// Appends upright lines at ticks.
#[tactic(auto, unfolding(crate::specs::Heads::uprights_text))]
pub(crate) fn append_uprights(
    shape: &mut String,
    axis: &Axis,
    from: u64,
    to: u64,
    ticks: &[u64],
) -> Result<(), AllocError>
    ensures { OnOk result (string_bytes shape.new ≡ string_bytes shape.old
        ++ uprights_text axis.now from to ticks.now) }
{
    for tick in ticks {
        append_upright(shape, axis.x(*tick), from, to)?;
    }
    Ok(())
}

/// Appends a small mark at the tick of a place.
fn append_small_mark(shape: &mut String, axis: &Axis, y: u64, place: u64) -> Result<(), AllocError>
    requires { y ≤ 1000000 }
    ensures { OnOk result (string_bytes shape.new ≡ string_bytes shape.old
        ++ small_mark axis.now y place) }
{
    append_upright(shape, axis.x(axis.tick(place)), y, y + 300)
}

/// Appends a small mark at every tick, if the cells are wide enough.
#[tactic(auto, unfolding(crate::specs::Heads::small_marks))]
fn append_small_marks(shape: &mut String, axis: &Axis, y: u64) -> Result<(), AllocError>
    requires { y ≤ 1000000 }
    ensures { OnOk result (string_bytes shape.new ≡ string_bytes shape.old
        ++ small_marks axis.now y) }
{
    if axis.width() < 400 {
        return Ok(());
    }
    for place in 0..axis.ticks() + 1 {
        append_small_mark(shape, axis, y, place)?;
    }
    Ok(())
}

/// Appends the line of the scale, with its marks.
#[tactic(auto, unfolding(crate::specs::Heads::axis_text))]
fn append_axis(text: &mut String, axis: &Axis, y: u64, ticks: &[u64]) -> Result<(), AllocError>
    requires { y ≤ 1000000 }
    ensures { OnOk result (string_bytes text.new ≡ string_bytes text.old
        ++ axis_text axis.now y ticks.now) }
{
    let left = axis.left();
    let right = axis.right();
    write!(text, "<path class=\"axis\" d=\"M{left} {y}H{right}")?;
    append_small_marks(text, axis, y)?;
    append_uprights(text, axis, y, y + 600, ticks)?;
    writeln!(text, "\"/>")
}

/// Appends the number of a tick, in milliseconds if the nanoseconds of a tick are known.
#[tactic(auto, unfolding(crate::specs::Heads::number_text))]
fn append_number(
    alloc: Global,
    text: &mut String,
    nanoseconds: Option<u64>,
    axis: &Axis,
    y: u64,
    tick: u64,
) -> Result<(), AllocError>
    ensures { OnOk result (string_bytes text.new ≡ string_bytes text.old
        ++ number_text nanoseconds axis.now y tick) }
{
    let mut label = String::new(alloc);
    append_amount(&mut label, nanoseconds, tick)?;
    append_label(text, "c", axis.x(tick), y, &label)
}

/// Appends the numbers of ticks.
#[tactic(auto, unfolding(crate::specs::Heads::numbers_text))]
pub(crate) fn append_numbers(
    alloc: Global,
    text: &mut String,
    nanoseconds: Option<u64>,
    axis: &Axis,
    y: u64,
    ticks: &[u64],
) -> Result<(), AllocError>
    ensures { OnOk result (string_bytes text.new ≡ string_bytes text.old
        ++ numbers_text nanoseconds axis.now y ticks.now) }
{
    for tick in ticks {
        append_number(alloc, text, nanoseconds, axis, y, *tick)?;
    }
    Ok(())
}

/// Returns the unit of the numbers of ticks.
fn unit_word(nanoseconds: Option<u64>) -> &'static str
    ensures { result.now ≡ unit_word nanoseconds }
{
    match nanoseconds {
        Some(_) => "ms",
        None => "ticks",
    }
}

/// Appends the scale, whose line is at `y`.
#[tactic(auto, unfolding(crate::specs::Heads::scale_text))]
pub(crate) fn append_scale(
    alloc: Global,
    text: &mut String,
    nanoseconds: Option<u64>,
    axis: &Axis,
    y: u64,
    ticks: &[u64],
) -> Result<(), AllocError>
    requires { y ≤ 1000000 }
    ensures { OnOk result (string_bytes text.new ≡ string_bytes text.old
        ++ scale_text nanoseconds axis.now y ticks.now) }
{
    append_axis(text, axis, y, ticks)?;
    append_numbers(alloc, text, nanoseconds, axis, y + 1900, ticks)?;
    append_label(text, "m", 1600, y + 1900, unit_word(nanoseconds))
}
