//! The lines of a trace.

ghost use Rattle.std.specs.Prelude.{◌≡◌, [], ◌∷◌, ◌++◌, OnOk, string_bytes};
ghost use Rattle.std.specs.Ordering.{nat_cmp};
ghost use Rattle.std.specs.List.Sorted.{IsPermutation, IsSortedByKey, IsStableByKey};
ghost use Rattle.cbsrun_perfetto.specs.Events.{duration_text, event_text};
ghost use Rattle.cbsrun_perfetto.specs.Traces.{next_text, tick_of};

use crate::times::append_microseconds;
use std::alloc::AllocError;
use std::marker::Model;

/// A line of a trace: an event, with its tick.
#[derive(Drop)]
pub(crate) struct Line {
    tick: u64,
    lasts: Option<u64>,
    before: String,
    between: String,
}

impl Model for Line {
    ghost use Rattle.std.specs.Prelude.{string_bytes};
    ghost use Rattle.cbsrun_perfetto.specs.Events.{LineSeen};

    ghost Value = { LineSeen };

    ghost view = { λ l. record { tick = l.tick; lasts = l.lasts; before = string_bytes l.before; between = string_bytes l.between } };
}

impl Line {
    /// Returns the line of an event at a tick, which goes on for `lasts` ticks, if it does. Its other members stand before
    /// these times, and between them.
    pub fn new(tick: u64, lasts: Option<u64>, before: String, between: String) -> Line
        ensures { result ≡ record {
          tick = tick;
          lasts = lasts;
          before = string_bytes before;
          between = string_bytes between;
        } }
    {
        Line {
            tick,
            lasts,
            before,
            between,
        }
    }

    /// Returns the tick.
    pub fn tick(&self) -> u64
        ensures { result ≡ self.now.tick }
    {
        self.tick
    }

    /// Appends the event after another one, with its times in microseconds, by the nanoseconds of a tick.
    #[tactic(auto, unfolding(crate::specs::Events::event_text))]
    pub fn append(&self, text: &mut String, nanoseconds: Option<u64>) -> Result<(), AllocError>
        ensures { OnOk result (string_bytes text.new ≡ string_bytes text.old
            ++ next_text (event_text nanoseconds self.now)) }
    {
        text.push_str(",\n")?;
        text.push_str(&self.before)?;
        append_duration(text, nanoseconds, self.lasts)?;
        text.push_str(&self.between)?;
        text.push_str(",\"ts\":")?;
        append_microseconds(text, nanoseconds, self.tick)?;
        text.push_str("}")
    }
}

/// Appends how long an event goes on, if it does.
fn append_duration(
    text: &mut String,
    nanoseconds: Option<u64>,
    lasts: Option<u64>,
) -> Result<(), AllocError>
    ensures { OnOk result (string_bytes text.new ≡ string_bytes text.old
        ++ duration_text nanoseconds lasts) }
{
    let Some(ticks) = lasts else {
        return Ok(());
    };
    text.push_str(",\"dur\":")?;
    append_microseconds(text, nanoseconds, ticks)
}

/// Appends a line. The only error is out of memory.
pub(crate) fn append_line(lines: &mut Vec<Line>, line: Line) -> Result<(), AllocError>
    ensures { OnOk result (lines.new.items ≡ lines.old.items ++ line ∷ []) }
{
    lines.push(line)?;
    Ok(())
}

/// Sorts lines by their ticks. Lines of the same tick keep their order. Refuses if out of memory.
pub(crate) fn sort_lines(lines: &mut Vec<Line>) -> Result<(), AllocError>
    ensures same { IsPermutation lines.old.items lines.new.items }
    ensures rising { OnOk result (IsSortedByKey tick_of nat_cmp lines.new.items) }
    ensures stable { IsStableByKey tick_of nat_cmp lines.old.items lines.new.items }
{
    lines.sort_by_key(|line| line.tick())
}
