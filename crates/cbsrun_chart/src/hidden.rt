//! What a picture does not show of a run: ticks, and servers.

ghost use Rattle.std.specs.Prelude.{◌≡◌};
ghost use Rattle.cbsrun_chart.specs.Hidden.{hidden_of, left_out_of};

use crate::picture::Picture;
use cbsrun_window::Window;
use std::fmt;

/// The ticks of a run that a picture does not show, in words: `Not shown: 0 ticks before, 300 after.`
#[derive(Clone, Copy, Debug, PartialEq, Eq)]
pub struct Hidden {
    /// How many ticks are before the first one that is shown.
    pub before: u64,
    /// How many are after the last one.
    pub after: u64,
}

impl fmt::Display for Hidden {
    ghost use Rattle.std.specs.Prelude.{Some};
    ghost use Rattle.cbsrun_chart.specs.Hidden.{hidden_text};

    ghost output = { λ h. Some (hidden_text h) };

    #[tactic(auto, unfolding(crate::specs::Hidden::hidden_text))]
    fn fmt<W: fmt::Write>(&self, f: &mut fmt::Formatter<W>) -> fmt::Result {
        let before = self.before;
        let after = self.after;
        write!(f, "Not shown: {before} ticks before, {after} after.")
    }
}

impl Hidden {
    /// Returns the ticks of a run, which ends at the tick `end`, that a window does not show. Returns `None` if the
    /// window shows all.
    fn of(window: Window, end: u64) -> Option<Hidden>
        ensures { result ≡ hidden_of window end }
    {
        if window.from == 0 && end <= window.to {
            return None;
        }
        Some(Hidden {
            before: window.from,
            after: end.saturating_sub(window.to),
        })
    }
}

/// The servers of a run that a picture does not draw, in words: `Not shown: 3 servers.`
#[derive(Clone, Copy, Debug, PartialEq, Eq)]
pub struct LeftOut {
    /// How many servers are not drawn.
    pub servers: u64,
}

impl fmt::Display for LeftOut {
    ghost use Rattle.std.specs.Prelude.{Some};
    ghost use Rattle.cbsrun_chart.specs.Hidden.{left_out_text};

    ghost output = { λ o. Some (left_out_text o) };

    #[tactic(auto, unfolding(crate::specs::Hidden::left_out_text))]
    fn fmt<W: fmt::Write>(&self, f: &mut fmt::Formatter<W>) -> fmt::Result {
        let servers = self.servers;
        if servers == 1 {
            return f.write_str("Not shown: 1 server.");
        }
        write!(f, "Not shown: {servers} servers.")
    }
}

impl Picture {
    /// Returns the ticks of the run that the picture does not show, or `None` if it shows the whole run.
    pub fn hidden(&self) -> Option<Hidden>
        ensures { result ≡ hidden_of self.now.window self.now.end }
    {
        Hidden::of(self.window, self.end)
    }

    /// Returns the servers of the run that the picture does not draw, or `None` if it draws all.
    pub fn left_out(&self) -> Option<LeftOut>
        ensures { result ≡ left_out_of self.now.others }
    {
        if self.others == 0 {
            return None;
        }
        Some(LeftOut {
            servers: self.others,
        })
    }
}
