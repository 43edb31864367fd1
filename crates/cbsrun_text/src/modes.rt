//! The words for the modes of servers.

ghost use Rattle.std.specs.Prelude.{◌≡◌};
ghost use Rattle.cbsrun_text.specs.Numbers.{mode_word};

use cbs_rules::Mode;

/// Returns the word for a mode.
pub fn mode_word(mode: Mode) -> &'static str
    ensures { result.now ≡ mode_word mode }
{
    match mode {
        Mode::Soft => "soft",
        Mode::Throttled => "throttled",
    }
}
