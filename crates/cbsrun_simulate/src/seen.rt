//! The steps of a core, as a view sees them.

ghost use Rattle.std.specs.Prelude.{◌≡◌};
ghost use Rattle.cbsrun_events.specs.Steps.{seen_at, view_seen};

use cbs_core::Core;
use cbs_job::Work;
use cbs_steps::ServerView;
use cbsrun_events::{Event, Seen};
use std::alloc::Allocator;

/// Returns what the server of a step shows, or `None` if the step has no server.
#[inline(always)]
fn view_seen<W: Work, A: Allocator>(core: &Core<W, A>, event: &Event) -> Option<ServerView>
    ensures { result ≡ view_seen core.now.faces event.now }
{
    let server = event.server()?;
    core.view(server).ok()
}

/// Returns the step that a core has just made, with this event, as a view sees it.
#[inline(always)]
pub fn seen_by<W: Work, A: Allocator>(core: &Core<W, A>, event: Event) -> Seen
    ensures { result ≡ seen_at core.now.clock core.now.faces event }
{
    Seen {
        clock: core.now(),
        event,
        view: view_seen(core, &event),
    }
}
