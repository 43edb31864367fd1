//! The steps of a run, as the bytes of a tape.

ghost use Rattle.std.specs.Prelude.{◌≡◌, true, [], IfOk, OnOk};
ghost use Rattle.cbs_tape.specs.Tapes.{steps_in, Hears};
ghost use Rattle.cbsrun_runs.specs.Records.{step_told, steps_told};
ghost use Rattle.cbsrun_runs.specs.Runs.{SameServers};

use crate::not_recorded::NotRecorded;
use cbs_tape::Tape;
use cbsrun_events::{Event, Seen, View};
use cbsrun_runs::Run;
use std::alloc::{AllocError, Global};

/// A view that tells each step to a tape.
#[derive(Drop)]
struct Told {
    tape: Tape,
}

/// Tells a step to a tape, by its event.
fn tell(tape: &mut Tape, event: Event)
    ensures { Hears (step_told event) tape.old tape.new }
{
    match event {
        Event::Accepted { job, .. } | Event::NotAccepted { job, .. } => {
            tape.accepted(job.server, job.units)
        }
        Event::Ran(_) => tape.ran(),
        Event::Advanced(ticks) | Event::NotAdvanced(ticks, _) => tape.advanced(ticks),
        Event::Closed(server) | Event::NotClosed(server, _) => tape.closed(server),
        Event::Charged { server, ticks } | Event::NotCharged { server, ticks, .. } => {
            tape.charged(server, ticks)
        }
    }
}

impl View<()> for Told {
    ghost use Rattle.std.specs.Prelude.{◌≡◌, ◌++◌, true};
    ghost use Rattle.cbsrun_runs.specs.Records.{steps_told};

    ghost saw = { λ first now seen. now.0.tape.whole ≡ true
        → now.0.tape.steps ≡ first.0.tape.steps ++ steps_told seen };

    fn see(&mut self, _lent: &mut (), seen: Seen) -> Result<(), AllocError> {
        tell(&mut self.tape, seen.event);
        if self.tape.is_whole() {
            Ok(())
        } else {
            Err(AllocError)
        }
    }
}

/// Returns the steps of a run, which it makes, as the bytes of a tape. Refuses with [`NotRecorded::TooLong`] if they are more
/// than `most` bytes.
pub(crate) fn tape_of<R: Run>(alloc: Global, most: u32, run: &mut R) -> Result<Vec<u8>, NotRecorded>
    ensures steps { IfOk result (λ tape. steps_in tape.items ≡ steps_told (R.run run.old).seen) }
    ensures servers { OnOk result (SameServers (R.run run.old) (R.run run.new)) }
    ensures lawful { OnOk result (R.lawful run.old) }
{
    let mut told = Told {
        tape: Tape::new(alloc, most)?,
    };
    let shown = run.show(alloc, &mut told, &mut ());
    if !told.tape.is_whole() {
        return Err(NotRecorded::TooLong);
    }
    shown?;
    Ok(told.tape.end())
}
