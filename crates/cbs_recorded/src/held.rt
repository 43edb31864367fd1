//! The calls of a core that a house makes, each of whose steps is told to a tape, if there is one.

ghost use Rattle.std.specs.Prelude.{ℕ, ◌≡◌, ◌≢◌, None, IfOk, OnOk, OnErr, MatchResult};
ghost use Rattle.cbs_core.specs.Agreement.{FollowsInHindsight};
ghost use Rattle.cbs_core.specs.Calls.{Makes};
ghost use Rattle.cbs_core.specs.Held.{HasRoom, held_at, may_end, ended_at, end_refusal, TakesJob, ClosesServer, EndsJob, OthersSame, AllSame, DoesRun, IsOpen, IsCoreOnTime, IsCorePaced};
ghost use Rattle.cbs_steps.specs.Replies.{advanced, charged};
ghost use Rattle.cbs_steps.specs.declared.step.Step.TheVariants as Step;
ghost use Rattle.cbs_steps.specs.declared.reply.Reply.TheVariants as Reply;
ghost use Rattle.cbs_recorded.specs.Records.{tape_in, HearsIfThere, Recorded, Loses};

use cbs_core::{Core, CoreError, Ran};
use cbs_job::{Completion, Task, Work};
use cbs_tape::Tape;
use std::alloc::Allocator;

/// Runs a unit, as [`Core::run`] does, and tells it to the tape. A Run that ran no unit is not told.
#[inline(always)]
pub fn run_told<W: Work, A: Allocator>(
    core: &mut Core<W, A>,
    tape: &mut Option<Box<Tape<A>, A>>,
) -> Ran
    ensures makes { Makes W.meaning core.old core.new Step.Run (Reply.Ran result) }
    ensures job { DoesRun W.meaning result core.old core.new }
    ensures recorded { Recorded W.meaning core.old core.new (tape_in tape.old)
        (tape_in tape.new) }
{
    let ran = core.run();
    match ran {
        Ran::Unit { .. } | Ran::Done(_) => tell_unit(tape),
        Ran::Idle | Ran::ClockEnd => {}
    }
    ran
}

/// Tells a unit that ran to the tape, if there is one.
#[inline(always)]
fn tell_unit<A: Allocator>(tape: &mut Option<Box<Tape<A>, A>>)
    ensures { HearsIfThere Step.Run (tape_in tape.old) (tape_in tape.new) }
{
    if let Some(tape) = tape {
        tape.ran();
    }
}

/// Gives a job to a server that has room for it, as [`Core::submit_reserved`] does, and tells it to the tape, with the
/// units that it has.
pub fn submit_told<W: Work, A: Allocator>(
    core: &mut Core<W, A>,
    tape: &mut Option<Box<Tape<A>, A>>,
    server: u16,
    task: Task<W>,
) -> u64
    requires { HasRoom core.old server }
    ensures makes { Makes W.meaning core.old core.new (Step.Submit server task)
        (Reply.Accepted result) }
    ensures job { TakesJob task result (held_at core.old server) (held_at core.new server)
        × OthersSame server core.old core.new }
    ensures recorded { Recorded W.meaning core.old core.new (tape_in tape.old)
        (tape_in tape.new) }
{
    let units = task.left();
    let number = core.submit_reserved(server, task);
    if let Some(tape) = tape {
        tape.accepted(server, units);
    }
    number
}

/// Lets ticks pass, as [`Core::advance`] does, and tells it to the tape. An advance by 0 ticks is not told. A refusal
/// changes nothing.
pub fn advance_told<W: Work, A: Allocator>(
    core: &mut Core<W, A>,
    tape: &mut Option<Box<Tape<A>, A>>,
    n: u64,
) -> Result<(), CoreError>
    ensures makes { Makes W.meaning core.old core.new (Step.Advance n) (advanced result) }
    ensures jobs { AllSame core.old core.new }
    ensures unchanged { OnErr result (core.new ≡ core.old) }
    ensures same { OnErr result (tape.new ≡ tape.old) }
    ensures recorded { Recorded W.meaning core.old core.new (tape_in tape.old)
        (tape_in tape.new) }
{
    core.advance(n)?;
    if n > 0 {
        if let Some(tape) = tape {
            tape.advanced(n);
        }
    }
    Ok(())
}

/// Charges a server, as [`Core::charge`] does, and tells it to the tape. A charge of 0 ticks is not told. A refusal
/// changes nothing.
pub fn charge_told<W: Work, A: Allocator>(
    core: &mut Core<W, A>,
    tape: &mut Option<Box<Tape<A>, A>>,
    server: u16,
    ticks: u64,
) -> Result<(), CoreError>
    ensures makes { Makes W.meaning core.old core.new (Step.Charge server ticks) (charged result) }
    ensures jobs { AllSame core.old core.new }
    ensures unchanged { OnErr result (core.new ≡ core.old) }
    ensures same { OnErr result (tape.new ≡ tape.old) }
    ensures recorded { Recorded W.meaning core.old core.new (tape_in tape.old)
        (tape_in tape.new) }
{
    core.charge(server, ticks)?;
    if ticks > 0 {
        if let Some(tape) = tape {
            tape.charged(server, ticks);
        }
    }
    Ok(())
}

/// Closes a server that is there and open, as [`Core::close_open`] does, and tells it to the tape.
pub fn close_told<W: Work, A: Allocator>(
    core: &mut Core<W, A>,
    tape: &mut Option<Box<Tape<A>, A>>,
    server: u16,
)
    requires { IsOpen core.old server }
    ensures makes { Makes W.meaning core.old core.new (Step.Close server) Reply.Closed }
    ensures closed { ClosesServer (held_at core.old server) (held_at core.new server)
        × OthersSame server core.old core.new }
    ensures recorded { Recorded W.meaning core.old core.new (tape_in tape.old)
        (tape_in tape.new) }
{
    core.close_open(server);
    if let Some(tape) = tape {
        tape.closed(server);
    }
}

/// Ends the job of a server that got the last unit, as [`Core::finish`] does. That is no step, so the tape loses it: the
/// tape has the steps before it, and is not whole from then on. A refusal changes nothing.
pub fn finish_told<W: Work, A: Allocator>(
    core: &mut Core<W, A>,
    tape: &mut Option<Box<Tape<A>, A>>,
    server: u16,
) -> Result<Completion, CoreError>
    ensures hindsight { OnOk result (FollowsInHindsight W.meaning core.old core.new server) }
    ensures job { IfOk result (λ c. EndsJob W.meaning c (held_at core.old server)
        (held_at core.new server)
        × OthersSame server core.old core.new × (c.server ≡ server)) }
    ensures ended { OnOk result (core.new
        ≡ record (ended_at server core.old) { rooms = core.new.rooms }) }
    ensures refusal { MatchResult result (λ c. end_refusal core.old server ≡ None)
        (λ error. end_refusal core.old server ≡ Some error) }
    ensures unchanged { OnErr result (core.new ≡ core.old) }
    ensures same { OnErr result (tape.new ≡ tape.old) }
    ensures loses { OnOk result (Loses (tape_in tape.old) (tape_in tape.new)) }
    ensures on_time { IsCoreOnTime core.old → IsCoreOnTime core.new }
    ensures paced { IsCorePaced core.old → IsCorePaced core.new }
{
    let done = core.finish(server)?;
    if let Some(tape) = tape {
        tape.lose();
    }
    Ok(done)
}
