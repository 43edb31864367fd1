//! The theorem on cores that make the steps of a tape.

ghost use Rattle.cbs_recorded.specs.Records.{AsItWas, AsItWasFrom, AsItBegan};

use cbs_job::Work;

/// States what a core does that makes the steps of a whole tape. The function does nothing. Its contract is the theorem,
/// for every list of steps. The tape was told each step of a recorded core, with the units of its job.
///
/// `as_it_was`: let the tape have been told all steps of the recorded core. A core with the same servers that makes the
/// steps of the tape has the same clock, and the same servers: budgets, deadlines, overruns and charges, how many jobs
/// each accepted and finished, and who is closed.
///
/// `as_it_was_from`: the same holds if recording began later. The core then begins with what the recorded core held, of
/// each job with the units that were left.
///
/// `as_it_began`: a tape that lost a step has the first ones. A core that makes them has the clock and the servers that
/// those first steps of the recorded core led to.
pub fn all_as_it_was<W: Work>()
    ensures as_it_was { AsItWas W.meaning }
    ensures as_it_was_from { AsItWasFrom W.meaning }
    ensures as_it_began { AsItBegan W.meaning }
{}
