//! Tests of calls that are out of memory.

use super::rows::{Phase, Row, plays_in_heap};
use cbs_house::Poll;
use cbs_rules::Mode;

/// A job of three units stays in the ring, since memory for it is refused.
const REFUSED: [Row; 2] = [Row::Send(&[1, 2, 3], 0), Row::Poll(0, Poll::OutOfMemory)];

/// The job is taken.
const TAKEN: [Row; 1] = [Row::Poll(0, Poll::Took(0))];

/// The calls of a house while no memory can be had. Its server has a job of three units, taken before.
const WITHOUT_MEMORY: [Row; 11] = [
    Row::Poll(0, Poll::Nothing),
    Row::PollBeside(Poll::Nothing),
    Row::Poll(1, Poll::NoSuchServer),
    Row::Send(&[4], 1),
    Row::End(Ok(())),
    Row::Settle(2),
    Row::Unit(0, 0),
    Row::Advance(1, Ok(())),
    // The second unit ends at 3 and uses up the budget. The third runs from the deadline on, at 5.
    Row::Drain(Ok(())),
    Row::Now(6),
    Row::Results(0, Ok(&[6])),
];

/// The rest of the ring is done when memory can be had again.
const WITH_MEMORY: [Row; 4] = [
    Row::Poll(0, Poll::Took(1)),
    Row::Poll(0, Poll::Closed),
    Row::Drain(Ok(())),
    Row::Results(0, Ok(&[6, 4])),
];

static PHASES: [Phase; 4] = [
    Phase {
        name: "no memory is found for a job",
        full: true,
        rows: &REFUSED,
    },
    Phase {
        name: "a job is taken",
        full: false,
        rows: &TAKEN,
    },
    Phase {
        name: "no memory is found",
        full: true,
        rows: &WITHOUT_MEMORY,
    },
    Phase {
        name: "memory is found",
        full: false,
        rows: &WITH_MEMORY,
    },
];

#[test]
fn what_is_taken_is_done_without_memory(rt: HostRuntime) {
    plays_in_heap(&rt, rt.alloc(), Mode::Throttled, &PHASES);
}
