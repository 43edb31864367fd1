//! Tests of jobs that end early.

use super::rows::{Case, Row, plays_all};
use cbs_house::{HouseError, Poll};
use cbs_rules::Mode;

/// A unit of the first job of server 0, not its last.
const UNIT: Row = Row::Unit(0, 0);

static CASES: [Case; 3] = [
    Case {
        name: "a job of five units ends after two, and the next one is run",
        mode: Mode::Soft,
        rate: (2, 5),
        limits: (4, 4),
        rows: &[
            Row::Send(&[10, 20, 30, 40, 50], 0),
            Row::Send(&[7], 1),
            Row::Poll(0, Poll::Took(0)),
            Row::Poll(0, Poll::Took(1)),
            UNIT,
            UNIT,
            Row::State(0, 2, 10, false),
            Row::Finish(0, Ok((0, 30))),
            Row::State(0, 2, 10, false),
            Row::Now(2),
            Row::Finish(0, Err(HouseError::NotRunning)),
            Row::Done(0, 1, 7),
            Row::Finish(0, Err(HouseError::NotRunning)),
            Row::Results(0, Ok(&[30, 7])),
        ],
    },
    Case {
        name: "a throttled server is charged for the unit before its job ends, and after",
        mode: Mode::Throttled,
        rate: (2, 5),
        limits: (4, 4),
        rows: &[
            Row::Send(&[1, 1, 1, 1], 0),
            Row::Poll(0, Poll::Took(0)),
            UNIT,
            Row::Charge(1, Ok(())),
            Row::State(0, 0, 5, true),
            Row::Finish(0, Ok((0, 1))),
            Row::Charge(2, Ok(())),
            Row::State(0, 0, 10, true),
            Row::Now(4),
            Row::Charges(0, Ok((3, 3))),
            Row::Drain(Ok(())),
            Row::Now(4),
            Row::Results(0, Ok(&[1])),
        ],
    },
    Case {
        name: "an early end that is refused changes nothing",
        mode: Mode::Soft,
        rate: (2, 5),
        limits: (4, 4),
        rows: &[
            Row::Finish(0, Err(HouseError::NotRunning)),
            Row::Finish(1, Err(HouseError::NoSuchServer)),
            Row::Send(&[1, 1, 1], 0),
            Row::Send(&[1], 1),
            Row::Poll(0, Poll::Took(0)),
            Row::Finish(0, Err(HouseError::NotRunning)),
            UNIT,
            Row::Poll(0, Poll::Took(1)),
            Row::Finish(0, Err(HouseError::NotRunning)),
            UNIT,
            Row::Advance(1, Ok(())),
            Row::Finish(0, Err(HouseError::NotRunning)),
            Row::Done(0, 0, 3),
            Row::Results(0, Ok(&[3])),
        ],
    },
];

#[test]
fn a_house_ends_the_job_that_got_the_last_unit(rt: HostRuntime) {
    plays_all(&rt, rt.alloc(), &CASES);
}
